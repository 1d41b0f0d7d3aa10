// Modules that are taken out of the machine.
ghost use Rattle.std.specs.Prelude.{◌≡◌, ℕ, IfOk, Ok, Some, length, ⊤};
ghost use Rattle.km_course.specs.FollowsOn.{FollowsOnOut, FollowsOnOutAs};
ghost use Rattle.km_course.specs.Course.{each_from};
ghost use Rattle.model_unload.specs.Below.{IsUnusedBelow};
ghost use Rattle.model_unload.specs.Unload.{place_of, unloaded};
ghost use Rattle.command_remove.specs.Remove.{step_name, unloads_all, unloads_one, unloads_unless};
ghost use Rattle.command_remove.specs.Taken.{CanBeTakenOut};

use crate::lines::{left_lines, push_two};
use km_course::{Stop, say, say_any};
use km_names::Blob;
use model_loader::Machine;
use model_unload::unload_below;
use outside_calls::Out;
use remove_plan::{RemovePlan, RemoveStep};
use std::alloc::Global;

/// Takes the modules of the steps out of a machine, unless steps are only printed, and says what is
/// left.
pub(crate) fn unload_unless<O: Out>(
    alloc: Global,
    dry_run: bool,
    machine: &mut Machine,
    steps: &RemovePlan,
    out: &mut O,
) -> Result<(), Stop>
    requires { CanBeTakenOut machine.old (length machine.old.entries) steps.now }
    ensures { FollowsOnOut (unloads_unless dry_run machine.old steps.now)
        O.seen out.old out.new result }
{
    if dry_run {
        return Ok(());
    }
    unload_and_list(alloc, machine, steps, out)
}

/// Takes the modules of the steps out of a machine, and says what is left.
fn unload_and_list<O: Out>(
    alloc: Global,
    machine: &mut Machine,
    steps: &RemovePlan,
    out: &mut O,
) -> Result<(), Stop>
    requires { CanBeTakenOut machine.old (length machine.old.entries) steps.now }
    ensures { FollowsOnOut (unloads_all machine.old steps.now) O.seen out.old out.new result }
{
    unload_steps(alloc, machine, steps, out)?;
    let text = left_lines(alloc, machine)?;
    say_any(out, text.as_bytes())
}

/// Takes the modules of the steps out of a machine, one after the other, and says so of each. Each
/// is looked for below the one before it, so all of them are found in one pass over the machine.
fn unload_steps<O: Out>(
    alloc: Global,
    machine: &mut Machine,
    steps: &RemovePlan,
    out: &mut O,
) -> Result<(), Stop>
    requires { CanBeTakenOut machine.old (length machine.old.entries) steps.now }
    ensures { FollowsOnOutAs
        (λ (done : ⊤). machine.new) (each_from unloads_one machine.old steps.now)
        O.seen out.old out.new result }
{
    let mut end = machine.module_count();
    for step in steps.as_slice() {
        end = unload_one(alloc, machine, end, step, out)?;
    }
    Ok(())
}

/// Takes the module of a step, which is below the place `end`, out of a machine, and says so.
/// Returns its place.
fn unload_one<O: Out>(
    alloc: Global,
    machine: &mut Machine,
    end: usize,
    step: &RemoveStep,
    out: &mut O,
) -> Result<usize, Stop>
    requires { IsUnusedBelow machine.old end (step_name step.now) }
    ensures follows { FollowsOnOutAs (λ (place : ℕ). machine.new) (unloads_one machine.old step.now)
        O.seen out.old out.new result }
    ensures after { unloaded machine.old (step_name step.now) ≡ Ok machine.new }
    ensures place { IfOk result (λ place. place_of machine.old (step_name step.now) ≡ Some place) }
{
    let name = step_name(step);
    let place = unload_below(machine, end, name);
    let mut line = Blob::new(alloc);
    push_two(&mut line, b"unloaded ", name)?;
    say(out, line.as_bytes())?;
    Ok(place)
}

/// Returns the name of the module that a step is for.
fn step_name(step: &RemoveStep) -> &[u8]
    ensures { result.now ≡ step_name step.now }
{
    match step {
        RemoveStep::Rmmod { name } | RemoveStep::Command { name, .. } => name.as_bytes(),
    }
}
