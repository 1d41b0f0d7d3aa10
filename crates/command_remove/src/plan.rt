// The steps of a removal.
ghost use Rattle.std.specs.Prelude.{◌≡◌, option_map};
ghost use Rattle.km_course.specs.FollowsOn.{Returns};
ghost use Rattle.command_remove.specs.Remove.{chosen_outcome, command_owner, first_owner};
ghost use Rattle.command_remove.specs.Remove.{steps_outcome};

use km_course::{Refusal, Stop};
use km_names::{Name, Names};
use model_loader::Machine;
use modprobe_conf::Rules;
use remove_plan::{RemoveFault, RemovePlan, RemoveStep, plan_removal};
use std::alloc::Global;

/// Returns the steps that take the modules of these names out of a machine, or the refusal of the
/// oldest that is in use.
pub(crate) fn steps_in(
    alloc: Global,
    names: &Names,
    ignore_remove: bool,
    rules: &Rules,
    machine: &Machine,
) -> Result<RemovePlan, Stop>
    ensures { Returns (steps_outcome machine.now rules.now ignore_remove names.now) result }
{
    match plan_removal(alloc, names, ignore_remove, rules, machine) {
        Ok(steps) => Ok(steps),
        Err(fault) => match fault {
            RemoveFault::InUse { name, user } => Err(Stop::from(Refusal::InUse { name, user })),
            RemoveFault::Memory => Err(Stop::Memory),
        },
    }
}

/// Refuses the first step that runs a command, unless steps are only printed.
pub(crate) fn check_chosen(alloc: Global, dry_run: bool, steps: &RemovePlan) -> Result<(), Stop>
    ensures { Returns (chosen_outcome dry_run steps.now) result }
{
    if dry_run {
        return Ok(());
    }
    match first_owner(steps) {
        Some(name) => {
            let name = Name::from_slice(alloc, name)?;
            Err(Stop::from(Refusal::RemoveChosen { name }))
        }
        None => Ok(()),
    }
}

/// Returns the first module for which a command is run.
fn first_owner(steps: &RemovePlan) -> Option<&[u8]>
    ensures { option_map (λ name. name.now) result ≡ first_owner steps.now }
{
    for step in steps.as_slice() {
        if let Some(name) = command_owner(step) {
            return Some(name);
        }
    }
    None
}

/// Returns the module for which a step runs a command.
fn command_owner(step: &RemoveStep) -> Option<&[u8]>
    ensures { option_map (λ name. name.now) result ≡ command_owner step.now }
{
    match step {
        RemoveStep::Rmmod { .. } => None,
        RemoveStep::Command { name, .. } => Some(name.as_bytes()),
    }
}
