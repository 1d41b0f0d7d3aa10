// The plan of what is asked for, and its lines.
ghost use Rattle.std.specs.Prelude.{◌≡◌, ◌∷◌, ◌++◌, ◌⊎◌, [], IfOk, OnOk};
ghost use Rattle.km_course.specs.Course.{says_any};
ghost use Rattle.km_course.specs.FollowsOn.{FollowsOnFilesAndOut, FollowsOnOut, Returns};
ghost use Rattle.km_course.specs.declared.end.End.TheVariants.{Refused};
ghost use Rattle.km_course.specs.declared.refusal.Refusal.TheVariants.{Obstacle as Obstacle_spec};
ghost use Rattle.km_course.specs.declared.stop.Stop.TheVariants.{Ended, Memory};
ghost use Rattle.plan_builder.specs.declared.obstacle.Obstacle.TheVariants as obstacles;
ghost use Rattle.plan_builder.specs.Text.{obstacle_text};
ghost use Rattle.command_modprobe.specs.Parts.{prints_plan};
ghost use Rattle.command_modprobe.specs.Planned.{insert_line, loaded_in, plan_lines, plan_outcome};
ghost use Rattle.command_modprobe.specs.Planned.{shows_plan, step_line};

use crate::basis::{Basis, read_basis};
use km_course::{Refusal, Stop, say_any};
use km_names::{Blob, PathText, join};
use kmod_words::{Mode, ModprobeWords};
use loaded_list::Loaded;
use outside_calls::{Out, Reads};
use plan_builder::{Obstacle, PlanStep, PlanSteps, Request, plan};
use stages_known::Known;
use std::alloc::{AllocError, Global};

/// Prints the plan for the requested names, one step a line. modprobe(8), `--dry-run` and
/// `--show-depends`.
pub(crate) fn show_plan<F: Reads, O: Out>(
    alloc: Global,
    asked: ModprobeWords,
    files: &mut F,
    out: &mut O,
) -> Result<(), Stop>
    ensures { FollowsOnFilesAndOut (shows_plan asked)
        F.seen files.old files.new O.seen out.old out.new result }
{
    let mode = asked.mode;
    let basis = read_basis(alloc, asked, files)?;
    print_plan(alloc, mode, &basis, out)
}

/// Returns the plan of a request in a mode, or the refusal of its first obstacle.
pub(crate) fn plan_in(
    alloc: Global,
    mode: Mode,
    known: &Known,
    request: &Request,
) -> Result<PlanSteps, Stop>
    ensures { Returns (plan_outcome known.now (loaded_in mode known.now.loaded) request.now)
        result }
{
    match mode {
        Mode::ShowDepends => plan_with(alloc, known, &Loaded::new(alloc), request),
        Mode::ResolveAlias | Mode::Load | Mode::DryRun | Mode::Remove { .. } => {
            plan_with(alloc, known, &known.loaded, request)
        }
    }
}

/// Prints the lines of a plan for the modules in a folder.
pub(crate) fn say_plan<O: Out>(
    alloc: Global,
    folder: &PathText,
    steps: &PlanSteps,
    out: &mut O,
) -> Result<(), Stop>
    ensures { FollowsOnOut (says_any (plan_lines folder.now steps.now))
        O.seen out.old out.new result }
{
    let text = plan_text(alloc, folder, steps)?;
    say_any(out, text.as_bytes())
}

/// Prints the plan of a request in a mode.
fn print_plan<O: Out>(alloc: Global, mode: Mode, basis: &Basis, out: &mut O) -> Result<(), Stop>
    ensures { FollowsOnOut (prints_plan basis.now.folder basis.now.request mode basis.now.known)
        O.seen out.old out.new result }
{
    let steps = plan_in(alloc, mode, &basis.known, &basis.request)?;
    say_plan(alloc, &basis.folder, &steps, out)
}

/// Returns the plan of a request if these modules are loaded, or the refusal of its first obstacle.
fn plan_with(
    alloc: Global,
    known: &Known,
    loaded: &Loaded,
    request: &Request,
) -> Result<PlanSteps, Stop>
    ensures { Returns (plan_outcome known.now loaded.now request.now) result }
{
    match plan(
        alloc,
        request,
        &known.rules,
        &known.indexes,
        &known.unmet,
        loaded,
    ) {
        Ok(steps) => Ok(steps),
        Err(obstacle) => Err(refused(alloc, &obstacle)),
    }
}

/// Returns the lines of a plan for the modules in a folder, one line a step.
fn plan_text(alloc: Global, folder: &PathText, steps: &PlanSteps) -> Result<Blob, AllocError>
    ensures { IfOk result (λ text. text ≡ plan_lines folder.now steps.now) }
{
    let mut text = Blob::new(alloc);
    for step in steps.as_slice() {
        push_line(alloc, &mut text, folder, step)?;
    }
    Ok(text)
}

/// Returns how an obstacle stops the command: by the refusal that carries its text.
fn refused(alloc: Global, obstacle: &Obstacle) -> Stop
    ensures { (result ≡ Memory)
        ⊎ ((result ≡ Ended (Refused (Obstacle_spec (obstacle_text obstacle.now))))
        × ¬ (obstacle.now ≡ obstacles.Memory)) }
{
    if matches!(obstacle, Obstacle::Memory) {
        return Stop::Memory;
    }
    match obstacle.text(alloc) {
        Ok(text) => Stop::from(Refusal::Obstacle { text }),
        Err(_) => Stop::Memory,
    }
}

/// Adds the line of a step.
fn push_line(
    alloc: Global,
    text: &mut Blob,
    folder: &PathText,
    step: &PlanStep,
) -> Result<(), AllocError>
    ensures { OnOk result (text.new ≡ text.old ++ step_line folder.now step.now) }
{
    match step {
        PlanStep::Insert { path, options, .. } => {
            push_insert(alloc, text, folder, path, options.as_bytes())
        }
        PlanStep::Install { command, .. } => push_two(text, b"install ", command.as_bytes()),
        PlanStep::Builtin { name } => push_two(text, b"builtin ", name.as_bytes()),
    }
}

/// Adds the line of a module that is loaded, with its parameters if it has any.
fn push_insert(
    alloc: Global,
    text: &mut Blob,
    folder: &PathText,
    path: &PathText,
    options: &[u8],
) -> Result<(), AllocError>
    ensures { OnOk result (text.new ≡ text.old ++ insert_line folder.now path.now options.now) }
{
    let file = join(alloc, folder, path.as_bytes())?;
    text.extend(b"insmod ")?;
    text.extend(file.as_bytes())?;
    if !options.is_empty() {
        text.push(b' ')?;
        text.extend(options)?;
    }
    text.push(b'\n')
}

/// Adds a line of two parts.
fn push_two(text: &mut Blob, word: &[u8], rest: &[u8]) -> Result<(), AllocError>
    ensures { OnOk result (text.new ≡ text.old ++ (word.now ++ (rest.now ++ 10 ∷ []))) }
{
    text.extend(word)?;
    text.extend(rest)?;
    text.push(b'\n')
}
