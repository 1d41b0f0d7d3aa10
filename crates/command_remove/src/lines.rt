// The lines of a removal.
ghost use Rattle.std.specs.Prelude.{◌≡◌, ◌<◌, ◌++◌, IfOk, OnOk, Some, length, slice_get};
ghost use Rattle.model_loader.specs.declared.entry.Entry.{Entry};
ghost use Rattle.command_remove.specs.Lines.{left_line, left_lines, line_of_two, step_line};
ghost use Rattle.command_remove.specs.Lines.{step_lines};

use km_names::Blob;
use model_loader::Machine;
use remove_plan::{RemovePlan, RemoveStep};
use stages_loads::entry_line;
use std::alloc::{AllocError, Global};

/// Returns the lines of steps, a line for each.
pub(crate) fn step_lines(alloc: Global, steps: &RemovePlan) -> Result<Blob, AllocError>
    ensures { IfOk result (λ text. text ≡ step_lines steps.now) }
{
    let mut text = Blob::new(alloc);
    for step in steps.as_slice() {
        push_step(&mut text, step)?;
    }
    Ok(text)
}

/// Puts a line of two parts at the end.
pub(crate) fn push_two(text: &mut Blob, word: &[u8], rest: &[u8]) -> Result<(), AllocError>
    ensures { OnOk result (text.new ≡ text.old ++ line_of_two word.now rest.now) }
{
    text.extend(word)?;
    text.extend(rest)?;
    text.push(b'\n')
}

/// Returns a line for each module of a machine, the oldest first.
pub(crate) fn left_lines(alloc: Global, machine: &Machine) -> Result<Blob, AllocError>
    ensures { IfOk result (λ text. text ≡ left_lines machine.now.entries) }
{
    let mut text = Blob::new(alloc);
    for i in 0..machine.module_count() {
        let line = left_line(alloc, machine, i)?;
        text.extend(line.as_bytes())?;
    }
    Ok(text)
}

/// Puts the line of a step at the end.
fn push_step(text: &mut Blob, step: &RemoveStep) -> Result<(), AllocError>
    ensures { OnOk result (text.new ≡ text.old ++ step_line step.now) }
{
    match step {
        RemoveStep::Rmmod { name } => push_two(text, b"rmmod ", name.as_bytes()),
        RemoveStep::Command { command, .. } => push_two(text, b"remove ", command.as_bytes()),
    }
}

/// Returns the line of the module that was loaded `i`-th.
fn left_line(alloc: Global, machine: &Machine, i: usize) -> Result<Blob, AllocError>
    requires { i < length machine.now.entries }
    ensures { IfOk result
        (λ line. (e : Entry) → slice_get machine.now.entries i ≡ Some e → line ≡ left_line e) }
{
    entry_line(alloc, b"left", machine.module_at(i), machine.image_at(i))
}
