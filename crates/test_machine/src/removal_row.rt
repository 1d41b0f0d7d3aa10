//! Removals that are written out, and what they are to answer.
ghost use Rattle.std.specs.Prelude.{◌≤◌, length, All, IfOk};
ghost use Rattle.km_names.specs.Limit.{file_limit};

use crate::loaded::{ModuleRow, machine_of};
use km_names::{Blob, ConfFiles, Name, Names};
use model_loader::Machine;
use model_unload::{UnloadFault, unload};
use modprobe_conf::{Rules, parse};
use remove_plan::{RemoveFault, RemovePlan, RemoveStep, plan_removal};
use std::alloc::{AllocError, Global};
use std::process::Abort;
use test_objects::{RowFault, conf_file};

/// Modules that are loaded, the names of the modules that are to be removed, and what is expected.
/// That is the lines of the steps, and of the modules that are left after these were carried out;
/// or the fault.
#[derive(Clone, Copy)]
pub(crate) struct RemovalRow {
    pub(crate) modules: &'static [ModuleRow],
    pub(crate) names: &'static [&'static str],
    pub(crate) rules: &'static str,
    pub(crate) ignore_remove: bool,
    pub(crate) want: &'static str,
}

/// A removal of nothing.
pub(crate) const EMPTY: RemovalRow = RemovalRow {
    modules: &[],
    names: &[],
    rules: "",
    ignore_remove: false,
    want: "",
};

/// Returns a file of the configuration.
fn one_file(alloc: Global, text: &str) -> Result<ConfFiles, RowFault>
    ensures { IfOk result (λ files. All (λ file. length file.bytes ≤ file_limit) files) }
{
    let mut files = ConfFiles::new(alloc);
    files.push(conf_file(alloc, b"f", text.as_bytes())?)?;
    Ok(files)
}

/// Returns the rules of a text.
fn rules_of(rt: &impl Abort, alloc: Global, text: &str) -> Rules {
    let files = one_file(alloc, text).expect(rt, "a file");
    parse(alloc, &files).expect(rt, "rules that are understood")
}

/// Returns a list of names.
fn names_of(rt: &impl Abort, alloc: Global, names: &[&'static str]) -> Names {
    let mut list = Names::new(alloc);
    for name in names {
        let name = Name::from_slice(alloc, name.as_bytes()).expect(rt, "a name");
        list.push(name).expect(rt, "names");
    }
    list
}

/// Adds a line of a word and a text.
fn push_line(text: &mut Blob, word: &[u8], rest: &[u8]) -> Result<(), AllocError> {
    text.extend(word)?;
    text.extend(rest)?;
    text.push(b'\n')?;
    Ok(())
}

/// Adds the lines of the steps.
fn push_steps(text: &mut Blob, plan: &RemovePlan) -> Result<(), AllocError> {
    for step in plan.as_slice() {
        match step {
            RemoveStep::Rmmod { name } => push_line(text, b"rmmod ", name.as_bytes())?,
            RemoveStep::Command { command, .. } => {
                push_line(text, b"remove ", command.as_bytes())?;
            }
        }
    }
    Ok(())
}

/// Takes a module out. It promises nothing, so that no contract is carried along.
pub(crate) fn take_out(machine: &mut Machine, name: &[u8]) -> Result<(), UnloadFault> {
    unload(machine, name)
}

/// Takes the modules of the steps out of the machine. Returns whether that is all of the plan,
/// which then runs no command.
fn carry_out(rt: &impl Abort, machine: &mut Machine, plan: &RemovePlan) -> bool {
    for step in plan.as_slice() {
        match step {
            RemoveStep::Rmmod { name } => take_out(machine, name.as_bytes()).expect(
                rt,
                "a removal",
            ),
            RemoveStep::Command { .. } => return false,
        }
    }
    true
}

/// Adds the line of each module that the machine has, oldest first.
fn push_left(text: &mut Blob, machine: &Machine) -> Result<(), AllocError> {
    for i in 0..machine.module_count() {
        push_line(text, b"left ", machine.module_at(i).name.as_bytes())?;
    }
    Ok(())
}

/// Returns the lines of a plan, and of what is left after it.
fn lines_of(rt: &impl Abort, alloc: Global, machine: &mut Machine, plan: &RemovePlan) -> Blob {
    let mut text = Blob::new(alloc);
    push_steps(&mut text, plan).expect(rt, "steps");
    if carry_out(rt, machine, plan) {
        push_left(&mut text, machine).expect(rt, "what is left");
    }
    text
}

/// Returns the line of a fault.
fn fault_line(alloc: Global, fault: &RemoveFault) -> Result<Blob, AllocError> {
    let mut text = Blob::new(alloc);
    match fault {
        RemoveFault::InUse { name, user } => {
            text.extend(name.as_bytes())?;
            push_line(&mut text, b" is in use by ", user.as_bytes())?;
        }
        RemoveFault::Memory => push_line(&mut text, b"out of memory", b"")?,
    }
    Ok(text)
}

/// Plans a removal. It promises nothing.
fn planned(
    alloc: Global,
    names: &Names,
    ignore_remove: bool,
    rules: &Rules,
    machine: &Machine,
) -> Result<RemovePlan, RemoveFault> {
    plan_removal(alloc, names, ignore_remove, rules, machine)
}

/// Returns what a removal answers.
fn answer_of(
    rt: &impl Abort,
    alloc: Global,
    machine: &mut Machine,
    planned: &Result<RemovePlan, RemoveFault>,
) -> Blob {
    match planned {
        Ok(plan) => lines_of(rt, alloc, machine, plan),
        Err(fault) => fault_line(alloc, fault).expect(rt, "a line"),
    }
}

/// Expects a removal to answer as its row says.
fn expect_row(rt: &impl Abort, alloc: Global, row: &RemovalRow) {
    let mut machine = machine_of(rt, alloc, row.modules);
    let rules = rules_of(rt, alloc, row.rules);
    let names = names_of(rt, alloc, row.names);
    let planned = planned(alloc, &names, row.ignore_remove, &rules, &machine);
    let answer = answer_of(rt, alloc, &mut machine, &planned);
    assert_eq!(rt; answer.as_bytes(), row.want.as_bytes());
}

/// Expects each removal to answer as its row says.
pub(crate) fn expect_rows(rt: &impl Abort, alloc: Global, rows: &[RemovalRow]) {
    for row in rows {
        expect_row(rt, alloc, row);
    }
}
