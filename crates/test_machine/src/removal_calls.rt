//! What a removal takes out of a machine.
ghost use Rattle.std.specs.Prelude.{◌≤◌, length, All, IfOk};
ghost use Rattle.km_names.specs.Limit.{file_limit};

use crate::same::shown;
use crate::user_calls::machine_of_two;
use km_names::{ConfFiles, Name, Names};
use model_loader::Machine;
use modprobe_conf::{Rules, parse};
use remove_plan::{RemoveFault, RemovePlan, plan_removal};
use std::alloc::Global;
use std::process::Abort;
use test_objects::{RowFault, conf_file};

/// Makes a configuration of one file.
fn one_file(alloc: Global, text: &[u8]) -> Result<ConfFiles, RowFault>
    ensures { IfOk result (λ files. All (λ file. length file.bytes ≤ file_limit) files) }
{
    let mut files = ConfFiles::new(alloc);
    files.push(conf_file(alloc, b"/e/a.conf", text)?)?;
    Ok(files)
}

/// Reads the rules of a configuration of one file.
fn rules_of(rt: &impl Abort, alloc: Global, text: &[u8]) -> Rules {
    let files = one_file(alloc, text).expect(rt, "a file");
    parse(alloc, &files).expect(rt, "rules")
}

/// Returns the list of one name.
fn one_name(rt: &impl Abort, alloc: Global, text: &[u8]) -> Names {
    let mut list = Names::new(alloc);
    let name = Name::from_slice(alloc, text).expect(rt, "a name");
    list.push(name).expect(rt, "names");
    list
}

/// Plans the removal of a module.
fn removal(
    rt: &impl Abort,
    alloc: Global,
    name: &[u8],
    ignore_remove: bool,
    rules: &Rules,
    machine: &Machine,
) -> Result<RemovePlan, RemoveFault> {
    let asked = one_name(rt, alloc, name);
    plan_removal(alloc, &asked, ignore_remove, rules, machine)
}

/// Modules that are to be removed, whether their commands are ignored, and the steps. `a` is in
/// use.
static REMOVALS: [(&[u8], bool, &str); 3] = [
    (
        b"b",
        true,
        r#"Ok(List { elements: [Rmmod { name: "b" }, Rmmod { name: "a" }] })"#,
    ),
    (
        b"b",
        false,
        "Ok(List { elements: [Command { name: \"b\", command: \"/bin/true\" }, \
            Rmmod { name: \"a\" }] })",
    ),
    (b"a", false, r#"Err(InUse { name: "a", user: "b" })"#),
];

/// Plans removals from a machine with `a`, and with `b`, which needs it.
fn removals_are_planned(rt: &impl Abort, alloc: Global) {
    let machine = machine_of_two(rt, alloc);
    let rules = rules_of(rt, alloc, b"remove b /bin/true\n");
    for (name, ignore_remove, want) in &REMOVALS {
        let plan = removal(rt, alloc, name, *ignore_remove, &rules, &machine);
        shown(rt, alloc, plan, want);
    }
    drop(machine);
}

#[test]
fn removals_are_called(rt: HostRuntime) {
    removals_are_planned(&rt, rt.alloc());
}
