//! A load and removals, in which an allocation may be refused.

use crate::machines::{BASE, expect_shown, load, machine_of, module_of, shown};
use crate::same::{holds, same};
use model_loader::{LoadFault, LoadedAt, Machine};
use model_unload::{UnloadFault, unload};
use module_facts::Module;
use std::alloc::Global;
use std::process::Abort;
use test_objects::{GIVES, NEEDS, SheetRow, object_of};

/// Reads the module of a sheet at a path.
fn read_once(rt: &impl Abort, alloc: Global, path: &[u8], row: &SheetRow) -> Option<Module> {
    let bytes = object_of(alloc, row).ok()?;
    module_of(rt, alloc, path, bytes)
}

/// Reads the module of a sheet at a path. One allocation of it may be refused.
fn read(rt: &impl Abort, alloc: Global, path: &[u8], row: &SheetRow) -> Module {
    match read_once(rt, alloc, path, row) {
        Some(module) => module,
        None => read_once(rt, alloc, path, row).expect(rt, "a module"),
    }
}

/// Makes a machine with `a`. One allocation of it may be refused.
fn machine_with_a(rt: &impl Abort, alloc: Global) -> Machine {
    let a = read(rt, alloc, b"kernel/a.ko", &GIVES);
    let machine = machine_of(rt, alloc, &a);
    drop(a);
    machine
}

/// Reads `b`, which needs `a`. One allocation of it may be refused.
fn module_b(rt: &impl Abort, alloc: Global) -> Module {
    read(rt, alloc, b"kernel/b.ko", &NEEDS)
}

/// Stops unless a load is out of memory.
fn expect_memory(rt: &impl Abort, fault: &LoadFault) {
    holds(rt, matches!(fault, LoadFault::Memory));
}

/// Loads a module. If that is out of memory, the machine is as it was before, and the module is
/// loaded then.
fn loaded(
    rt: &impl Abort,
    alloc: Global,
    machine: &mut Machine,
    module: &Module,
    before: &[u8],
) -> LoadedAt {
    match load(machine, module) {
        Ok(at) => at,
        Err(fault) => {
            expect_memory(rt, &fault);
            expect_shown(rt, alloc, machine, before);
            load(machine, module).expect(rt, "a load")
        }
    }
}

fn a_load_changes_nothing_if_refused(
    rt: &impl Abort,
    alloc: Global,
    machine: &mut Machine,
    b: &Module,
) {
    let before = shown(rt, alloc, machine);
    let at = loaded(rt, alloc, machine, b, before.as_slice());
    holds(rt, at.base == BASE + 0x2000 && at.size == 0x1000);
    let after = shown(rt, alloc, machine);
    expect_only_b_more(rt, before.as_slice(), after.as_slice());
}

#[test]
fn a_refused_load_changes_nothing(rt: HostRuntime) {
    let mut machine = machine_with_a(&rt, rt.alloc());
    let b = module_b(&rt, rt.alloc());
    a_load_changes_nothing_if_refused(&rt, rt.alloc(), &mut machine, &b);
    drop(b);
    drop(machine);
}

/// Stops unless what is seen afterwards is what was seen before, and then `b`.
fn expect_only_b_more(rt: &impl Abort, before: &[u8], after: &[u8]) {
    holds(rt, before.len() <= after.len());
    let (first, rest) = after.split_at(before.len());
    same(rt, first, before);
    expect_b(rt, rest);
}

/// Stops unless this is what can be seen of `b`.
fn expect_b(rt: &impl Abort, seen: &[u8]) {
    holds(rt, seen.len() == 17 + 0x1000);
    same(rt, &seen[..9], b"b\0\x20\0\xc0\xff\xff\xff\xff");
    same(rt, &seen[17..25], b"\0\0\0\xc0\xff\xff\xff\xff");
}

/// Takes a module out. It promises nothing, so that no contract is carried along.
fn take_out(machine: &mut Machine, name: &[u8]) -> Result<(), UnloadFault> {
    unload(machine, name)
}

fn modules_are_taken_out(rt: &impl Abort, alloc: Global, machine: &mut Machine, b: &Module) {
    let with_a = shown(rt, alloc, machine);
    loaded(rt, alloc, machine, b, with_a.as_slice());
    take_out_both(rt, alloc, machine, with_a.as_slice());
}

/// Takes `b` out, and then `a`.
fn take_out_both(rt: &impl Abort, alloc: Global, machine: &mut Machine, with_a: &[u8]) {
    let with_both = shown(rt, alloc, machine);
    expect_refused(rt, machine);
    expect_shown(rt, alloc, machine, with_both.as_slice());
    holds(rt, take_out(machine, b"b").is_ok());
    expect_shown(rt, alloc, machine, with_a);
    holds(rt, take_out(machine, b"a").is_ok());
    holds(rt, machine.module_count() == 0);
}

#[test]
fn removals_want_no_memory(rt: HostRuntime) {
    let mut machine = machine_with_a(&rt, rt.alloc());
    let b = module_b(&rt, rt.alloc());
    modules_are_taken_out(&rt, rt.alloc(), &mut machine, &b);
    drop(b);
    drop(machine);
}

/// Stops unless `a` stays, which `b` uses, and no module `c` is known.
fn expect_refused(rt: &impl Abort, machine: &mut Machine) {
    let used = UnloadFault::InUse { user: 1 };
    holds(rt, take_out(machine, b"a") == Err(used));
    let unknown = UnloadFault::NotLoaded;
    holds(rt, take_out(machine, b"c") == Err(unknown));
}
