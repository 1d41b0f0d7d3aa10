//! Modules that use one another, and modules that are taken out of the machine.
ghost use Rattle.std.specs.Prelude.{◌≡◌, ◌<◌, length};
ghost use Rattle.model_unload.specs.Unload.{first_user};

use crate::machine_calls::{load_a, load_b, machine};
use crate::same::{holds, shown};
use model_loader::Machine;
use model_unload::{UnloadFault, unload};
use std::alloc::Global;
use std::process::Abort;

/// Makes a machine with `a`, and with `b`, which needs it.
pub(crate) fn machine_of_two(rt: &impl Abort, alloc: Global) -> Machine {
    let mut machine = machine(rt, alloc, 0x3000);
    let _at = load_a(rt, alloc, &mut machine).expect(rt, "a place");
    let _at = load_b(rt, alloc, &mut machine).expect(rt, "a place");
    machine
}

/// Stops unless only `b` binds to `a`.
fn expect_bound(rt: &impl Abort, alloc: Global, machine: &Machine) {
    holds(rt, machine.module_count() == 2);
    let binds = (
        machine.binds(1, 0),
        machine.binds(0, 1),
        machine.binds(0, 0),
    );
    shown(rt, alloc, binds, "(true, false, false)");
}

fn users_are_known(rt: &impl Abort, alloc: Global) {
    let machine = machine_of_two(rt, alloc);
    expect_bound(rt, alloc, &machine);
    shown(rt, alloc, machine.uses(alloc), "Ok([[], [0]])");
    drop(machine);
}

/// Takes a module out by its name.
fn take_out(machine: &mut Machine, name: &[u8]) -> Result<(), UnloadFault> {
    unload(machine, name)
}

/// The machine after `b` was taken out: its module, and the image of `b`.
static ONLY_A: &str =
    r#"(LoadedModule { name: "a", base: 18446744072635809792, size: 8192 }, None)"#;

/// Stops unless only `a` is left.
fn expect_only_a(rt: &impl Abort, alloc: Global, machine: &Machine) {
    holds(rt, machine.module_count() == 1);
    let left = (machine.module_at(0), machine.image(b"b"));
    shown(rt, alloc, left, ONLY_A);
}

fn modules_are_taken_out_by_name(rt: &impl Abort, alloc: Global) {
    let mut machine = machine_of_two(rt, alloc);
    let a = take_out(&mut machine, b"a");
    let c = take_out(&mut machine, b"c");
    shown(
        rt,
        alloc,
        (a, c),
        "(Err(InUse { user: 1 }), Err(NotLoaded))",
    );
    holds(rt, machine.module_count() == 2);
    shown(rt, alloc, take_out(&mut machine, b"b"), "Ok(())");
    expect_only_a(rt, alloc, &machine);
    drop(machine);
}

/// Returns the place of the oldest module that binds to the one at the place.
fn first_user(machine: &Machine, j: usize) -> Option<usize>
    requires { j < length machine.now.entries }
    ensures { result ≡ first_user machine.now j }
{
    for k in 0..machine.module_count() {
        if machine.binds(k, j) {
            return Some(k);
        }
    }
    None
}

/// Takes out the module at the place. If modules bind to it, it stays, and the place of the oldest
/// of them is returned.
fn drop_unused(machine: &mut Machine, j: usize) -> Result<(), usize>
    requires { j < length machine.old.entries }
{
    if let Some(user) = first_user(machine, j) {
        return Err(user);
    }
    machine.drop_entry(j);
    Ok(())
}

/// Takes out `b`, and then `a`, which it used.
fn take_out_both(rt: &impl Abort, alloc: Global, machine: &mut Machine) {
    holds(rt, machine.module_count() == 2);
    shown(rt, alloc, drop_unused(machine, 0), "Err(1)");
    holds(rt, machine.module_count() == 2);
    shown(rt, alloc, drop_unused(machine, 1), "Ok(())");
    holds(rt, machine.module_count() == 1);
    shown(rt, alloc, drop_unused(machine, 0), "Ok(())");
    holds(rt, machine.module_count() == 0);
}

fn modules_are_taken_out_by_place(rt: &impl Abort, alloc: Global) {
    let mut machine = machine_of_two(rt, alloc);
    take_out_both(rt, alloc, &mut machine);
    drop(machine);
}

#[test]
fn users_of_modules_are_called(rt: HostRuntime) {
    users_are_known(&rt, rt.alloc());
    modules_are_taken_out_by_name(&rt, rt.alloc());
    modules_are_taken_out_by_place(&rt, rt.alloc());
}
