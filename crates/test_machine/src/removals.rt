//! Removals from machines of a few modules.

use crate::loaded::{BASE, ModuleRow, load, machine_of, module_of};
use crate::removal_row::{EMPTY, RemovalRow, expect_rows, take_out};
use model_loader::Machine;
use model_unload::UnloadFault;
use std::alloc::Global;
use std::process::Abort;
use test_objects::{EMPTY_SHEET, ExportRow, GIVES, MAY_NEED, NEEDS, NOTHING, NeedRow, SheetRow};

/// A module that exports `fb` and needs `fa`.
const PASSES_ON: SheetRow = SheetRow {
    exports: &[ExportRow {
        name: b"fb",
        crc: None,
    }],
    needs: &[NeedRow {
        name: b"fa",
        weak: false,
    }],
    ..EMPTY_SHEET
};

/// A module that needs `fb`.
const NEEDS_FB: SheetRow = SheetRow {
    needs: &[NeedRow {
        name: b"fb",
        weak: false,
    }],
    ..EMPTY_SHEET
};

/// `b` needs what `a` exports; `c` has nothing to do with them.
const THREE: &[ModuleRow] = &[
    ("kernel/c.ko", &NOTHING),
    ("kernel/a.ko", &GIVES),
    ("kernel/b.ko", &NEEDS),
];

/// `b` and `c` use `a`, which `c` needs weakly.
const TWO_USERS: &[ModuleRow] = &[
    ("kernel/a.ko", &GIVES),
    ("kernel/b.ko", &NEEDS),
    ("kernel/c.ko", &MAY_NEED),
];

/// `b` uses `a`, and `c` uses `b`. A module that needs `fa` weakly came before `a`, and isn't bound
/// to it.
const CHAIN: &[ModuleRow] = &[
    ("kernel/early.ko", &MAY_NEED),
    ("kernel/a.ko", &GIVES),
    ("kernel/b.ko", &PASSES_ON),
    ("kernel/c.ko", &NEEDS_FB),
];

/// Removals without commands.
static REMOVALS: [RemovalRow; 13] = [
    RemovalRow {
        modules: THREE,
        names: &["b"],
        want: "rmmod b\nrmmod a\nleft c\n",
        ..EMPTY
    },
    RemovalRow {
        modules: THREE,
        names: &["a"],
        want: "a is in use by b\n",
        ..EMPTY
    },
    // The names are in any order, some twice, and one isn't loaded.
    RemovalRow {
        modules: THREE,
        names: &["a", "b", "x", "b"],
        want: "rmmod b\nrmmod a\nleft c\n",
        ..EMPTY
    },
    // A module that is asked for needn't be used by another.
    RemovalRow {
        modules: THREE,
        names: &["c"],
        want: "rmmod c\nleft a\nleft b\n",
        ..EMPTY
    },
    RemovalRow {
        modules: THREE,
        names: &["c", "b"],
        want: "rmmod b\nrmmod a\nrmmod c\n",
        ..EMPTY
    },
    RemovalRow {
        modules: THREE,
        names: &["x"],
        want: "left c\nleft a\nleft b\n",
        ..EMPTY
    },
    RemovalRow {
        modules: &[],
        names: &["b"],
        ..EMPTY
    },
    // What two use is removed only with both.
    RemovalRow {
        modules: TWO_USERS,
        names: &["b"],
        want: "rmmod b\nleft a\nleft c\n",
        ..EMPTY
    },
    RemovalRow {
        modules: TWO_USERS,
        names: &["b", "c"],
        want: "rmmod c\nrmmod b\nrmmod a\n",
        ..EMPTY
    },
    RemovalRow {
        modules: TWO_USERS,
        names: &["a"],
        want: "a is in use by b\n",
        ..EMPTY
    },
    RemovalRow {
        modules: TWO_USERS,
        names: &["a", "b"],
        want: "a is in use by c\n",
        ..EMPTY
    },
    // A chain.
    RemovalRow {
        modules: CHAIN,
        names: &["c"],
        want: "rmmod c\nrmmod b\nrmmod a\nleft early\n",
        ..EMPTY
    },
    RemovalRow {
        modules: CHAIN,
        names: &["b", "a"],
        want: "b is in use by c\n",
        ..EMPTY
    },
];

/// A machine of two modules, with commands for removing both, one of them twice.
const COMMANDED: RemovalRow = RemovalRow {
    modules: THREE,
    names: &["b"],
    rules: "remove a /bin/true\nremove b /bin/false\nremove a x\ninstall c y\n",
    ..EMPTY
};

/// Removals with commands.
static COMMANDS: [RemovalRow; 4] = [
    RemovalRow {
        want: "remove /bin/false\nremove /bin/true\n",
        ..COMMANDED
    },
    // The commands of what is asked for are ignored.
    RemovalRow {
        ignore_remove: true,
        want: "rmmod b\nremove /bin/true\n",
        ..COMMANDED
    },
    RemovalRow {
        names: &["b", "a"],
        ignore_remove: true,
        want: "rmmod b\nrmmod a\nleft c\n",
        ..COMMANDED
    },
    RemovalRow {
        names: &["c"],
        want: "rmmod c\nleft a\nleft b\n",
        ..COMMANDED
    },
];

#[test]
fn removals_answer_as_their_rows(rt: HostRuntime) {
    expect_rows(&rt, rt.alloc(), &REMOVALS);
    expect_rows(&rt, rt.alloc(), &COMMANDS);
}

fn same_answer(rt: &impl Abort, got: Result<(), UnloadFault>, want: Result<(), UnloadFault>) {
    assert_eq!(rt; got, want);
}

/// Takes out `b` and then `a`, which it used.
fn take_out_both(rt: &impl Abort, machine: &mut Machine) {
    same_answer(rt, take_out(machine, b"x"), Err(UnloadFault::NotLoaded));
    let used = UnloadFault::InUse { user: 2 };
    same_answer(rt, take_out(machine, b"a"), Err(used));
    same_answer(rt, take_out(machine, b"b"), Ok(()));
    same_answer(rt, take_out(machine, b"a"), Ok(()));
    assert!(rt; machine.module_count() == 1);
}

/// Loads `a`, and returns where it lies.
fn load_a(rt: &impl Abort, alloc: Global, machine: &mut Machine) -> (u64, u64) {
    let at = load(rt, machine, &module_of(rt, alloc, "kernel/a.ko", &GIVES));
    (at.base, at.size)
}

/// Expects a machine without what was taken out to take it in again, at the same place.
#[test]
fn modules_are_taken_out(rt: HostRuntime) {
    let alloc = rt.alloc();
    let mut machine = machine_of(&rt, alloc, THREE);
    take_out_both(&rt, &mut machine);
    let (base, size) = load_a(&rt, alloc, &mut machine);
    assert!(rt; base == BASE + 0x1000 && size == 0x2000);
}
