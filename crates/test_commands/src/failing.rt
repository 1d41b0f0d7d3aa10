// Each call of a load fails in turn: what was printed and put before stays, and nothing else is
// done.
use outside_calls::CallKind;
use test_rows::{Failing, INDEXED, ImageRow, SYMVERS, SYSTEM_MAP, TWO, TreeRow, run_trees};

/// A load of `b` whose images are put.
const LOAD: &str = "modprobe -d /r -S 6.1.0 --system-map /r/System.map --symvers /r/Module.symvers \
     --image /r/img b";

/// What it writes before the loads.
const PLANNED: &str =
    "insmod /r/lib/modules/6.1.0/kernel/a.ko\ninsmod /r/lib/modules/6.1.0/kernel/b.ko\n";

/// What it writes before the load of `b`.
const A_LOADED: &str = "insmod /r/lib/modules/6.1.0/kernel/a.ko\n\
     insmod /r/lib/modules/6.1.0/kernel/b.ko\n\
     loaded a ffffffffc0000000 8192 \
     c6c95917cef2d89bf138a45b46ef4155f44b4dba3fdef5bd3e0dd145c1741227\n";

/// What it writes in all.
const BOTH_LOADED: &str = "insmod /r/lib/modules/6.1.0/kernel/a.ko\n\
     insmod /r/lib/modules/6.1.0/kernel/b.ko\n\
     loaded a ffffffffc0000000 8192 \
     c6c95917cef2d89bf138a45b46ef4155f44b4dba3fdef5bd3e0dd145c1741227\n\
     loaded b ffffffffc0002000 4096 \
     0a0ae56ba2cd70c076737e2ae47ebdd9a5154c842c849bb19266dcee8398c17b\n";

/// The image of `a`.
const A_IMAGE: ImageRow<'static> = ImageRow {
    path: "/r/img/a.img",
    length: 8192,
    pieces: &[(4096, b"\x00\x00\x00\x81\xff\xff\xff\xff")],
};

/// The image of `b`.
const B_IMAGE: ImageRow<'static> = ImageRow {
    path: "/r/img/b.img",
    length: 4096,
    pieces: &[(0, b"\x00\x00\x00\xc0\xff\xff\xff\xff")],
};

/// The tree, where no image is put.
const FAILS: TreeRow<'static> = TreeRow {
    name: "calls that fail",
    modules: TWO,
    files: &[SYMVERS, SYSTEM_MAP],
    ..INDEXED
};

/// The calls before the loads in their order, each counted from the first call of its kind, of
/// which some were depmod's.
static CALLS: [TreeRow<'static>; 13] = [
    TreeRow {
        failing: Failing::Call(CallKind::ListConf, 5),
        rows: &[(LOAD, 3, "", "kmod: file fault /etc/modprobe.d\n")],
        ..FAILS
    },
    TreeRow {
        failing: Failing::Call(CallKind::ListConf, 6),
        rows: &[(LOAD, 3, "", "kmod: file fault /run/modprobe.d\n")],
        ..FAILS
    },
    TreeRow {
        failing: Failing::Call(CallKind::ListConf, 7),
        rows: &[(LOAD, 3, "", "kmod: file fault /usr/local/lib/modprobe.d\n")],
        ..FAILS
    },
    TreeRow {
        failing: Failing::Call(CallKind::ListConf, 8),
        rows: &[(LOAD, 3, "", "kmod: file fault /usr/lib/modprobe.d\n")],
        ..FAILS
    },
    TreeRow {
        failing: Failing::Call(CallKind::ListConf, 9),
        rows: &[(LOAD, 3, "", "kmod: file fault /lib/modprobe.d\n")],
        ..FAILS
    },
    TreeRow {
        failing: Failing::Call(CallKind::Read, 5),
        rows: &[(
            LOAD,
            3,
            "",
            "kmod: file fault /r/lib/modules/6.1.0/modules.dep.bin\n",
        )],
        ..FAILS
    },
    TreeRow {
        failing: Failing::Call(CallKind::Read, 6),
        rows: &[(
            LOAD,
            3,
            "",
            "kmod: file fault /r/lib/modules/6.1.0/modules.alias.bin\n",
        )],
        ..FAILS
    },
    TreeRow {
        failing: Failing::Call(CallKind::Read, 7),
        rows: &[(
            LOAD,
            3,
            "",
            "kmod: file fault /r/lib/modules/6.1.0/modules.symbols.bin\n",
        )],
        ..FAILS
    },
    TreeRow {
        failing: Failing::Call(CallKind::Read, 8),
        rows: &[(
            LOAD,
            3,
            "",
            "kmod: file fault /r/lib/modules/6.1.0/modules.builtin.bin\n",
        )],
        ..FAILS
    },
    TreeRow {
        failing: Failing::Call(CallKind::Read, 9),
        rows: &[(
            LOAD,
            3,
            "",
            "kmod: file fault /r/lib/modules/6.1.0/modules.softdep\n",
        )],
        ..FAILS
    },
    TreeRow {
        failing: Failing::Call(CallKind::Read, 10),
        rows: &[(
            LOAD,
            3,
            "",
            "kmod: file fault /r/lib/modules/6.1.0/modules.unmet\n",
        )],
        ..FAILS
    },
    TreeRow {
        failing: Failing::Call(CallKind::Read, 11),
        rows: &[(LOAD, 3, "", "kmod: file fault /r/System.map\n")],
        ..FAILS
    },
    TreeRow {
        failing: Failing::Call(CallKind::Read, 12),
        rows: &[(LOAD, 3, "", "kmod: file fault /r/Module.symvers\n")],
        ..FAILS
    },
];

/// Returns these trees.
fn calls() -> &'static [TreeRow<'static>] {
    &CALLS
}

/// The calls of the loads, with what was written and put before. The last run of each kind has no
/// call of that number, and is done.
static LOADING: [TreeRow<'static>; 8] = [
    TreeRow {
        failing: Failing::Call(CallKind::Read, 13),
        rows: &[(
            LOAD,
            3,
            PLANNED,
            "kmod: file fault /r/lib/modules/6.1.0/kernel/a.ko\n",
        )],
        ..FAILS
    },
    TreeRow {
        failing: Failing::Call(CallKind::Replace, 9),
        rows: &[(LOAD, 3, PLANNED, "kmod: file fault /r/img/a.img\n")],
        ..FAILS
    },
    TreeRow {
        failing: Failing::Call(CallKind::Read, 14),
        rows: &[(
            LOAD,
            3,
            A_LOADED,
            "kmod: file fault /r/lib/modules/6.1.0/kernel/b.ko\n",
        )],
        images: &[A_IMAGE],
        ..FAILS
    },
    TreeRow {
        failing: Failing::Call(CallKind::Replace, 10),
        rows: &[(LOAD, 3, A_LOADED, "kmod: file fault /r/img/b.img\n")],
        images: &[A_IMAGE],
        ..FAILS
    },
    TreeRow {
        failing: Failing::Call(CallKind::ListConf, 10),
        rows: &[(LOAD, 0, BOTH_LOADED, "")],
        images: &[A_IMAGE, B_IMAGE],
        ..FAILS
    },
    TreeRow {
        failing: Failing::Call(CallKind::ListTree, 2),
        rows: &[(LOAD, 0, BOTH_LOADED, "")],
        images: &[A_IMAGE, B_IMAGE],
        ..FAILS
    },
    TreeRow {
        failing: Failing::Call(CallKind::Read, 15),
        rows: &[(LOAD, 0, BOTH_LOADED, "")],
        images: &[A_IMAGE, B_IMAGE],
        ..FAILS
    },
    TreeRow {
        failing: Failing::Call(CallKind::Replace, 11),
        rows: &[(LOAD, 0, BOTH_LOADED, "")],
        images: &[A_IMAGE, B_IMAGE],
        ..FAILS
    },
];

/// Returns these trees.
fn loading() -> &'static [TreeRow<'static>] {
    &LOADING
}

/// The writes to the output. The last run has no write of that number, and is done.
static WRITES: [TreeRow<'static>; 4] = [
    TreeRow {
        failing: Failing::Write(0),
        rows: &[(LOAD, 3, "", "kmod: output fault\n")],
        ..FAILS
    },
    TreeRow {
        failing: Failing::Write(1),
        rows: &[(LOAD, 3, PLANNED, "kmod: output fault\n")],
        images: &[A_IMAGE],
        ..FAILS
    },
    TreeRow {
        failing: Failing::Write(2),
        rows: &[(LOAD, 3, A_LOADED, "kmod: output fault\n")],
        images: &[A_IMAGE, B_IMAGE],
        ..FAILS
    },
    TreeRow {
        failing: Failing::Write(3),
        rows: &[(LOAD, 0, BOTH_LOADED, "")],
        images: &[A_IMAGE, B_IMAGE],
        ..FAILS
    },
];

/// Returns these trees.
fn writes() -> &'static [TreeRow<'static>] {
    &WRITES
}

#[test]
fn each_call_can_fail(rt: HostRuntime) {
    run_trees(rt.alloc(), calls()).expect(&rt, "calls that fail");
    run_trees(rt.alloc(), loading()).expect(&rt, "loads that fail");
    run_trees(rt.alloc(), writes()).expect(&rt, "writes that fail");
}
