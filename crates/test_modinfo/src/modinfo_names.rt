// Modules that are shown by their names.
use outside_calls::CallKind;
use test_objects::{EMPTY_SHEET, NO_MORE, SheetRow};
use test_rows::{Failing, FileRow, PLAIN, Row, TreeRow, run_tree, run_trees};

/// A modules.dep.bin: `a` with the line `kernel/a.ko:`, and `b` with `kernel/b.ko: kernel/a.ko`.
const TWO_NAMES: &[u8] = b"\xb0\x07\xf4\x57\x00\x02\x00\x01\x20\x00\x00\x42\
    \x00\x00\x00\x01\x00\x00\x00\x00kernel/a.ko:\0\
    \x00\x00\x00\x01\x00\x00\x00\x01kernel/b.ko: kernel/a.ko\0\
    ab\x40\x00\x00\x0c\x40\x00\x00\x21";

/// An index of `a` with the text `x`.
const NO_LINE: &[u8] = b"\xb0\x07\xf4\x57\x00\x02\x00\x01\x20\x00\x00\x16\
    \x00\x00\x00\x01\x00\x00\x00\x00x\0\
    aa\x40\x00\x00\x0c";

/// An index of `a` with the line of a compressed module.
const COMPRESSED: &[u8] = b"\xb0\x07\xf4\x57\x00\x02\x00\x01\x20\x00\x00\x1d\
    \x00\x00\x00\x01\x00\x00\x00\x00k.ko.xz:\0\
    aa\x40\x00\x00\x0c";

/// A child after the node that leads to it.
pub(crate) const FORWARD_CHILD: &[u8] = b"\xb0\x07\xf4\x57\x00\x02\x00\x01\x20\x00\x00\x0c\
    aa\x40\x00\x00\x12\
    \x00\x00\x00\x01\x00\x00\x00\x00x\0";

/// A node to which two bytes lead.
pub(crate) const REACHED_TWICE: &[u8] = b"\xb0\x07\xf4\x57\x00\x02\x00\x01\x20\x00\x00\x16\
    \x00\x00\x00\x01\x00\x00\x00\x00x\0\
    ab\x40\x00\x00\x0c\x40\x00\x00\x0c";

/// A value without its NUL.
pub(crate) const CUT_VALUE: &[u8] =
    b"\xb0\x07\xf4\x57\x00\x02\x00\x01\x40\x00\x00\x0c\x00\x00\x00\x01\x00\x00\x00\x00x";

/// What is shown of modules by their names.
const BY_NAME: &[Row] = &[
    (
        "modinfo -l -k 6.1.0 -b /r nosuch",
        1,
        "",
        "kmod: not found nosuch\n",
    ),
    (
        "modinfo -k 6.1.0 -b /r a",
        0,
        "filename:       /r/lib/modules/6.1.0/kernel/a.ko\nlicense:        GPL\n",
        "",
    ),
    ("modinfo -lk6.1.0 a --basedir=/r//", 0, "GPL\n", ""),
    (
        "modinfo -n --set-version 6.1.0 -b/r a a",
        0,
        "/r/lib/modules/6.1.0/kernel/a.ko\n/r/lib/modules/6.1.0/kernel/a.ko\n",
        "",
    ),
    (
        "modinfo -l -k 6.1.0 -b /r a no-such b",
        1,
        "GPL\n",
        "kmod: not found no_such\n",
    ),
    (
        "modinfo -l -k 6.1.0 -b /r b",
        1,
        "",
        "kmod: no file /r/lib/modules/6.1.0/kernel/b.ko\n",
    ),
    (
        "modinfo -k 6.1.0 -b /r kernel/a.ko",
        1,
        "",
        "kmod: not found kernel/a.ko\n",
    ),
    (
        "modinfo -k 6.1.0 a",
        1,
        "",
        "kmod: no file /lib/modules/6.1.0/modules.dep.bin\n",
    ),
    (
        "modinfo -k 6.1.0 -b / a",
        1,
        "",
        "kmod: no file /lib/modules/6.1.0/modules.dep.bin\n",
    ),
    (
        "modinfo -k 6.2.0 -b /r a",
        1,
        "",
        "kmod: no file /r/lib/modules/6.2.0/modules.dep.bin\n",
    ),
];

/// A module with a license.
const LICENSED: SheetRow = SheetRow {
    texts: &[b"license=GPL"],
    ..EMPTY_SHEET
};

/// A kernel of the version 6.1.0 below `/r` that has the module `a`.
const A_ALONE: TreeRow<'static> = TreeRow {
    modules: &[("kernel/a.ko", &LICENSED, &NO_MORE)],
    ..PLAIN
};

/// The same with an index of two names.
const NAMED: TreeRow<'static> = TreeRow {
    files: &[FileRow {
        path: "/r/lib/modules/6.1.0/modules.dep.bin",
        bytes: TWO_NAMES,
    }],
    ..A_ALONE
};

/// That kernel, and what is shown.
static SHOWN: TreeRow<'static> = TreeRow {
    rows: BY_NAME,
    ..NAMED
};

/// Returns that tree.
fn shown() -> &'static TreeRow<'static> {
    &SHOWN
}

/// Indexes in place of modules.dep.bin, with which `a` can't be shown.
static REFUSED: [TreeRow<'static>; 5] = [
    TreeRow {
        files: &[FileRow {
            path: "/r/lib/modules/6.1.0/modules.dep.bin",
            bytes: NO_LINE,
        }],
        rows: &[("modinfo -k 6.1.0 -b /r a", 1, "", "kmod: not found a\n")],
        ..A_ALONE
    },
    TreeRow {
        files: &[FileRow {
            path: "/r/lib/modules/6.1.0/modules.dep.bin",
            bytes: COMPRESSED,
        }],
        rows: &[(
            "modinfo -k 6.1.0 -b /r a",
            1,
            "",
            "kmod: /r/lib/modules/6.1.0/k.ko.xz: compressed\n",
        )],
        ..A_ALONE
    },
    TreeRow {
        files: &[FileRow {
            path: "/r/lib/modules/6.1.0/modules.dep.bin",
            bytes: FORWARD_CHILD,
        }],
        rows: &[(
            "modinfo -k 6.1.0 -b /r a",
            1,
            "",
            "kmod: /r/lib/modules/6.1.0/modules.dep.bin: bad index node at 18\n",
        )],
        ..A_ALONE
    },
    TreeRow {
        files: &[FileRow {
            path: "/r/lib/modules/6.1.0/modules.dep.bin",
            bytes: REACHED_TWICE,
        }],
        rows: &[(
            "modinfo -k 6.1.0 -b /r a",
            1,
            "",
            "kmod: /r/lib/modules/6.1.0/modules.dep.bin: index node twice at 12\n",
        )],
        ..A_ALONE
    },
    TreeRow {
        files: &[FileRow {
            path: "/r/lib/modules/6.1.0/modules.dep.bin",
            bytes: CUT_VALUE,
        }],
        rows: &[(
            "modinfo -k 6.1.0 -b /r a",
            1,
            "",
            "kmod: /r/lib/modules/6.1.0/modules.dep.bin: bad index node at 12\n",
        )],
        ..A_ALONE
    },
];

/// Returns these trees.
fn refused() -> &'static [TreeRow<'static>] {
    &REFUSED
}

/// Reads that fail in turn, with what is printed before: the index is read once, and first.
static FAILING: [TreeRow<'static>; 3] = [
    TreeRow {
        failing: Failing::Call(CallKind::Read, 0),
        rows: &[(
            "modinfo -l -k 6.1.0 -b /r a a",
            3,
            "",
            "kmod: file fault /r/lib/modules/6.1.0/modules.dep.bin\n",
        )],
        ..NAMED
    },
    TreeRow {
        failing: Failing::Call(CallKind::Read, 1),
        rows: &[(
            "modinfo -l -k 6.1.0 -b /r a a",
            3,
            "",
            "kmod: file fault /r/lib/modules/6.1.0/kernel/a.ko\n",
        )],
        ..NAMED
    },
    TreeRow {
        failing: Failing::Call(CallKind::Read, 2),
        rows: &[(
            "modinfo -l -k 6.1.0 -b /r a a",
            3,
            "GPL\n",
            "kmod: file fault /r/lib/modules/6.1.0/kernel/a.ko\n",
        )],
        ..NAMED
    },
];

/// Returns these trees.
fn failing() -> &'static [TreeRow<'static>] {
    &FAILING
}

#[test]
fn modules_are_shown_by_their_names(rt: HostRuntime) {
    let alloc = rt.alloc();
    run_tree(alloc, shown()).expect(&rt, "modules by their names");
    run_trees(alloc, refused()).expect(&rt, "refused indexes");
    run_trees(alloc, failing()).expect(&rt, "reads that fail");
}
