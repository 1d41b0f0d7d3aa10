// What the two commands answer over the files that a depmod left, and over bad ones.
use crate::extra_trees::{ONE_NODE, TTY, TWO_BUILT_IN, TWO_NODES};
use test_rows::{
    EXTRA, Failing, FileRow, INDEXED, PLAIN, RowOf, SYMVERS, TreeRow, USAGE, run_trees,
};

/// Lookups over a module with a device node, and a built-in one with an alias.
const ONE: &[RowOf<'static>] = &[
    ("builtin-alias -d /r -S 6.1.0 tty-x", 0, "tty\n", ""),
    ("builtin-alias -S6.1.0 -d/r// tty_", 0, "tty\n", ""),
    (
        "builtin-alias -d /r -S 6.1.0 usb",
        1,
        "",
        "kmod: not found usb\n",
    ),
    (
        "builtin-alias -d /r -S 6.1.0 a-b",
        1,
        "",
        "kmod: not found a_b\n",
    ),
    // A name without a normal form.
    (
        "builtin-alias -d /r -S 6.1.0 tty-[",
        1,
        "",
        "kmod: not found tty-[\n",
    ),
    (
        "builtin-alias -S 6.1.0 tty-x",
        1,
        "",
        "kmod: no file /lib/modules/6.1.0/modules.builtin.alias.bin\n",
    ),
    ("builtin-alias -d /r tty-x", 2, "", USAGE),
    ("builtin-alias -d /r -S 6.1.0", 2, "", USAGE),
    ("builtin-alias -d /r -S 6.1.0 a b", 2, "", USAGE),
    ("builtin-alias --dirname /r -S 6.1.0 tty-x", 2, "", USAGE),
    (
        "static-nodes -d /r -S 6.1.0 --format devname",
        0,
        "fuse fuse c10:229\n",
        "",
    ),
    (
        "static-nodes -f devname -S 6.1.0 -d /r",
        0,
        "fuse fuse c10:229\n",
        "",
    ),
    (
        "static-nodes --format=devname -S 6.1.0",
        1,
        "",
        "kmod: no file /lib/modules/6.1.0/modules.devname\n",
    ),
    ("static-nodes -d /r -S 6.1.0", 2, "", USAGE),
    ("static-nodes -d /r -S 6.1.0 -f human", 2, "", USAGE),
    ("static-nodes -d /r -f devname", 2, "", USAGE),
    ("static-nodes -d /r -S 6.1.0 -f devname x", 2, "", USAGE),
    (
        "static-nodes -d /r --set-version 6.1.0 -f devname",
        2,
        "",
        USAGE,
    ),
];

/// Lookups over two modules with device nodes, and two built-in ones.
const TWO: &[RowOf<'static>] = &[
    // Each module once, in the order in which they are first seen.
    ("builtin-alias -d /r -S 6.1.0 mm", 0, "snd_b\na\n", ""),
    ("builtin-alias -d /r -S 6.1.0 x", 0, "a\n", ""),
    (
        "static-nodes -d /r -S 6.1.0 -f devname",
        0,
        "loop loop-control b7:0\nfuse fuse c10:229\n",
        "",
    ),
];

/// Indexes that are refused.
static BAD_INDEXES: [TreeRow<'static>; 2] = [
    TreeRow {
        files: &[FileRow {
            path: "/r/lib/modules/6.1.0/modules.builtin.alias.bin",
            bytes: b"",
        }],
        rows: &[(
            "builtin-alias -d /r -S 6.1.0 tty-x",
            1,
            "",
            "kmod: /r/lib/modules/6.1.0/modules.builtin.alias.bin: bad index magic\n",
        )],
        ..PLAIN
    },
    TreeRow {
        files: &[FileRow {
            path: "/r/lib/modules/6.1.0/modules.builtin.alias.bin",
            bytes: b"\xb0\x07\xf4\x57\x00\x02\x00\x01\x20\x00\x00\x0c\
          aa\x40\x00\x00\x12\
          \x00\x00\x00\x01\x00\x00\x00\x00x\0",
        }],
        rows: &[(
            "builtin-alias -d /r -S 6.1.0 tty-x",
            1,
            "",
            "kmod: /r/lib/modules/6.1.0/modules.builtin.alias.bin: bad index node at 18\n",
        )],
        ..PLAIN
    },
];

/// Returns these trees.
fn bad_indexes() -> &'static [TreeRow<'static>] {
    &BAD_INDEXES
}

/// Words that print the nodes of a modules.devname.
const PRINT: &str = "static-nodes -d /r -S 6.1.0 -f devname";

/// Texts of modules.devname, with what is printed, or the line on err if one of them is bad. The
/// last can't be printed.
static NODE_TEXTS: [TreeRow<'static>; 8] = [
    TreeRow {
        files: &[FileRow {
            path: "/r/lib/modules/6.1.0/modules.devname",
            bytes: b"",
        }],
        rows: &[(PRINT, 0, "", "")],
        ..PLAIN
    },
    TreeRow {
        files: &[FileRow {
            path: "/r/lib/modules/6.1.0/modules.devname",
            bytes: b"# x\n\n  \nfuse fuse c10:229",
        }],
        rows: &[(PRINT, 0, "fuse fuse c10:229\n", "")],
        ..PLAIN
    },
    TreeRow {
        files: &[FileRow {
            path: "/r/lib/modules/6.1.0/modules.devname",
            bytes: b"fuse fuse c10:229\nfuse  fuse c10:229\n",
        }],
        rows: &[(
            PRINT,
            1,
            "",
            "kmod: /r/lib/modules/6.1.0/modules.devname: bad line 2\n",
        )],
        ..PLAIN
    },
    TreeRow {
        files: &[FileRow {
            path: "/r/lib/modules/6.1.0/modules.devname",
            bytes: b"# x\nfuse fuse d10:229\n",
        }],
        rows: &[(
            PRINT,
            1,
            "",
            "kmod: /r/lib/modules/6.1.0/modules.devname: bad line 2\n",
        )],
        ..PLAIN
    },
    TreeRow {
        files: &[FileRow {
            path: "/r/lib/modules/6.1.0/modules.devname",
            bytes: b"fuse fuse c010:229\n",
        }],
        rows: &[(
            PRINT,
            1,
            "",
            "kmod: /r/lib/modules/6.1.0/modules.devname: bad line 1\n",
        )],
        ..PLAIN
    },
    TreeRow {
        files: &[FileRow {
            path: "/r/lib/modules/6.1.0/modules.devname",
            bytes: b"fuse fuse c10:4294967296\n",
        }],
        rows: &[(
            PRINT,
            1,
            "",
            "kmod: /r/lib/modules/6.1.0/modules.devname: bad line 1\n",
        )],
        ..PLAIN
    },
    TreeRow {
        files: &[FileRow {
            path: "/r/lib/modules/6.1.0/modules.devname",
            bytes: b"fuse fuse c10-229\n",
        }],
        rows: &[(
            PRINT,
            1,
            "",
            "kmod: /r/lib/modules/6.1.0/modules.devname: bad line 1\n",
        )],
        ..PLAIN
    },
    TreeRow {
        files: &[FileRow {
            path: "/r/lib/modules/6.1.0/modules.devname",
            bytes: b"fuse fuse c10:229\n",
        }],
        failing: Failing::Write(0),
        rows: &[(PRINT, 3, "", "kmod: output fault\n")],
        ..PLAIN
    },
];

/// Returns these trees.
fn node_texts() -> &'static [TreeRow<'static>] {
    &NODE_TEXTS
}

/// The trees of these lookups.
static TREES: [TreeRow<'static>; 2] = [
    TreeRow {
        modules: ONE_NODE,
        files: &[SYMVERS, TTY],
        first: EXTRA,
        rows: ONE,
        ..INDEXED
    },
    TreeRow {
        modules: TWO_NODES,
        files: &[SYMVERS, TWO_BUILT_IN],
        first: EXTRA,
        rows: TWO,
        ..INDEXED
    },
];

/// Returns these trees.
fn trees() -> &'static [TreeRow<'static>] {
    &TREES
}

#[test]
fn names_and_nodes_are_found(rt: HostRuntime) {
    let alloc = rt.alloc();
    run_trees(alloc, trees()).expect(&rt, "lookups");
    run_trees(alloc, bad_indexes()).expect(&rt, "bad indexes");
    run_trees(alloc, node_texts()).expect(&rt, "texts of nodes");
}
