// Trees that are indexed with `--extra`.
use crate::extra_trees::{NO_NODES, ONE_NODE, TTY, TTY_INDEX, TWO_NODES};
use crate::indexes::{ONE_NODE_FILES, TWO_NODES_FILES};
use outside_calls::CallKind;
use test_objects::{NEEDS_NOSUCH, NO_MORE};
use test_rows::{
    DONE, EXTRA, Failing, FileRow, INDEX, NO_KEYS, NOSUCH_MISSING, SYMVERS, TreeRow, run_trees,
};

/// The index of the built-in alias.
const TTY_ALIASES: FileRow<'static> = FileRow {
    path: "/r/lib/modules/6.1.0/modules.builtin.alias.bin",
    bytes: TTY_INDEX,
};

/// The same of no module.
const NO_ALIASES: FileRow<'static> = FileRow {
    path: "/r/lib/modules/6.1.0/modules.builtin.alias.bin",
    bytes: NO_KEYS,
};

/// A tree that is indexed: the two files are replaced after the nine, which are the same as without
/// the option.
const ONE: TreeRow<'static> = TreeRow {
    modules: ONE_NODE,
    files: &[SYMVERS, TTY],
    rows: &[(EXTRA, 0, "", "")],
    index: &ONE_NODE_FILES,
    after: &[
        TTY_ALIASES,
        FileRow {
            path: "/r/lib/modules/6.1.0/modules.devname",
            bytes: b"# Device nodes to trigger on-demand module loading.\nfuse fuse c10:229\n",
        },
    ],
    ..DONE
};

/// Trees and their files.
static INDEXED: [TreeRow<'static>; 5] = [
    TreeRow {
        name: "a built-in alias and a device node",
        ..ONE
    },
    // Without the option the file of built-in modules isn't read, and nine files are replaced.
    TreeRow {
        name: "without the option",
        failing: Failing::Call(CallKind::Read, 4),
        rows: &[(INDEX, 0, "", "")],
        after: &[],
        ..ONE
    },
    // A missing file counts as empty.
    TreeRow {
        name: "no file of built-in modules",
        files: &[SYMVERS],
        after: &[
            NO_ALIASES,
            FileRow {
                path: "/r/lib/modules/6.1.0/modules.devname",
                bytes: b"# Device nodes to trigger on-demand module loading.\nfuse fuse c10:229\n",
            },
        ],
        ..ONE
    },
    TreeRow {
        name: "a module without a device number, and one with two",
        modules: TWO_NODES,
        files: &[SYMVERS],
        index: &TWO_NODES_FILES,
        after: &[
            NO_ALIASES,
            FileRow {
                path: "/r/lib/modules/6.1.0/modules.devname",
                bytes: b"# Device nodes to trigger on-demand module loading.\n\
                         loop loop-control b7:0\n\
                         fuse fuse c10:229\n",
            },
        ],
        ..ONE
    },
    TreeRow {
        name: "a module without aliases",
        modules: &[("kernel/n.ko", &NEEDS_NOSUCH, &NO_MORE)],
        rows: &[(
            "depmod -e --extra -b /r -E /r/Module.symvers 6.1.0",
            0,
            "",
            "kmod: warning: kernel/n.ko needs unknown symbol nosuch\n",
        )],
        index: &NOSUCH_MISSING,
        after: &[
            TTY_ALIASES,
            FileRow {
                path: "/r/lib/modules/6.1.0/modules.devname",
                bytes: NO_NODES,
            },
        ],
        ..ONE
    },
];

/// Returns these trees.
fn indexed() -> &'static [TreeRow<'static>] {
    &INDEXED
}

/// Runs that replace no file, or not all.
static CUT_SHORT: [TreeRow<'static>; 5] = [
    // With `-n` the texts go to the output, the device nodes after modules.unmet.
    TreeRow {
        name: "text files go to the output",
        modules: &[("kernel/n.ko", &NEEDS_NOSUCH, &NO_MORE)],
        failing: Failing::Call(CallKind::Replace, 0),
        rows: &[(
            "depmod --extra -n -b /r -E /r/Module.symvers 6.1.0",
            0,
            "kernel/n.ko:\n\
             # Aliases extracted from modules themselves.\n\
             # Soft dependencies extracted from modules themselves.\n\
             # Aliases for symbols, used by symbol_request().\n\
             missing kernel/n.ko nosuch\n\
             # Device nodes to trigger on-demand module loading.\n",
            "",
        )],
        replaced: 0,
        after: &[],
        ..ONE
    },
    // The file of built-in modules is read after modules.builtin.
    TreeRow {
        name: "the file of built-in modules can't be read",
        failing: Failing::Call(CallKind::Read, 4),
        rows: &[(
            EXTRA,
            3,
            "",
            "kmod: file fault /r/lib/modules/6.1.0/modules.builtin.modinfo\n",
        )],
        replaced: 0,
        after: &[],
        ..ONE
    },
    TreeRow {
        name: "the tenth replacement fails",
        failing: Failing::Call(CallKind::Replace, 9),
        rows: &[(
            EXTRA,
            3,
            "",
            "kmod: file fault /r/lib/modules/6.1.0/modules.builtin.alias.bin\n",
        )],
        after: &[],
        ..ONE
    },
    TreeRow {
        name: "the last replacement fails",
        failing: Failing::Call(CallKind::Replace, 10),
        rows: &[(
            EXTRA,
            3,
            "",
            "kmod: file fault /r/lib/modules/6.1.0/modules.devname\n",
        )],
        after: &[TTY_ALIASES],
        ..ONE
    },
    TreeRow {
        name: "a refused tree",
        files: &[
            SYMVERS,
            TTY,
            FileRow {
                path: "/r/lib/modules/6.1.0/kernel/x.ko",
                bytes: b"",
            },
        ],
        rows: &[(EXTRA, 1, "", "kmod: kernel/x.ko: not an ELF file\n")],
        replaced: 0,
        after: &[],
        ..ONE
    },
];

/// Returns these trees.
fn cut_short() -> &'static [TreeRow<'static>] {
    &CUT_SHORT
}

#[test]
fn trees_are_indexed_with_two_more_files(rt: HostRuntime) {
    run_trees(rt.alloc(), indexed()).expect(&rt, "trees with two more files");
    run_trees(rt.alloc(), cut_short()).expect(&rt, "runs that are cut short");
}
