// Calls on files and writes that fail, each in turn. The files that were replaced before are new,
// and all others are as they were.
use crate::indexes::PRINTK_MISSING;
use outside_calls::CallKind;
use test_rows::{DONE, Failing, FileRow, INDEX, KEPT, TWO, TWO_FILES, TreeRow, run_trees};

/// The tree, where no file is replaced.
const KEPT_TWO: TreeRow<'static> = TreeRow {
    name: "calls that fail",
    modules: TWO,
    ..KEPT
};

/// The tree, where all files are replaced.
const NEW: TreeRow<'static> = TreeRow {
    name: "calls that fail",
    modules: TWO,
    index: &TWO_FILES,
    ..DONE
};

/// The calls up to the first replacement, in their order: those of each kind are counted on their
/// own.
static CALLS: [TreeRow<'static>; 12] = [
    TreeRow {
        failing: Failing::Call(CallKind::ListConf, 0),
        rows: &[(INDEX, 3, "", "kmod: file fault /etc/depmod.d\n")],
        ..KEPT_TWO
    },
    TreeRow {
        failing: Failing::Call(CallKind::ListConf, 1),
        rows: &[(INDEX, 3, "", "kmod: file fault /run/depmod.d\n")],
        ..KEPT_TWO
    },
    TreeRow {
        failing: Failing::Call(CallKind::ListConf, 2),
        rows: &[(INDEX, 3, "", "kmod: file fault /usr/local/lib/depmod.d\n")],
        ..KEPT_TWO
    },
    TreeRow {
        failing: Failing::Call(CallKind::ListConf, 3),
        rows: &[(INDEX, 3, "", "kmod: file fault /usr/lib/depmod.d\n")],
        ..KEPT_TWO
    },
    TreeRow {
        failing: Failing::Call(CallKind::ListConf, 4),
        rows: &[(INDEX, 3, "", "kmod: file fault /lib/depmod.d\n")],
        ..KEPT_TWO
    },
    TreeRow {
        failing: Failing::Call(CallKind::ListTree, 0),
        rows: &[(INDEX, 3, "", "kmod: file fault /r/lib/modules/6.1.0\n")],
        ..KEPT_TWO
    },
    TreeRow {
        failing: Failing::Call(CallKind::Read, 0),
        rows: &[(
            INDEX,
            3,
            "",
            "kmod: file fault /r/lib/modules/6.1.0/modules.order\n",
        )],
        ..KEPT_TWO
    },
    TreeRow {
        failing: Failing::Call(CallKind::Read, 1),
        rows: &[(INDEX, 3, "", "kmod: file fault /r/Module.symvers\n")],
        ..KEPT_TWO
    },
    TreeRow {
        failing: Failing::Call(CallKind::Read, 2),
        rows: &[(
            INDEX,
            3,
            "",
            "kmod: file fault /r/lib/modules/6.1.0/kernel/a.ko\n",
        )],
        ..KEPT_TWO
    },
    TreeRow {
        failing: Failing::Call(CallKind::Read, 3),
        rows: &[(
            INDEX,
            3,
            "",
            "kmod: file fault /r/lib/modules/6.1.0/kernel/b.ko\n",
        )],
        ..KEPT_TWO
    },
    TreeRow {
        failing: Failing::Call(CallKind::Read, 4),
        rows: &[(
            INDEX,
            3,
            "",
            "kmod: file fault /r/lib/modules/6.1.0/modules.builtin\n",
        )],
        ..KEPT_TWO
    },
    TreeRow {
        failing: Failing::Call(CallKind::Replace, 0),
        rows: &[(
            INDEX,
            3,
            "",
            "kmod: file fault /r/lib/modules/6.1.0/modules.dep\n",
        )],
        ..KEPT_TWO
    },
];

/// Returns these trees.
fn calls() -> &'static [TreeRow<'static>] {
    &CALLS
}

/// The replacements in their order, with the files that were replaced before. The last run of each
/// kind has no call of that number, and is done.
static REPLACEMENTS: [TreeRow<'static>; 12] = [
    TreeRow {
        failing: Failing::Call(CallKind::Replace, 1),
        rows: &[(
            INDEX,
            3,
            "",
            "kmod: file fault /r/lib/modules/6.1.0/modules.dep.bin\n",
        )],
        replaced: 1,
        ..NEW
    },
    TreeRow {
        failing: Failing::Call(CallKind::Replace, 2),
        rows: &[(
            INDEX,
            3,
            "",
            "kmod: file fault /r/lib/modules/6.1.0/modules.alias\n",
        )],
        replaced: 2,
        ..NEW
    },
    TreeRow {
        failing: Failing::Call(CallKind::Replace, 3),
        rows: &[(
            INDEX,
            3,
            "",
            "kmod: file fault /r/lib/modules/6.1.0/modules.alias.bin\n",
        )],
        replaced: 3,
        ..NEW
    },
    TreeRow {
        failing: Failing::Call(CallKind::Replace, 4),
        rows: &[(
            INDEX,
            3,
            "",
            "kmod: file fault /r/lib/modules/6.1.0/modules.softdep\n",
        )],
        replaced: 4,
        ..NEW
    },
    TreeRow {
        failing: Failing::Call(CallKind::Replace, 5),
        rows: &[(
            INDEX,
            3,
            "",
            "kmod: file fault /r/lib/modules/6.1.0/modules.symbols\n",
        )],
        replaced: 5,
        ..NEW
    },
    TreeRow {
        failing: Failing::Call(CallKind::Replace, 6),
        rows: &[(
            INDEX,
            3,
            "",
            "kmod: file fault /r/lib/modules/6.1.0/modules.symbols.bin\n",
        )],
        replaced: 6,
        ..NEW
    },
    TreeRow {
        failing: Failing::Call(CallKind::Replace, 7),
        rows: &[(
            INDEX,
            3,
            "",
            "kmod: file fault /r/lib/modules/6.1.0/modules.builtin.bin\n",
        )],
        replaced: 7,
        ..NEW
    },
    TreeRow {
        failing: Failing::Call(CallKind::Replace, 8),
        rows: &[(
            INDEX,
            3,
            "",
            "kmod: file fault /r/lib/modules/6.1.0/modules.unmet\n",
        )],
        replaced: 8,
        ..NEW
    },
    TreeRow {
        failing: Failing::Call(CallKind::ListConf, 5),
        rows: &[(INDEX, 0, "", "")],
        ..NEW
    },
    TreeRow {
        failing: Failing::Call(CallKind::ListTree, 1),
        rows: &[(INDEX, 0, "", "")],
        ..NEW
    },
    TreeRow {
        failing: Failing::Call(CallKind::Read, 5),
        rows: &[(INDEX, 0, "", "")],
        ..NEW
    },
    TreeRow {
        failing: Failing::Call(CallKind::Replace, 9),
        rows: &[(INDEX, 0, "", "")],
        ..NEW
    },
];

/// Returns these trees.
fn replacements() -> &'static [TreeRow<'static>] {
    &REPLACEMENTS
}

/// Words whose texts go to the output.
const PRINT: &str = "depmod -n -b /r -E /r/Module.symvers 6.1.0";

/// A run of them: no file is replaced.
const PRINTED: TreeRow<'static> = TreeRow {
    name: "writes that fail",
    ..KEPT_TWO
};

/// The writes to the output, with what was written before. The last run has no write of that
/// number, and is done.
static WRITES: [TreeRow<'static>; 5] = [
    TreeRow {
        failing: Failing::Write(0),
        rows: &[(PRINT, 3, "", "kmod: output fault\n")],
        ..PRINTED
    },
    TreeRow {
        failing: Failing::Write(1),
        rows: &[(
            PRINT,
            3,
            "kernel/a.ko:\nkernel/b.ko: kernel/a.ko\n",
            "kmod: output fault\n",
        )],
        ..PRINTED
    },
    TreeRow {
        failing: Failing::Write(2),
        rows: &[(
            PRINT,
            3,
            "kernel/a.ko:\nkernel/b.ko: kernel/a.ko\n# Aliases extracted from modules \
                themselves.\n",
            "kmod: output fault\n",
        )],
        ..PRINTED
    },
    TreeRow {
        failing: Failing::Write(3),
        rows: &[(
            PRINT,
            3,
            "kernel/a.ko:\n\
         kernel/b.ko: kernel/a.ko\n\
         # Aliases extracted from modules themselves.\n\
         # Soft dependencies extracted from modules themselves.\n",
            "kmod: output fault\n",
        )],
        ..PRINTED
    },
    TreeRow {
        failing: Failing::Write(4),
        rows: &[(
            PRINT,
            0,
            "kernel/a.ko:\n\
         kernel/b.ko: kernel/a.ko\n\
         # Aliases extracted from modules themselves.\n\
         # Soft dependencies extracted from modules themselves.\n\
         # Aliases for symbols, used by symbol_request().\n\
         alias symbol:fa a\n",
            "",
        )],
        ..PRINTED
    },
];

/// Returns these trees.
fn writes() -> &'static [TreeRow<'static>] {
    &WRITES
}

/// The table of a kernel that doesn't export `printk`.
const OTHER_SYMVERS: FileRow<'static> = FileRow {
    path: "/r/Module.symvers",
    bytes: b"0x11111111\tother\tvmlinux\tEXPORT_SYMBOL\n",
};

/// A warning that can't be written: there is no line on err, and no file is replaced. If it is
/// written, all files are.
static WARNED: [TreeRow<'static>; 2] = [
    TreeRow {
        name: "a warning that fails",
        modules: TWO,
        files: &[OTHER_SYMVERS],
        rows: &[("depmod -e -b /r -E /r/Module.symvers 6.1.0", 3, "", "")],
        failing: Failing::Line(0),
        replaced: 0,
        ..DONE
    },
    TreeRow {
        name: "a warning that is written",
        modules: TWO,
        files: &[OTHER_SYMVERS],
        rows: &[(
            "depmod -e -b /r -E /r/Module.symvers 6.1.0",
            0,
            "",
            "kmod: warning: kernel/a.ko needs unknown symbol printk\n",
        )],
        failing: Failing::Line(1),
        index: &PRINTK_MISSING,
        ..DONE
    },
];

/// Returns these trees.
fn warned() -> &'static [TreeRow<'static>] {
    &WARNED
}

#[test]
fn each_call_can_fail(rt: HostRuntime) {
    let alloc = rt.alloc();
    run_trees(alloc, calls()).expect(&rt, "calls that fail");
    run_trees(alloc, replacements()).expect(&rt, "replacements that fail");
    run_trees(alloc, writes()).expect(&rt, "writes that fail");
    run_trees(alloc, warned()).expect(&rt, "warnings");
}
