// Trees that are indexed, and those that are refused.
use crate::indexes::{
    A_ALONE, ALIASES_OF_X, BUILT_IN, EXPORTED_TWICE, FILE_SYSTEM_FILES, GPL_LINE, LONG_NAME,
    LONG_NAME_DIFFERS, N_ALONE, NAMESPACE_LINE, NONE, UPDATED, UPDATED_B, UPDATED_BY_NOTHING,
    VERSION_DIFFERS, WEAK_NEED,
};
use crate::sheets::{
    ALIASES, CIRCLE_A, CIRCLE_B, CIRCLE_C, CIRCLE_P, GIVES_LONG, LONG_VERSION_17, LONG_VERSION_18,
    NEEDS_LONG,
};
use outside_calls::CallKind;
use test_objects::{
    FREE, GIVES, GIVES_ALONE, GIVES_VERSION_1, GPL_ONLY, IMPORTS, IN_SPACE, MAY_NEED,
    MAY_NEED_VERSION_2, NEEDS, NEEDS_NOSUCH, NO_MORE, NOTHING,
};
use test_rows::{
    DONE, FILE_SYSTEM, FILE_SYSTEM_KERNEL, Failing, FileRow, INDEX, KEPT, NOSUCH_MISSING, SYMVERS,
    TWO, TWO_FILES, TreeRow, USAGE, run_tree, run_trees,
};

/// Trees that are indexed.
static INDEXED: [TreeRow<'static>; 5] = [
    // A tree without modules: the texts have their headings, and each index is the index of an
    // empty map.
    TreeRow {
        name: "a tree without modules",
        files: &[
            SYMVERS,
            FileRow {
                path: "/r/lib/modules/6.1.0/modules.order",
                bytes: b"",
            },
        ],
        is_old: false,
        index: &NONE,
        ..DONE
    },
    // Two modules. One needs the other.
    TreeRow {
        name: "one module needs another",
        modules: TWO,
        index: &TWO_FILES,
        ..DONE
    },
    // With `-n` the texts go to the output, and no replacement is made.
    TreeRow {
        name: "text files go to the output",
        modules: TWO,
        failing: Failing::Call(CallKind::Replace, 0),
        rows: &[(
            "depmod -n -b /r -E /r/Module.symvers 6.1.0",
            0,
            "kernel/a.ko:\n\
              kernel/b.ko: kernel/a.ko\n\
              # Aliases extracted from modules themselves.\n\
              # Soft dependencies extracted from modules themselves.\n\
              # Aliases for symbols, used by symbol_request().\n\
              alias symbol:fa a\n",
            "",
        )],
        replaced: 0,
        ..DONE
    },
    // With `-o` files are put below another root; a root may end in slashes.
    TreeRow {
        name: "files go to another folder",
        modules: &[("kernel/a.ko", &GIVES, &NO_MORE)],
        rows: &[(
            "depmod -b /r// -o /o/ -E /r/Module.symvers 6.1.0",
            0,
            "",
            "",
        )],
        index: &A_ALONE,
        folder: b"/o/lib/modules/6.1.0",
        ..DONE
    },
    // An alias is written as it is stated; one without a normal form is left out.
    TreeRow {
        name: "an alias that cannot be used",
        modules: &[("kernel/x.ko", &ALIASES, &NO_MORE)],
        index: &ALIASES_OF_X,
        ..DONE
    },
];

/// Returns these trees.
fn indexed() -> &'static [TreeRow<'static>] {
    &INDEXED
}

/// Trees whose index has lines of modules.unmet, or would have them over another table.
static WITH_LINES: [TreeRow<'static>; 5] = [
    // The first module in the tree provides what two export.
    TreeRow {
        name: "two modules export one name",
        modules: &[
            ("kernel/a.ko", &GIVES_ALONE, &NO_MORE),
            ("kernel/b.ko", &GIVES_ALONE, &NO_MORE),
            ("kernel/c.ko", &NEEDS, &NO_MORE),
        ],
        index: &EXPORTED_TWICE,
        ..DONE
    },
    // A symbol that nobody exports has a line, and with `-e` a warning.
    TreeRow {
        name: "a symbol is missing",
        modules: &[("kernel/n.ko", &NEEDS_NOSUCH, &NO_MORE)],
        rows: &[(
            "depmod -e -b /r -E /r/Module.symvers 6.1.0",
            0,
            "",
            "kmod: warning: kernel/n.ko needs unknown symbol nosuch\n",
        )],
        index: &NOSUCH_MISSING,
        ..DONE
    },
    // A version that differs has a line, and with `-e` a warning; a weak need is a dependency.
    TreeRow {
        name: "a version differs",
        modules: &[
            ("kernel/p.ko", &GIVES_VERSION_1, &NO_MORE),
            ("kernel/w.ko", &MAY_NEED_VERSION_2, &NO_MORE),
        ],
        rows: &[(
            "depmod -e -b /r -E /r/Module.symvers 6.1.0",
            0,
            "",
            "kmod: warning: kernel/w.ko disagrees about version of symbol fa\n",
        )],
        index: &VERSION_DIFFERS,
        ..DONE
    },
    // Without a kernel's table nothing is missing.
    TreeRow {
        name: "an unknown kernel exports all",
        modules: &[("kernel/n.ko", &NEEDS_NOSUCH, &NO_MORE)],
        rows: &[("depmod -e -b /r 6.1.0", 0, "", "")],
        index: &N_ALONE,
        ..DONE
    },
    // The table of a System.map gives the same files.
    TreeRow {
        name: "a system map is a table",
        modules: TWO,
        files: &[FileRow {
            path: "/r/System.map",
            bytes: b"ffffffff81000000 T printk\nffffffff82000000 r __ksymtab_printk\n",
        }],
        rows: &[("depmod -b /r -F /r/System.map 6.1.0", 0, "", "")],
        index: &TWO_FILES,
        ..DONE
    },
];

/// Returns these trees.
fn with_lines() -> &'static [TreeRow<'static>] {
    &WITH_LINES
}

/// Exports that not all modules may use.
static RESTRICTED: [TreeRow<'static>; 5] = [
    // A module without a free license doesn't see a GPL-only export.
    TreeRow {
        name: "a GPL-only export has a line",
        modules: &[
            ("kernel/a.ko", &GIVES_ALONE, &GPL_ONLY),
            ("kernel/b.ko", &NEEDS, &NO_MORE),
        ],
        index: &GPL_LINE,
        ..DONE
    },
    // One with a free license does.
    TreeRow {
        name: "a GPL-only export that is seen has no line",
        modules: &[
            ("kernel/a.ko", &GIVES_ALONE, &GPL_ONLY),
            ("kernel/b.ko", &FREE, &NO_MORE),
        ],
        index: &TWO_FILES,
        ..DONE
    },
    // A weak need of a GPL-only export is a dependency, and has no line.
    TreeRow {
        name: "a weak need that isn't seen has no line",
        modules: &[
            ("kernel/a.ko", &GIVES_ALONE, &GPL_ONLY),
            ("kernel/b.ko", &MAY_NEED, &NO_MORE),
        ],
        index: &TWO_FILES,
        ..DONE
    },
    // A module that doesn't import a namespace may not use its exports.
    TreeRow {
        name: "a namespace has a line",
        modules: &[
            ("kernel/a.ko", &GIVES_ALONE, &IN_SPACE),
            ("kernel/b.ko", &NEEDS, &NO_MORE),
        ],
        index: &NAMESPACE_LINE,
        ..DONE
    },
    // One that imports it may.
    TreeRow {
        name: "a namespace that is imported has no line",
        modules: &[
            ("kernel/a.ko", &GIVES_ALONE, &IN_SPACE),
            ("kernel/b.ko", &IMPORTS, &NO_MORE),
        ],
        index: &TWO_FILES,
        ..DONE
    },
];

/// Returns these trees.
fn restricted() -> &'static [TreeRow<'static>] {
    &RESTRICTED
}

/// Modules of one name, of which one is chosen.
static CHOSEN: [TreeRow<'static>; 3] = [
    // Of two modules of one name the one in `updates` is chosen.
    TreeRow {
        name: "an update is chosen",
        modules: &[
            ("kernel/a.ko", &GIVES, &NO_MORE),
            ("kernel/b.ko", &NEEDS, &NO_MORE),
            ("updates/a.ko", &GIVES, &NO_MORE),
        ],
        index: &UPDATED,
        ..DONE
    },
    // What only the module that isn't chosen exports is missing.
    TreeRow {
        name: "an update exports nothing",
        modules: &[
            ("kernel/a.ko", &GIVES, &NO_MORE),
            ("kernel/b.ko", &NEEDS, &NO_MORE),
            ("updates/a.ko", &NOTHING, &NO_MORE),
        ],
        index: &UPDATED_BY_NOTHING,
        ..DONE
    },
    // A module that isn't chosen has no effect.
    TreeRow {
        name: "a compressed module may be passed over",
        modules: &[
            ("kernel/a.ko", &GIVES, &NO_MORE),
            ("updates/b.ko", &NEEDS, &NO_MORE),
        ],
        files: &[
            SYMVERS,
            FileRow {
                path: "/r/lib/modules/6.1.0/kernel/b.ko.xz",
                bytes: b"",
            },
        ],
        index: &UPDATED_B,
        ..DONE
    },
];

/// Returns these trees.
fn chosen() -> &'static [TreeRow<'static>] {
    &CHOSEN
}

/// Further trees that are indexed, or whose index is cut short.
static FURTHER: [TreeRow<'static>; 5] = [
    // A replacement that fails leaves those before it done, and the others as they were.
    TreeRow {
        name: "the third replacement fails",
        modules: &[("kernel/a.ko", &GIVES, &NO_MORE)],
        failing: Failing::Call(CallKind::Replace, 2),
        rows: &[(
            INDEX,
            3,
            "",
            "kmod: file fault /r/lib/modules/6.1.0/modules.alias\n",
        )],
        index: &A_ALONE,
        replaced: 2,
        ..DONE
    },
    // The names of built-in modules are in their index, each once.
    TreeRow {
        name: "built in modules have an index",
        files: &[
            SYMVERS,
            FileRow {
                path: "/r/lib/modules/6.1.0/modules.builtin",
                bytes: b"kernel/lib/b-x.ko\n\nkernel/b_x.ko\n",
            },
        ],
        index: &BUILT_IN,
        ..DONE
    },
    // A weak need that a module provides is a dependency.
    TreeRow {
        name: "a weak need is a dependency",
        modules: &[
            ("kernel/p.ko", &GIVES_ALONE, &NO_MORE),
            ("kernel/w.ko", &MAY_NEED, &NO_MORE),
        ],
        index: &WEAK_NEED,
        ..DONE
    },
    // A version of a symbol with a long name, in the extended form: one that agrees, and one that
    // doesn't.
    TreeRow {
        name: "a long name has a version",
        modules: &[
            ("kernel/a.ko", &GIVES_LONG, &NO_MORE),
            ("kernel/b.ko", &NEEDS_LONG, &LONG_VERSION_17),
        ],
        index: &LONG_NAME,
        ..DONE
    },
    TreeRow {
        name: "a long name has another version",
        modules: &[
            ("kernel/a.ko", &GIVES_LONG, &NO_MORE),
            ("kernel/b.ko", &NEEDS_LONG, &LONG_VERSION_18),
        ],
        index: &LONG_NAME_DIFFERS,
        ..DONE
    },
];

/// Returns these trees.
fn further() -> &'static [TreeRow<'static>] {
    &FURTHER
}

/// Trees that are refused. No file is replaced.
static REFUSALS: [TreeRow<'static>; 9] = [
    // Modules that need each other: the cycle begins with its first module in the tree, and no file
    // is replaced.
    TreeRow {
        name: "modules in a cycle",
        modules: &[
            ("kernel/p.ko", &CIRCLE_P, &NO_MORE),
            ("kernel/a.ko", &CIRCLE_A, &NO_MORE),
            ("kernel/b.ko", &CIRCLE_B, &NO_MORE),
            ("kernel/c.ko", &CIRCLE_C, &NO_MORE),
        ],
        files: &[
            SYMVERS,
            FileRow {
                path: "/r/lib/modules/6.1.0/modules.order",
                bytes: b"kernel/p.ko\nkernel/a.ko\nkernel/b.ko\nkernel/c.ko\n",
            },
        ],
        rows: &[(INDEX, 1, "", "kmod: cycle a -> b -> c -> a\n")],
        ..KEPT
    },
    // The first bad module in the order of the tree is named by its path there, and no file is
    // replaced.
    TreeRow {
        name: "a bad module is named",
        modules: &[
            ("kernel/a.ko", &GIVES, &NO_MORE),
            ("kernel/c.ko", &NEEDS, &NO_MORE),
        ],
        files: &[
            SYMVERS,
            FileRow {
                path: "/r/lib/modules/6.1.0/kernel/b.ko",
                bytes: b"no module",
            },
            FileRow {
                path: "/r/lib/modules/6.1.0/kernel/c.ko",
                bytes: b"none either",
            },
        ],
        rows: &[(INDEX, 1, "", "kmod: kernel/b.ko: not an ELF file\n")],
        ..KEPT
    },
    // A compressed module that is chosen is refused unread.
    TreeRow {
        name: "a compressed module is refused",
        modules: &[("kernel/a.ko", &GIVES, &NO_MORE)],
        files: &[
            SYMVERS,
            FileRow {
                path: "/r/lib/modules/6.1.0/kernel/b.ko.xz",
                bytes: b"",
            },
        ],
        rows: &[(INDEX, 1, "", "kmod: kernel/b.ko.xz: compressed\n")],
        ..KEPT
    },
    // A module in another folder is chosen if the configuration says so.
    TreeRow {
        name: "the search list is the configuration's",
        modules: &[("kernel/a.ko", &GIVES, &NO_MORE)],
        files: &[
            SYMVERS,
            FileRow {
                path: "/r/lib/modules/6.1.0/updates/b.ko.xz",
                bytes: b"",
            },
            FileRow {
                path: "/r/lib/modules/6.1.0/kernel/b.ko.xz",
                bytes: b"",
            },
            FileRow {
                path: "/etc/depmod.d/a.conf",
                bytes: b"search kernel\n",
            },
        ],
        rows: &[(INDEX, 1, "", "kmod: kernel/b.ko.xz: compressed\n")],
        ..KEPT
    },
    // The configuration is read before all else.
    TreeRow {
        name: "a bad line of the configuration",
        files: &[FileRow {
            path: "/c/a.conf",
            bytes: b"search updates\nmake_map_files no\n",
        }],
        rows: &[(
            "depmod -C /c -b /r -E /r/Module.symvers 6.1.0",
            1,
            "",
            "kmod: /c/a.conf: bad line 2\n",
        )],
        ..KEPT
    },
    // A configuration that is named is required.
    TreeRow {
        name: "no configuration at the path",
        rows: &[(
            "depmod -C /c -b /r -E /r/Module.symvers 6.1.0",
            1,
            "",
            "kmod: no file /c\n",
        )],
        ..KEPT
    },
    // A line of the kernel's table that isn't understood.
    TreeRow {
        name: "a bad line of the kernel's table",
        modules: &[("kernel/a.ko", &GIVES, &NO_MORE)],
        files: &[FileRow {
            path: "/r/Module.symvers",
            bytes: b"0x1\tprintk\tvmlinux\nprintk\n",
        }],
        rows: &[(INDEX, 1, "", "kmod: /r/Module.symvers: bad line 2\n")],
        ..KEPT
    },
    // A folder that is missing.
    TreeRow {
        name: "no modules at all",
        rows: &[(
            "depmod -b /s -E /r/Module.symvers 6.1.0",
            1,
            "",
            "kmod: no file /s/lib/modules/6.1.0\n",
        )],
        ..KEPT
    },
    // Words that exclude each other aren't understood.
    TreeRow {
        name: "two tables are too many",
        rows: &[("depmod -F x -E y 6.1.0", 2, "", USAGE)],
        ..KEPT
    },
];

/// Returns these trees.
fn refusals() -> &'static [TreeRow<'static>] {
    &REFUSALS
}

/// A file system with two helpers, over a kernel of 40 names.
static FILE_SYSTEM_ROW: TreeRow<'static> = TreeRow {
    name: "a file system needs two helpers",
    modules: FILE_SYSTEM,
    files: FILE_SYSTEM_KERNEL,
    index: &FILE_SYSTEM_FILES,
    ..DONE
};

/// Returns that tree.
fn file_system_row() -> &'static TreeRow<'static> {
    &FILE_SYSTEM_ROW
}

#[test]
fn trees_are_indexed_or_refused(rt: HostRuntime) {
    let alloc = rt.alloc();
    run_trees(alloc, indexed()).expect(&rt, "trees that are indexed");
    run_trees(alloc, with_lines()).expect(&rt, "trees with lines");
    run_trees(alloc, restricted()).expect(&rt, "exports that not all may use");
    run_trees(alloc, chosen()).expect(&rt, "modules that are chosen");
    run_trees(alloc, further()).expect(&rt, "further trees");
    run_trees(alloc, refusals()).expect(&rt, "trees that are refused");
    run_tree(alloc, file_system_row()).expect(&rt, "a file system");
}
