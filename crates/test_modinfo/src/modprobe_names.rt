// What names stand for, by files of a folder and a configuration.
use crate::modinfo_names::{CUT_VALUE, FORWARD_CHILD, REACHED_TWICE};
use test_rows::{FileRow, PLAIN, TreeRow, run_trees};

/// A modules.dep.bin of `a`, and of `b`, which needs `a`.
const DEP: FileRow<'static> = FileRow {
    path: "/r/lib/modules/6.1.0/modules.dep.bin",
    bytes: b"\xb0\x07\xf4W\x00\x02\x00\x01 \x00\x00B\
             \x00\x00\x00\x01\x00\x00\x00\x00kernel/a.ko:\x00\
             \x00\x00\x00\x01\x00\x00\x00\x01kernel/b.ko: kernel/a.ko\x00\
             ab@\x00\x00\x0c@\x00\x00!",
};

/// A modules.dep.bin of `u2`.
const DEP_OF_U2: FileRow<'static> = FileRow {
    path: "/r/lib/modules/6.1.0/modules.dep.bin",
    bytes: b"\xb0\x07\xf4W\x00\x02\x00\x01 \x00\x00$\
             2\x00\x00\x00\x00\x01\x00\x00\x00\x00kernel/u2.ko:\x00\
             uu\xc0\x00\x00\x0c",
};

/// A modules.alias.bin: `usb:v*` is an alias of `u1`, `u2` and `u3`, and `pci_x:v0000[!a-f]d*` one
/// of `x`.
const ALIAS: FileRow<'static> = FileRow {
    path: "/r/lib/modules/6.1.0/modules.alias.bin",
    bytes: b"\xb0\x07\xf4W\x00\x02\x00\x01 \x00\x00H\
             ci_x:v0000[!a-f]d*\x00\x00\x00\x00\x01\x00\x00\x00\x04x\x00\
             sb:v*\x00\x00\x00\x00\x03\x00\x00\x00\x01u1\x00\
             \x00\x00\x00\x02u2\x00\
             \x00\x00\x00\x03u3\x00\
             pu\xc0\x00\x00\x0c\x00\x00\x00\x00\x00\x00\x00\x00\x00\x00\x00\x00\x00\x00\x00\x00\
             \xc0\x00\x00)",
};

/// A modules.symbols.bin: `a` exports `fa`.
const SYMBOLS: FileRow<'static> = FileRow {
    path: "/r/lib/modules/6.1.0/modules.symbols.bin",
    bytes: b"\xb0\x07\xf4W\x00\x02\x00\x01 \x00\x00\x1f\
             ymbol:fa\x00\x00\x00\x00\x01\x00\x00\x00\x00a\x00\
             ss\xc0\x00\x00\x0c",
};

/// A modules.builtin.bin of `built`.
const BUILTIN: FileRow<'static> = FileRow {
    path: "/r/lib/modules/6.1.0/modules.builtin.bin",
    bytes: b"\xb0\x07\xf4W\x00\x02\x00\x01 \x00\x00\x1a\
             uilt\x00\x00\x00\x00\x01\x00\x00\x00\x00\x00\
             bb\xc0\x00\x00\x0c",
};

/// A file of the configuration that blacklists `u2`.
const BLACKLIST: FileRow<'static> = FileRow {
    path: "/etc/modprobe.d/b.conf",
    bytes: b"blacklist u2\n",
};

/// The files of a folder.
const FOLDER_FILES: TreeRow<'static> = TreeRow {
    files: &[DEP, ALIAS, SYMBOLS, BUILTIN],
    ..PLAIN
};

/// The files of another folder, where `u2` is blacklisted.
const BLACKLISTED: TreeRow<'static> = TreeRow {
    files: &[DEP_OF_U2, ALIAS, SYMBOLS, BUILTIN, BLACKLIST],
    ..PLAIN
};

/// What names stand for.
static NAMES: [TreeRow<'static>; 9] = [
    TreeRow {
        rows: &[("modprobe -d /r -S 6.1.0 -R symbol:fa", 0, "a\n", "")],
        ..FOLDER_FILES
    },
    TreeRow {
        rows: &[("modprobe -d /r -S 6.1.0 -R pci-x:v00001d99", 0, "x\n", "")],
        ..FOLDER_FILES
    },
    TreeRow {
        rows: &[(
            "modprobe -d /r -S 6.1.0 -R pci-x:v0000ad99",
            1,
            "",
            "kmod: not found pci_x:v0000ad99\n",
        )],
        ..FOLDER_FILES
    },
    TreeRow {
        rows: &[("modprobe -d /r -S 6.1.0 -R usb:v1", 0, "u1\nu3\n", "")],
        ..BLACKLISTED
    },
    TreeRow {
        rows: &[("modprobe -d /r -S 6.1.0 -R u2", 0, "u2\n", "")],
        ..BLACKLISTED
    },
    TreeRow {
        rows: &[("modprobe -d /r -S 6.1.0 -R -b u2", 0, "", "")],
        ..BLACKLISTED
    },
    TreeRow {
        rows: &[(
            "modprobe -d /r -S 6.1.0 -R -a symbol:fa built usb:v1",
            0,
            "a\nbuilt\nu1\nu2\nu3\n",
            "",
        )],
        ..FOLDER_FILES
    },
    TreeRow {
        rows: &[(
            "modprobe -d /r -S 6.1.0 -R -a symbol:fa no-such built",
            1,
            "",
            "kmod: not found no_such\n",
        )],
        ..FOLDER_FILES
    },
    TreeRow {
        rows: &[("modprobe -d /r -S 6.1.0 -R b no-such=1", 0, "b\n", "")],
        ..FOLDER_FILES
    },
];

/// Returns these trees.
fn names() -> &'static [TreeRow<'static>] {
    &NAMES
}

/// Configurations, and the names of their aliases: the earlier folder counts.
static CONFIGURED: [TreeRow<'static>; 5] = [
    TreeRow {
        files: &[FileRow {
            path: "/etc/modprobe.d/a.conf",
            bytes: b"\noptions x\n",
        }],
        rows: &[(
            "modprobe -d /r -S 6.1.0 -R a",
            1,
            "",
            "kmod: /etc/modprobe.d/a.conf: bad line 2\n",
        )],
        ..PLAIN
    },
    TreeRow {
        files: &[
            DEP,
            ALIAS,
            SYMBOLS,
            BUILTIN,
            FileRow {
                path: "/lib/modprobe.d/z.conf",
                bytes: b"alias z-1 b\n",
            },
            FileRow {
                path: "/etc/modprobe.d/z.conf",
                bytes: b"alias z-1 a\n",
            },
            FileRow {
                path: "/run/modprobe.d/y.conf",
                bytes: b"alias z-1 c-2\n",
            },
        ],
        rows: &[("modprobe -d /r -S 6.1.0 -R z-1", 0, "c_2\na\n", "")],
        ..PLAIN
    },
    TreeRow {
        files: &[
            DEP,
            ALIAS,
            SYMBOLS,
            BUILTIN,
            FileRow {
                path: "/etc/modprobe.d/a.conf",
                bytes: b"options x\n",
            },
            FileRow {
                path: "/r/own.conf",
                bytes: b"alias z b\n",
            },
        ],
        rows: &[("modprobe -d /r -S 6.1.0 -R -C /r/own.conf z", 0, "b\n", "")],
        ..PLAIN
    },
    TreeRow {
        files: &[
            DEP,
            ALIAS,
            SYMBOLS,
            BUILTIN,
            FileRow {
                path: "/r/own/2.conf",
                bytes: b"alias z b\n",
            },
            FileRow {
                path: "/r/own/1.conf",
                bytes: b"alias z a\n",
            },
        ],
        rows: &[("modprobe -d /r -S 6.1.0 -R -C /r/own z", 0, "a\nb\n", "")],
        ..PLAIN
    },
    TreeRow {
        rows: &[(
            "modprobe -d /r -S 6.1.0 -R -C /r/own a",
            1,
            "",
            "kmod: no file /r/own\n",
        )],
        ..FOLDER_FILES
    },
];

/// Returns these trees.
fn configured() -> &'static [TreeRow<'static>] {
    &CONFIGURED
}

/// Files that aren't understood. The first in the order of work is reported.
static IN_ORDER: [TreeRow<'static>; 4] = [
    TreeRow {
        files: &[DEP, SYMBOLS],
        rows: &[(
            "modprobe -d /r -S 6.1.0 -R a",
            1,
            "",
            "kmod: no file /r/lib/modules/6.1.0/modules.alias.bin\n",
        )],
        ..PLAIN
    },
    TreeRow {
        files: &[
            DEP,
            ALIAS,
            SYMBOLS,
            BUILTIN,
            FileRow {
                path: "/r/lib/modules/6.1.0/modules.softdep",
                bytes: b"softdep a\n",
            },
            FileRow {
                path: "/r/lib/modules/6.1.0/modules.unmet",
                bytes: b"\n",
            },
        ],
        rows: &[(
            "modprobe -d /r -S 6.1.0 -R a",
            1,
            "",
            "kmod: /r/lib/modules/6.1.0/modules.softdep: bad line 1\n",
        )],
        ..PLAIN
    },
    TreeRow {
        files: &[
            DEP,
            ALIAS,
            SYMBOLS,
            BUILTIN,
            FileRow {
                path: "/r/lib/modules/6.1.0/modules.unmet",
                bytes: b"missing kernel/a.ko x\nmissing a\n",
            },
        ],
        rows: &[(
            "modprobe -d /r -S 6.1.0 -R --loaded /r/none a",
            1,
            "",
            "kmod: /r/lib/modules/6.1.0/modules.unmet: bad line 2\n",
        )],
        ..PLAIN
    },
    TreeRow {
        rows: &[(
            "modprobe -d /r -S 6.1.0 -R --loaded /r/none nosuch",
            1,
            "",
            "kmod: no file /r/none\n",
        )],
        ..FOLDER_FILES
    },
];

/// Returns these trees.
fn in_order() -> &'static [TreeRow<'static>] {
    &IN_ORDER
}

/// Indexes in place of modules.dep.bin, with which nothing is looked up.
static BAD_INDEXES: [TreeRow<'static>; 3] = [
    TreeRow {
        files: &[FileRow {
            path: "/r/lib/modules/6.1.0/modules.dep.bin",
            bytes: FORWARD_CHILD,
        }],
        rows: &[(
            "modprobe -d /r -S 6.1.0 -R a",
            1,
            "",
            "kmod: /r/lib/modules/6.1.0/modules.dep.bin: bad index node at 18\n",
        )],
        ..PLAIN
    },
    TreeRow {
        files: &[FileRow {
            path: "/r/lib/modules/6.1.0/modules.dep.bin",
            bytes: REACHED_TWICE,
        }],
        rows: &[(
            "modprobe -d /r -S 6.1.0 -R a",
            1,
            "",
            "kmod: /r/lib/modules/6.1.0/modules.dep.bin: index node twice at 12\n",
        )],
        ..PLAIN
    },
    TreeRow {
        files: &[FileRow {
            path: "/r/lib/modules/6.1.0/modules.dep.bin",
            bytes: CUT_VALUE,
        }],
        rows: &[(
            "modprobe -d /r -S 6.1.0 -R a",
            1,
            "",
            "kmod: /r/lib/modules/6.1.0/modules.dep.bin: bad index node at 12\n",
        )],
        ..PLAIN
    },
];

/// Returns these trees.
fn bad_indexes() -> &'static [TreeRow<'static>] {
    &BAD_INDEXES
}

#[test]
fn names_stand_for_modules(rt: HostRuntime) {
    let alloc = rt.alloc();
    run_trees(alloc, names()).expect(&rt, "names");
    run_trees(alloc, configured()).expect(&rt, "configurations");
    run_trees(alloc, in_order()).expect(&rt, "files in the order of work");
    run_trees(alloc, bad_indexes()).expect(&rt, "bad indexes");
}
