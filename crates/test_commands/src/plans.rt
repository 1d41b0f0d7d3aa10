// Plans, and what is in the way of one.
use crate::sheets::ASKS_FOR_MORE;
use test_objects::{
    FREE, GIVES_ALONE, GIVES_VERSION_1, GPL_ONLY, IMPORTS, IN_SPACE, MAY_NEED_VERSION_2, NEEDS,
    NEEDS_NOSUCH, NO_MORE, NOTHING,
};
use test_rows::{FileRow, INDEXED, ModuleRow, SYMVERS, SYSTEM_MAP, TWO, TreeRow, run_trees};

/// Two modules that need nothing.
const ALONE: &[ModuleRow<'static>] = &[
    ("kernel/a.ko", &NOTHING, &NO_MORE),
    ("kernel/b.ko", &NOTHING, &NO_MORE),
];

/// Trees, and what is planned over each.
static TREES: [TreeRow<'static>; 6] = [
    // A module comes after what it needs, with its own parameters and the configuration's.
    TreeRow {
        name: "a plan of two modules",
        modules: TWO,
        files: &[
            SYMVERS,
            FileRow {
                path: "/etc/modprobe.d/a.conf",
                bytes: b"options b depth=3\n",
            },
        ],
        rows: &[(
            "modprobe -d /r -S 6.1.0 -n b raw=1 wide=2",
            0,
            "insmod /r/lib/modules/6.1.0/kernel/a.ko\n\
             insmod /r/lib/modules/6.1.0/kernel/b.ko depth=3 raw=1 wide=2\n",
            "",
        )],
        ..INDEXED
    },
    // A configuration that isn't understood.
    TreeRow {
        name: "a bad line of the configuration",
        modules: TWO,
        files: &[
            SYMVERS,
            FileRow {
                path: "/etc/modprobe.d/a.conf",
                bytes: b"options x\n",
            },
        ],
        rows: &[(
            "modprobe -d /r -S 6.1.0 -n b",
            1,
            "",
            "kmod: /etc/modprobe.d/a.conf: bad line 1\n",
        )],
        ..INDEXED
    },
    // What is loaded already is left out, except by `-D`.
    TreeRow {
        name: "loaded modules are left out",
        modules: TWO,
        files: &[
            SYMVERS,
            FileRow {
                path: "/r/loaded",
                bytes: b"a 8192 0 - Live 0x0\n",
            },
        ],
        rows: &[
            (
                "modprobe -d /r -S 6.1.0 --loaded /r/loaded -n b",
                0,
                "insmod /r/lib/modules/6.1.0/kernel/b.ko\n",
                "",
            ),
            (
                "modprobe -d /r -S 6.1.0 --loaded /r/loaded -D b",
                0,
                "insmod /r/lib/modules/6.1.0/kernel/a.ko\n\
                 insmod /r/lib/modules/6.1.0/kernel/b.ko\n",
                "",
            ),
            ("modprobe -d /r -S 6.1.0 --loaded /r/loaded -n a", 0, "", ""),
        ],
        ..INDEXED
    },
    // A command replaces its module; `-i` ignores only the commands of requested modules; a load
    // runs none.
    TreeRow {
        name: "commands stand for modules",
        modules: TWO,
        files: &[
            SYMVERS,
            FileRow {
                path: "/etc/modprobe.d/a.conf",
                bytes: b"install a /bin/true\n",
            },
            SYSTEM_MAP,
        ],
        rows: &[
            (
                "modprobe -d /r -S 6.1.0 -D b",
                0,
                "install /bin/true\ninsmod /r/lib/modules/6.1.0/kernel/b.ko\n",
                "",
            ),
            (
                "modprobe -d /r -S 6.1.0 -D -i b",
                0,
                "install /bin/true\ninsmod /r/lib/modules/6.1.0/kernel/b.ko\n",
                "",
            ),
            (
                "modprobe -d /r -S 6.1.0 -D -i a",
                0,
                "insmod /r/lib/modules/6.1.0/kernel/a.ko\n",
                "",
            ),
            (
                "modprobe -d /r -S 6.1.0 --system-map /r/System.map b",
                1,
                "",
                "kmod: install chosen a\n",
            ),
        ],
        ..INDEXED
    },
    // Two modules export one symbol: that is an obstacle if both are planned.
    TreeRow {
        name: "two modules export one symbol",
        modules: &[
            ("kernel/a.ko", &GIVES_ALONE, &NO_MORE),
            ("kernel/b.ko", &GIVES_ALONE, &NO_MORE),
            ("kernel/c.ko", &NEEDS, &NO_MORE),
        ],
        rows: &[
            (
                "modprobe -d /r -S 6.1.0 -n c",
                0,
                "insmod /r/lib/modules/6.1.0/kernel/a.ko\n\
                 insmod /r/lib/modules/6.1.0/kernel/c.ko\n",
                "",
            ),
            (
                "modprobe -d /r -S 6.1.0 -n b",
                0,
                "insmod /r/lib/modules/6.1.0/kernel/b.ko\n",
                "",
            ),
            (
                "modprobe -d /r -S 6.1.0 -n -a b c",
                1,
                "",
                "kmod: double fa kernel/a.ko kernel/b.ko\n",
            ),
        ],
        ..INDEXED
    },
    // Needs that nobody meets, or in another version.
    TreeRow {
        name: "needs that are not met",
        modules: &[
            ("kernel/n.ko", &NEEDS_NOSUCH, &NO_MORE),
            ("kernel/p.ko", &GIVES_VERSION_1, &NO_MORE),
            ("kernel/w.ko", &MAY_NEED_VERSION_2, &NO_MORE),
        ],
        rows: &[
            (
                "modprobe -d /r -S 6.1.0 -n n",
                1,
                "",
                "kmod: missing kernel/n.ko nosuch\n",
            ),
            (
                "modprobe -d /r -S 6.1.0 -n w",
                1,
                "",
                "kmod: version kernel/w.ko fa kernel/p.ko\n",
            ),
        ],
        ..INDEXED
    },
];

/// Returns these trees.
fn trees() -> &'static [TreeRow<'static>] {
    &TREES
}

/// Further trees: soft dependencies, built-in names, and exports that not all modules may use.
static FURTHER: [TreeRow<'static>; 5] = [
    // Soft dependencies come before and after their module; those that are found nowhere are passed
    // over.
    TreeRow {
        name: "soft dependencies are planned",
        modules: &[
            ("kernel/avail.ko", &NOTHING, &NO_MORE),
            ("kernel/late.ko", &GIVES_ALONE, &NO_MORE),
            ("kernel/m.ko", &ASKS_FOR_MORE, &NO_MORE),
            ("kernel/zed.ko", &NOTHING, &NO_MORE),
        ],
        rows: &[(
            "modprobe -d /r -S 6.1.0 -n m",
            0,
            "insmod /r/lib/modules/6.1.0/kernel/avail.ko\n\
             insmod /r/lib/modules/6.1.0/kernel/late.ko\n\
             insmod /r/lib/modules/6.1.0/kernel/m.ko\n\
             insmod /r/lib/modules/6.1.0/kernel/zed.ko\n",
            "",
        )],
        ..INDEXED
    },
    // Soft dependencies that lead in a cycle.
    TreeRow {
        name: "a cycle of soft dependencies",
        modules: ALONE,
        files: &[
            SYMVERS,
            FileRow {
                path: "/etc/modprobe.d/a.conf",
                bytes: b"softdep a pre: b\nsoftdep b pre: a\n",
            },
        ],
        rows: &[(
            "modprobe -d /r -S 6.1.0 -n a",
            1,
            "",
            "kmod: cycle a -> b -> a\n",
        )],
        ..INDEXED
    },
    // What is built into the kernel, and what is nowhere.
    TreeRow {
        name: "built in and unknown names",
        modules: ALONE,
        files: &[
            SYMVERS,
            FileRow {
                path: "/r/lib/modules/6.1.0/modules.builtin",
                bytes: b"kernel/lib/built.ko\n",
            },
        ],
        rows: &[
            ("modprobe -d /r -S 6.1.0 -n built", 0, "builtin built\n", ""),
            (
                "modprobe -d /r -S 6.1.0 -n no-such",
                1,
                "",
                "kmod: not found no_such\n",
            ),
        ],
        ..INDEXED
    },
    // A GPL-only export isn't seen by a module without a free license, which isn't planned; one
    // with such a license is.
    TreeRow {
        name: "a GPL-only export is in the way",
        modules: &[
            ("kernel/a.ko", &GIVES_ALONE, &GPL_ONLY),
            ("kernel/b.ko", &NEEDS, &NO_MORE),
            ("kernel/c.ko", &FREE, &NO_MORE),
        ],
        rows: &[
            (
                "modprobe -d /r -S 6.1.0 -n b",
                1,
                "",
                "kmod: gpl kernel/b.ko fa kernel/a.ko\n",
            ),
            (
                "modprobe -d /r -S 6.1.0 -n c",
                0,
                "insmod /r/lib/modules/6.1.0/kernel/a.ko\n\
                 insmod /r/lib/modules/6.1.0/kernel/c.ko\n",
                "",
            ),
        ],
        ..INDEXED
    },
    // An export in a namespace may not be used by a module that doesn't import it.
    TreeRow {
        name: "a namespace is in the way",
        modules: &[
            ("kernel/a.ko", &GIVES_ALONE, &IN_SPACE),
            ("kernel/b.ko", &NEEDS, &NO_MORE),
            ("kernel/c.ko", &IMPORTS, &NO_MORE),
        ],
        rows: &[
            (
                "modprobe -d /r -S 6.1.0 -n b",
                1,
                "",
                "kmod: namespace kernel/b.ko fa kernel/a.ko\n",
            ),
            (
                "modprobe -d /r -S 6.1.0 -n c",
                0,
                "insmod /r/lib/modules/6.1.0/kernel/a.ko\n\
                 insmod /r/lib/modules/6.1.0/kernel/c.ko\n",
                "",
            ),
        ],
        ..INDEXED
    },
];

/// Returns these trees.
fn further() -> &'static [TreeRow<'static>] {
    &FURTHER
}

#[test]
fn modules_are_planned_or_not(rt: HostRuntime) {
    run_trees(rt.alloc(), trees()).expect(&rt, "plans");
    run_trees(rt.alloc(), further()).expect(&rt, "further plans");
}
