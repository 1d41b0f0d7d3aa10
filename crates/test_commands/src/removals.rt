// Removals from the modelled machine.
use test_objects::{GIVES, NEEDS, NO_MORE, NOTHING};
use test_rows::{FileRow, INDEXED, ModuleRow, RowOf, SYMVERS, SYSTEM_MAP, TreeRow, run_tree};

/// Three modules. `b` needs `a`, and `c` has nothing to do with them.
const THREE: &[ModuleRow<'static>] = &[
    ("kernel/a.ko", &GIVES, &NO_MORE),
    ("kernel/b.ko", &NEEDS, &NO_MORE),
    ("kernel/c.ko", &NOTHING, &NO_MORE),
];

/// The tables of the kernel, lists of loaded modules, and configurations.
const FILES: &[FileRow<'static>] = &[
    SYMVERS,
    SYSTEM_MAP,
    FileRow {
        path: "/r/two",
        bytes: b"b 4096 0 - Live 0x0\na 8192 1 b, Live 0x0\n",
    },
    FileRow {
        path: "/r/three",
        bytes: b"b 4096 0 - Live 0x0\na 8192 1 b, Live 0x0\nc 4096 0 - Live 0x0\n",
    },
    FileRow {
        path: "/r/none",
        bytes: b"",
    },
    FileRow {
        path: "/r/strange",
        bytes: b"a 8192 0 - Live 0x0\nx 4096 0 - Live 0x0\n",
    },
    FileRow {
        path: "/r/a.conf",
        bytes: b"remove a /bin/true\n",
    },
    FileRow {
        path: "/r/b.conf",
        bytes: b"remove b /bin/false\n",
    },
    FileRow {
        path: "/r/black.conf",
        bytes: b"blacklist b\n",
    },
];

/// Removals, and what they are to result in.
const ROWS: &[RowOf<'static>] = &[
    // `b` is removed, and `a`, which only `b` used.
    (
        "modprobe -r -d /r -S 6.1.0 --system-map /r/System.map --symvers /r/Module.symvers \
         --loaded /r/two b",
        0,
        "rmmod b\nrmmod a\nunloaded b\nunloaded a\n",
        "",
    ),
    // `b` uses `a`.
    (
        "modprobe --remove -d /r -S 6.1.0 --system-map /r/System.map --symvers /r/Module.symvers \
         --loaded /r/two a",
        1,
        "",
        "kmod: a is in use by b\n",
    ),
    // All words are names.
    (
        "modprobe -r -d /r -S 6.1.0 --system-map /r/System.map --symvers /r/Module.symvers \
         --loaded /r/two a b",
        0,
        "rmmod b\nrmmod a\nunloaded b\nunloaded a\n",
        "",
    ),
    (
        "modprobe -r -a -d /r -S 6.1.0 --system-map /r/System.map --symvers /r/Module.symvers \
         --loaded /r/two a b",
        0,
        "rmmod b\nrmmod a\nunloaded b\nunloaded a\n",
        "",
    ),
    // What is left, with its address and the digest of its image, which is 4096 zeros.
    (
        "modprobe -r -d /r -S 6.1.0 --system-map /r/System.map --symvers /r/Module.symvers \
         --loaded /r/three b",
        0,
        "rmmod b\n\
         rmmod a\n\
         unloaded b\n\
         unloaded a\n\
         left c ffffffffc0000000 4096 \
         ad7facb2586fc6e966c004d7d1d16b024f5805ff7cb47c7a85dabd8b48892ca7\n",
        "",
    ),
    // Two are left, the oldest first. The first word of `b` is the address of `fa`.
    (
        "modprobe -r -d /r -S 6.1.0 --system-map /r/System.map --symvers /r/Module.symvers \
         --loaded /r/three c",
        0,
        "rmmod c\n\
         unloaded c\n\
         left a ffffffffc0001000 8192 \
         c6c95917cef2d89bf138a45b46ef4155f44b4dba3fdef5bd3e0dd145c1741227\n\
         left b ffffffffc0003000 4096 \
         9bef7c5dd2f9b1353d8a5ac00889c66ce9715d06c0070faf6004037de629f075\n",
        "",
    ),
    // A dry run prints only the steps.
    (
        "modprobe -r -n -d /r -S 6.1.0 --system-map /r/System.map --symvers /r/Module.symvers \
         --loaded /r/three b",
        0,
        "rmmod b\nrmmod a\n",
        "",
    ),
    // Nothing is loaded.
    (
        "modprobe -r -d /r -S 6.1.0 --system-map /r/System.map --symvers /r/Module.symvers \
         --loaded /r/none b",
        0,
        "",
        "",
    ),
    (
        "modprobe -r -d /r -S 6.1.0 --system-map /r/System.map --symvers /r/Module.symvers b",
        0,
        "",
        "",
    ),
    // A command would be run for `a`, which isn't asked for.
    (
        "modprobe -r -d /r -S 6.1.0 -C /r/a.conf --system-map /r/System.map \
         --symvers /r/Module.symvers --loaded /r/two b",
        1,
        "",
        "kmod: remove chosen a\n",
    ),
    (
        "modprobe -r -n -d /r -S 6.1.0 -C /r/a.conf --system-map /r/System.map \
         --symvers /r/Module.symvers --loaded /r/two b",
        0,
        "rmmod b\nremove /bin/true\n",
        "",
    ),
    (
        "modprobe -r -i -d /r -S 6.1.0 -C /r/a.conf --system-map /r/System.map \
         --symvers /r/Module.symvers --loaded /r/two b",
        1,
        "",
        "kmod: remove chosen a\n",
    ),
    // The command of what is asked for can be ignored.
    (
        "modprobe -r -d /r -S 6.1.0 -C /r/b.conf --system-map /r/System.map \
         --symvers /r/Module.symvers --loaded /r/two b",
        1,
        "",
        "kmod: remove chosen b\n",
    ),
    (
        "modprobe -r -i -d /r -S 6.1.0 -C /r/b.conf --system-map /r/System.map \
         --symvers /r/Module.symvers --loaded /r/two b",
        0,
        "rmmod b\nrmmod a\nunloaded b\nunloaded a\n",
        "",
    ),
    // A name that the blacklist empties asks for nothing.
    (
        "modprobe -r -b -d /r -S 6.1.0 -C /r/black.conf --system-map /r/System.map \
         --symvers /r/Module.symvers --loaded /r/two b",
        0,
        "left a ffffffffc0000000 8192 \
         c6c95917cef2d89bf138a45b46ef4155f44b4dba3fdef5bd3e0dd145c1741227\n\
         left b ffffffffc0002000 4096 \
         0a0ae56ba2cd70c076737e2ae47ebdd9a5154c842c849bb19266dcee8398c17b\n",
        "",
    ),
    // A listed module that isn't in the index is refused before a name is looked up.
    (
        "modprobe -r -d /r -S 6.1.0 --system-map /r/System.map --symvers /r/Module.symvers \
         --loaded /r/strange gone",
        1,
        "",
        "kmod: listed module x: not found\n",
    ),
    (
        "modprobe -r -d /r -S 6.1.0 --system-map /r/System.map --symvers /r/Module.symvers \
         --loaded /r/two b gone-one",
        1,
        "",
        "kmod: not found gone_one\n",
    ),
];

/// The tree of the three modules.
static TREE: TreeRow<'static> = TreeRow {
    modules: THREE,
    files: FILES,
    rows: ROWS,
    ..INDEXED
};

/// Returns that tree.
fn tree() -> &'static TreeRow<'static> {
    &TREE
}

#[test]
fn modules_are_removed_or_refused(rt: HostRuntime) {
    run_tree(rt.alloc(), tree()).expect(&rt, "removals");
}
