// Loads into the modelled machine.
use test_objects::{GIVES_ALONE, GPL_ONLY, MAY_NEED, NO_MORE};
use test_rows::{
    FILE_SYSTEM, FILE_SYSTEM_KERNEL, FileRow, INDEXED, ImageRow, RowOf, SYMVERS, SYSTEM_MAP, TWO,
    TreeRow, USAGE, run_tree, run_trees,
};

/// Trees, and what is loaded of each. No image is put.
static TREES: [TreeRow<'static>; 6] = [
    // Two modules are loaded: the lines of the plan, and then the lines of the loads with the
    // digests of the images.
    TreeRow {
        name: "two modules are loaded",
        modules: TWO,
        files: &[SYMVERS, SYSTEM_MAP],
        rows: &[
            (
                "modprobe -d /r -S 6.1.0 --system-map /r/System.map --symvers /r/Module.symvers \
                 --region 0xffffffffc0000000:0x3000 b",
                0,
                "insmod /r/lib/modules/6.1.0/kernel/a.ko\n\
                 insmod /r/lib/modules/6.1.0/kernel/b.ko\n\
                 loaded a ffffffffc0000000 8192 \
                 c6c95917cef2d89bf138a45b46ef4155f44b4dba3fdef5bd3e0dd145c1741227\n\
                 loaded b ffffffffc0002000 4096 \
                 0a0ae56ba2cd70c076737e2ae47ebdd9a5154c842c849bb19266dcee8398c17b\n",
                "",
            ),
            (
                "modprobe -d /r -S 6.1.0 --system-map /r/System.map --symvers /r/Module.symvers \
                 --region 0xffffffffc0000000:0x2000 b",
                1,
                "insmod /r/lib/modules/6.1.0/kernel/a.ko\n\
                 insmod /r/lib/modules/6.1.0/kernel/b.ko\n\
                 loaded a ffffffffc0000000 8192 \
                 c6c95917cef2d89bf138a45b46ef4155f44b4dba3fdef5bd3e0dd145c1741227\n",
                "kmod: b: region full, 1 pages\n",
            ),
        ],
        ..INDEXED
    },
    // A weak need that nobody provides.
    TreeRow {
        name: "a weak need is loaded",
        modules: &[("kernel/w.ko", &MAY_NEED, &NO_MORE)],
        files: &[SYMVERS, SYSTEM_MAP],
        rows: &[(
            "modprobe -d /r -S 6.1.0 --system-map /r/System.map --symvers /r/Module.symvers w",
            0,
            "insmod /r/lib/modules/6.1.0/kernel/w.ko\n\
             loaded w ffffffffc0000000 4096 \
             2077e1b57a1ac1246f305a7da892b64d4d8c10b0b40b178ace55e5e4c719c5bf\n",
            "",
        )],
        ..INDEXED
    },
    // Modules that are listed as loaded and can't be: one that the index doesn't have, and one that
    // needs what is missing.
    TreeRow {
        name: "listed modules are refused",
        modules: TWO,
        files: &[
            SYMVERS,
            SYSTEM_MAP,
            FileRow {
                path: "/r/unknown",
                bytes: b"c 8192 0 - Live 0x0\n",
            },
            FileRow {
                path: "/r/needy",
                bytes: b"b 8192 0 - Live 0x0\n",
            },
        ],
        rows: &[
            (
                "modprobe -d /r -S 6.1.0 --system-map /r/System.map --symvers /r/Module.symvers \
                 --loaded /r/unknown b",
                1,
                "",
                "kmod: listed module c: not found\n",
            ),
            (
                "modprobe -d /r -S 6.1.0 --system-map /r/System.map --symvers /r/Module.symvers \
                 --loaded /r/needy a",
                1,
                "",
                "kmod: listed module b: missing symbol fa\n",
            ),
        ],
        ..INDEXED
    },
    // A kernel that exports what has no address, and words without the addresses of a kernel.
    TreeRow {
        name: "loads need addresses",
        modules: TWO,
        files: &[
            SYMVERS,
            FileRow {
                path: "/r/System.map",
                bytes: b"ffffffff81000000 T other\n",
            },
        ],
        rows: &[
            (
                "modprobe -d /r -S 6.1.0 --system-map /r/System.map --symvers /r/Module.symvers b",
                1,
                "",
                "kmod: kernel without address printk\n",
            ),
            ("modprobe -d /r -S 6.1.0 b", 2, "", USAGE),
        ],
        ..INDEXED
    },
    // A weak need that a module provides: the provider is loaded first, and the word has its
    // address.
    TreeRow {
        name: "a weak need with a provider is bound",
        modules: &[
            ("kernel/p.ko", &GIVES_ALONE, &NO_MORE),
            ("kernel/w.ko", &MAY_NEED, &NO_MORE),
        ],
        files: &[SYMVERS, SYSTEM_MAP],
        rows: &[(
            "modprobe -d /r -S 6.1.0 --system-map /r/System.map --symvers /r/Module.symvers w",
            0,
            "insmod /r/lib/modules/6.1.0/kernel/p.ko\n\
             insmod /r/lib/modules/6.1.0/kernel/w.ko\n\
             loaded p ffffffffc0000000 4096 \
             ad7facb2586fc6e966c004d7d1d16b024f5805ff7cb47c7a85dabd8b48892ca7\n\
             loaded w ffffffffc0001000 4096 \
             454ecd26178d36c61f8c5d6016bdf9deba6546aaf5d6b8f40958b9662b1aadad\n",
            "",
        )],
        ..INDEXED
    },
    // A weak need of a GPL-only export, by a module without a free license: both are loaded, and
    // the word has no address.
    TreeRow {
        name: "a weak need that isn't seen is loaded",
        modules: &[
            ("kernel/a.ko", &GIVES_ALONE, &GPL_ONLY),
            ("kernel/b.ko", &MAY_NEED, &NO_MORE),
        ],
        files: &[SYMVERS, SYSTEM_MAP],
        rows: &[(
            "modprobe -d /r -S 6.1.0 --system-map /r/System.map --symvers /r/Module.symvers b",
            0,
            "insmod /r/lib/modules/6.1.0/kernel/a.ko\n\
             insmod /r/lib/modules/6.1.0/kernel/b.ko\n\
             loaded a ffffffffc0000000 8192 \
             9f1dcbc35c350d6027f98be0f5c8b43b42ca52b7604459c0c42be3aa88913d47\n\
             loaded b ffffffffc0002000 4096 \
             2077e1b57a1ac1246f305a7da892b64d4d8c10b0b40b178ace55e5e4c719c5bf\n",
            "",
        )],
        ..INDEXED
    },
];

/// Returns these trees.
fn trees() -> &'static [TreeRow<'static>] {
    &TREES
}

/// The load of a file system. One of its helpers is listed as loaded.
const FILE_SYSTEM_LOAD: RowOf<'static> = (
    "modprobe -d /r -S 6.1.0 --system-map /r/System.map --symvers /r/Module.symvers \
     --loaded /r/loaded --image /r/img fs-ext4",
    0,
    "insmod /r/lib/modules/6.1.0/kernel/fs/jbd2/jbd2.ko\n\
     insmod /r/lib/modules/6.1.0/kernel/fs/ext4/ext4.ko\n\
     loaded jbd2 ffffffffc0002000 8192 \
     00f1821d7526dd3993c75e7869b3ef740cc34be59dc7c9c0c4ef8995419d91d8\n\
     loaded ext4 ffffffffc0004000 4096 \
     2dc003ea3181922124704cfd3edbbf883011cb4847f826c9f81c61bfd4824b79\n",
    "",
);

/// The load of a file system with two helpers, over a kernel of 40 names. Both images are whole:
/// that of `jbd2` has the address of one of the kernel's, and that of `ext4` the addresses of what
/// two helpers export, and the way to one of the kernel's.
static FILE_SYSTEM_TREE: TreeRow<'static> = TreeRow {
    name: "a file system is loaded",
    modules: FILE_SYSTEM,
    files: FILE_SYSTEM_KERNEL,
    rows: &[FILE_SYSTEM_LOAD],
    images: &[
        ImageRow {
            path: "/r/img/jbd2.img",
            length: 8192,
            pieces: &[(4096, b"\x40\x00\x00\x81\xff\xff\xff\xff")],
        },
        ImageRow {
            path: "/r/img/ext4.img",
            length: 4096,
            pieces: &[(
                0,
                b"\x00\x20\x00\xc0\xff\xff\xff\xff\x00\x00\x00\xc0\xff\xff\xff\xff\xec\xbf\xff\xc0",
            )],
        },
    ],
    ..INDEXED
};

/// Returns that tree.
fn file_system_tree() -> &'static TreeRow<'static> {
    &FILE_SYSTEM_TREE
}

#[test]
fn modules_are_loaded_or_refused(rt: HostRuntime) {
    run_trees(rt.alloc(), trees()).expect(&rt, "loads");
    run_tree(rt.alloc(), file_system_tree()).expect(&rt, "a file system");
}
