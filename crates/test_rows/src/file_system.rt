// A file system with two helpers.
use crate::row::{FileRow, ModuleRow};
use test_objects::{EMPTY_SHEET, ExportRow, NO_MORE, NeedRow, PlaceRow, SheetRow};

/// The modules of a file system.
pub const FILE_SYSTEM: &[ModuleRow<'static>] = &[
    ("kernel/fs/mbcache.ko", &MBCACHE, &NO_MORE),
    ("kernel/fs/ext4/ext4.ko", &EXT4, &NO_MORE),
    ("kernel/fs/jbd2/jbd2.ko", &JBD2, &NO_MORE),
];

/// The order of these modules, a kernel of 40 names, and a list of loaded modules with one helper.
pub const FILE_SYSTEM_KERNEL: &[FileRow<'static>] = &[
    FileRow {
        path: "/r/lib/modules/6.1.0/modules.order",
        bytes: b"kernel/fs/mbcache.ko\nkernel/fs/ext4/ext4.ko\nkernel/fs/jbd2/jbd2.ko\n",
    },
    FileRow {
        path: "/r/Module.symvers",
        bytes: b"0x00001000\tkfn00\tvmlinux\tEXPORT_SYMBOL\n\
                 0x00001001\tkfn01\tvmlinux\tEXPORT_SYMBOL\n\
                 0x00001002\tkfn02\tvmlinux\tEXPORT_SYMBOL\n\
                 0x00001003\tkfn03\tvmlinux\tEXPORT_SYMBOL\n\
                 0x00001004\tkfn04\tvmlinux\tEXPORT_SYMBOL\n\
                 0x00001005\tkfn05\tvmlinux\tEXPORT_SYMBOL\n\
                 0x00001006\tkfn06\tvmlinux\tEXPORT_SYMBOL\n\
                 0x00001007\tkfn07\tvmlinux\tEXPORT_SYMBOL\n\
                 0x00001008\tkfn08\tvmlinux\tEXPORT_SYMBOL\n\
                 0x00001009\tkfn09\tvmlinux\tEXPORT_SYMBOL\n\
                 0x0000100a\tkfn10\tvmlinux\tEXPORT_SYMBOL\n\
                 0x0000100b\tkfn11\tvmlinux\tEXPORT_SYMBOL\n\
                 0x0000100c\tkfn12\tvmlinux\tEXPORT_SYMBOL\n\
                 0x0000100d\tkfn13\tvmlinux\tEXPORT_SYMBOL\n\
                 0x0000100e\tkfn14\tvmlinux\tEXPORT_SYMBOL\n\
                 0x0000100f\tkfn15\tvmlinux\tEXPORT_SYMBOL\n\
                 0x00001010\tkfn16\tvmlinux\tEXPORT_SYMBOL\n\
                 0x00001011\tkfn17\tvmlinux\tEXPORT_SYMBOL\n\
                 0x00001012\tkfn18\tvmlinux\tEXPORT_SYMBOL\n\
                 0x00001013\tkfn19\tvmlinux\tEXPORT_SYMBOL\n\
                 0x00001014\tkfn20\tvmlinux\tEXPORT_SYMBOL\n\
                 0x00001015\tkfn21\tvmlinux\tEXPORT_SYMBOL\n\
                 0x00001016\tkfn22\tvmlinux\tEXPORT_SYMBOL\n\
                 0x00001017\tkfn23\tvmlinux\tEXPORT_SYMBOL\n\
                 0x00001018\tkfn24\tvmlinux\tEXPORT_SYMBOL\n\
                 0x00001019\tkfn25\tvmlinux\tEXPORT_SYMBOL\n\
                 0x0000101a\tkfn26\tvmlinux\tEXPORT_SYMBOL\n\
                 0x0000101b\tkfn27\tvmlinux\tEXPORT_SYMBOL\n\
                 0x0000101c\tkfn28\tvmlinux\tEXPORT_SYMBOL\n\
                 0x0000101d\tkfn29\tvmlinux\tEXPORT_SYMBOL\n\
                 0x0000101e\tkfn30\tvmlinux\tEXPORT_SYMBOL\n\
                 0x0000101f\tkfn31\tvmlinux\tEXPORT_SYMBOL\n\
                 0x00001020\tkfn32\tvmlinux\tEXPORT_SYMBOL\n\
                 0x00001021\tkfn33\tvmlinux\tEXPORT_SYMBOL\n\
                 0x00001022\tkfn34\tvmlinux\tEXPORT_SYMBOL\n\
                 0x00001023\tkfn35\tvmlinux\tEXPORT_SYMBOL\n\
                 0x00001024\tkfn36\tvmlinux\tEXPORT_SYMBOL\n\
                 0x00001025\tkfn37\tvmlinux\tEXPORT_SYMBOL\n\
                 0x00001026\tkfn38\tvmlinux\tEXPORT_SYMBOL\n\
                 0x00001027\tkfn39\tvmlinux\tEXPORT_SYMBOL\n",
    },
    FileRow {
        path: "/r/System.map",
        bytes: b"ffffffff81000000 T kfn00\n\
                 ffffffff81000040 T kfn01\n\
                 ffffffff81000080 T kfn02\n\
                 ffffffff810000c0 T kfn03\n\
                 ffffffff81000100 T kfn04\n\
                 ffffffff81000140 T kfn05\n\
                 ffffffff81000180 T kfn06\n\
                 ffffffff810001c0 T kfn07\n\
                 ffffffff81000200 T kfn08\n\
                 ffffffff81000240 T kfn09\n\
                 ffffffff81000280 T kfn10\n\
                 ffffffff810002c0 T kfn11\n\
                 ffffffff81000300 T kfn12\n\
                 ffffffff81000340 T kfn13\n\
                 ffffffff81000380 T kfn14\n\
                 ffffffff810003c0 T kfn15\n\
                 ffffffff81000400 T kfn16\n\
                 ffffffff81000440 T kfn17\n\
                 ffffffff81000480 T kfn18\n\
                 ffffffff810004c0 T kfn19\n\
                 ffffffff81000500 T kfn20\n\
                 ffffffff81000540 T kfn21\n\
                 ffffffff81000580 T kfn22\n\
                 ffffffff810005c0 T kfn23\n\
                 ffffffff81000600 T kfn24\n\
                 ffffffff81000640 T kfn25\n\
                 ffffffff81000680 T kfn26\n\
                 ffffffff810006c0 T kfn27\n\
                 ffffffff81000700 T kfn28\n\
                 ffffffff81000740 T kfn29\n\
                 ffffffff81000780 T kfn30\n\
                 ffffffff810007c0 T kfn31\n\
                 ffffffff81000800 T kfn32\n\
                 ffffffff81000840 T kfn33\n\
                 ffffffff81000880 T kfn34\n\
                 ffffffff810008c0 T kfn35\n\
                 ffffffff81000900 T kfn36\n\
                 ffffffff81000940 T kfn37\n\
                 ffffffff81000980 T kfn38\n\
                 ffffffff810009c0 T kfn39\n",
    },
    FileRow {
        path: "/r/loaded",
        bytes: b"mbcache 16384 0 - Live 0x0000000000000000\n",
    },
];

/// A helper of a file system.
const MBCACHE: SheetRow = SheetRow {
    exports: &[ExportRow {
        name: b"mb_cache_create",
        crc: None,
    }],
    needs: &[NeedRow {
        name: b"kfn02",
        weak: false,
    }],
    places: &[PlaceRow {
        kind: 1,
        symbol: b"kfn02",
        addend: 0,
    }],
    ..EMPTY_SHEET
};

/// Another helper of a file system.
const JBD2: SheetRow = SheetRow {
    exports: &[ExportRow {
        name: b"jbd2_journal_start",
        crc: None,
    }],
    needs: &[NeedRow {
        name: b"kfn01",
        weak: false,
    }],
    places: &[PlaceRow {
        kind: 1,
        symbol: b"kfn01",
        addend: 0,
    }],
    ..EMPTY_SHEET
};

/// A file system that needs two helpers and the kernel.
const EXT4: SheetRow = SheetRow {
    texts: &[b"license=GPL", b"alias=fs-ext4", b"softdep=pre: crc32c"],
    needs: &[
        NeedRow {
            name: b"jbd2_journal_start",
            weak: false,
        },
        NeedRow {
            name: b"mb_cache_create",
            weak: false,
        },
        NeedRow {
            name: b"kfn00",
            weak: false,
        },
    ],
    places: &[
        PlaceRow {
            kind: 1,
            symbol: b"jbd2_journal_start",
            addend: 0,
        },
        PlaceRow {
            kind: 1,
            symbol: b"mb_cache_create",
            addend: 0,
        },
        PlaceRow {
            kind: 2,
            symbol: b"kfn00",
            addend: -4,
        },
    ],
    ..EMPTY_SHEET
};
