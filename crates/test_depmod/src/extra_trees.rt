// Trees with device nodes, and the two files that depmod adds for them.
use test_objects::{EMPTY_SHEET, NO_MORE, SheetRow};
use test_rows::{FileRow, ModuleRow};

/// A module with a device node.
const FUSE: SheetRow = SheetRow {
    texts: &[b"alias=devname:fuse", b"alias=char-major-10-229"],
    ..EMPTY_SHEET
};

/// A module with two devices and two numbers. The first of each counts.
const LOOP: SheetRow = SheetRow {
    texts: &[
        b"alias=block-major-7-*",
        b"alias=devname:loop-control",
        b"alias=block-major-007-0",
        b"alias=char-major-10-237",
        b"alias=devname:loop0",
    ],
    ..EMPTY_SHEET
};

/// A module with a device, but no number.
const TUN: SheetRow = SheetRow {
    texts: &[b"alias=devname:net/tun", b"alias=char-major-10-4294967296"],
    ..EMPTY_SHEET
};

/// One module with a device node.
pub(crate) const ONE_NODE: &[ModuleRow<'static>] = &[("kernel/fuse.ko", &FUSE, &NO_MORE)];

/// Three modules, two of them with device nodes.
pub(crate) const TWO_NODES: &[ModuleRow<'static>] = &[
    ("kernel/a/loop.ko", &LOOP, &NO_MORE),
    ("kernel/b/tun.ko", &TUN, &NO_MORE),
    ("kernel/c/fuse.ko", &FUSE, &NO_MORE),
];

/// A built-in module with an alias.
pub(crate) const TTY: FileRow<'static> = FileRow {
    path: "/r/lib/modules/6.1.0/modules.builtin.modinfo",
    bytes: b"tty.alias=tty-*\0tty.license=GPL\0",
};

/// The index of that alias.
pub(crate) const TTY_INDEX: &[u8] = b"\xb0\x07\xf4\x57\x00\x02\x00\x01\x20\x00\x00\x1d\
    ty_*\0\x00\x00\x00\x01\x00\x00\x00\x00tty\0\
    tt\xc0\x00\x00\x0c";

/// Two built-in modules whose aliases match the same name. The one that is seen first states two.
pub(crate) const TWO_BUILT_IN: FileRow<'static> = FileRow {
    path: "/r/lib/modules/6.1.0/modules.builtin.modinfo",
    bytes: b"snd-b.license=GPL\0a.alias=m*\0snd-b.alias=m?\0snd-b.alias=mm\0a.alias=x\0",
};

/// The heading of modules.devname.
pub(crate) const NO_NODES: &[u8] = b"# Device nodes to trigger on-demand module loading.\n";
