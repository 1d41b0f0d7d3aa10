// Sheets of small modules, which rows share.
use test_objects::{EMPTY_MORE, EMPTY_SHEET, ExportRow, MoreRow, NeedRow, SheetRow, VersionRow};

/// A module with two aliases, one of them without a normal form, and a soft dependency.
pub(crate) const ALIASES: SheetRow = SheetRow {
    texts: &[
        b"alias=pci-x:v0000[!a-f]d*",
        b"alias=bad[x",
        b"softdep=pre: y",
    ],
    ..EMPTY_SHEET
};

/// A module that needs the first of a cycle.
pub(crate) const CIRCLE_P: SheetRow = SheetRow {
    needs: &[NeedRow {
        name: b"a",
        weak: false,
    }],
    ..EMPTY_SHEET
};

/// A module of a cycle.
pub(crate) const CIRCLE_A: SheetRow = SheetRow {
    exports: &[ExportRow {
        name: b"a",
        crc: None,
    }],
    needs: &[NeedRow {
        name: b"b",
        weak: false,
    }],
    ..EMPTY_SHEET
};

/// A module of a cycle.
pub(crate) const CIRCLE_B: SheetRow = SheetRow {
    exports: &[ExportRow {
        name: b"b",
        crc: None,
    }],
    needs: &[NeedRow {
        name: b"c",
        weak: false,
    }],
    ..EMPTY_SHEET
};

/// A module of a cycle.
pub(crate) const CIRCLE_C: SheetRow = SheetRow {
    exports: &[ExportRow {
        name: b"c",
        crc: None,
    }],
    needs: &[NeedRow {
        name: b"a",
        weak: false,
    }],
    ..EMPTY_SHEET
};

/// A name of 60 bytes, which doesn't fit an entry of `__versions`.
const LONG: &[u8] = b"xxxxxxxxxxxxxxxxxxxxxxxxxxxxxxxxxxxxxxxxxxxxxxxxxxxxxxxxxxxx";

/// A module that exports a symbol with a long name, of version 17.
pub(crate) const GIVES_LONG: SheetRow = SheetRow {
    exports: &[ExportRow {
        name: LONG,
        crc: Some(0x11),
    }],
    ..EMPTY_SHEET
};

/// A module that needs that symbol.
pub(crate) const NEEDS_LONG: SheetRow = SheetRow {
    needs: &[NeedRow {
        name: LONG,
        weak: false,
    }],
    ..EMPTY_SHEET
};

/// Version 17 of that symbol, in the extended form.
pub(crate) const LONG_VERSION_17: MoreRow = MoreRow {
    ext: &[VersionRow {
        name: LONG,
        crc: 0x11,
    }],
    ..EMPTY_MORE
};

/// Version 18 of that symbol, in the extended form.
pub(crate) const LONG_VERSION_18: MoreRow = MoreRow {
    ext: &[VersionRow {
        name: LONG,
        crc: 0x12,
    }],
    ..EMPTY_MORE
};

/// A module that needs nothing, and has an export, an alias and a soft dependency.
pub(crate) const GIVES_FC: SheetRow = SheetRow {
    texts: &[b"alias=c:*", b"softdep=post: a"],
    exports: &[ExportRow {
        name: b"fc",
        crc: None,
    }],
    ..EMPTY_SHEET
};
