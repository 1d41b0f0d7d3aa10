//! Sheets of small modules, which rows share.

use test_objects::{EMPTY_SHEET, ExportRow, NeedRow, PlaceRow, SheetRow, VersionRow};

/// A module that exports two names. Another module exports the second one too.
pub(crate) const GIVES_AGAIN: SheetRow = SheetRow {
    exports: &[
        ExportRow {
            name: b"fb",
            crc: None,
        },
        ExportRow {
            name: b"fa",
            crc: None,
        },
    ],
    ..EMPTY_SHEET
};

/// A module that exports what the kernel does.
pub(crate) const GIVES_PRINTK: SheetRow = SheetRow {
    exports: &[ExportRow {
        name: b"printk",
        crc: None,
    }],
    ..EMPTY_SHEET
};

/// A module that needs the distance to `fa`.
pub(crate) const NEEDS_BY_DISTANCE: SheetRow = SheetRow {
    needs: &[NeedRow {
        name: b"fa",
        weak: false,
    }],
    places: &[PlaceRow {
        kind: 2,
        symbol: b"fa",
        addend: -4,
    }],
    ..EMPTY_SHEET
};

/// A module that needs another version of `fa`, and what nobody exports.
pub(crate) const NEEDS_VERSION_2_AND_MORE: SheetRow = SheetRow {
    versions: &[VersionRow {
        name: b"fa",
        crc: 0x2,
    }],
    needs: &[
        NeedRow {
            name: b"fa",
            weak: false,
        },
        NeedRow {
            name: b"nosuch",
            weak: false,
        },
    ],
    ..EMPTY_SHEET
};

/// A module whose word of four bytes can't hold the address of `printk`; its first word can.
pub(crate) const NEEDS_IN_32_BITS: SheetRow = SheetRow {
    needs: &[NeedRow {
        name: b"printk",
        weak: false,
    }],
    places: &[
        PlaceRow {
            kind: 1,
            symbol: b"printk",
            addend: 0,
        },
        PlaceRow {
            kind: 10,
            symbol: b"printk",
            addend: 0,
        },
    ],
    ..EMPTY_SHEET
};

/// A module that has the address of its own export in a word.
pub(crate) const USES_ITS_OWN: SheetRow = SheetRow {
    exports: &[ExportRow {
        name: b"fa",
        crc: None,
    }],
    places: &[PlaceRow {
        kind: 1,
        symbol: b"fa",
        addend: 3,
    }],
    ..EMPTY_SHEET
};

/// The same, with the section of a version. That section is loaded if it is named otherwise.
pub(crate) const HAS_VERSIONS: SheetRow = SheetRow {
    versions: &[VersionRow {
        name: b"fa",
        crc: 0x1,
    }],
    exports: &[ExportRow {
        name: b"fa",
        crc: None,
    }],
    places: &[PlaceRow {
        kind: 1,
        symbol: b"fa",
        addend: 3,
    }],
    ..EMPTY_SHEET
};

/// A module with two words of `printk`. The first takes no relocation.
pub(crate) const NEEDS_TWICE: SheetRow = SheetRow {
    needs: &[NeedRow {
        name: b"printk",
        weak: false,
    }],
    places: &[
        PlaceRow {
            kind: 0,
            symbol: b"printk",
            addend: 0,
        },
        PlaceRow {
            kind: 1,
            symbol: b"printk",
            addend: 0,
        },
    ],
    ..EMPTY_SHEET
};

/// A module that names the table of global offsets.
pub(crate) const NEEDS_OFFSET_TABLE: SheetRow = SheetRow {
    needs: &[NeedRow {
        name: b"_GLOBAL_OFFSET_TABLE_",
        weak: false,
    }],
    places: &[PlaceRow {
        kind: 1,
        symbol: b"_GLOBAL_OFFSET_TABLE_",
        addend: 7,
    }],
    ..EMPTY_SHEET
};
