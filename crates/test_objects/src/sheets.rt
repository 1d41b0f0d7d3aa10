// Small modules, which rows share.
use crate::row::{
    EMPTY_MORE, EMPTY_SHEET, ExportRow, MoreRow, NeedRow, PlaceRow, SheetRow, SpaceRow, VersionRow,
};

/// A module of nothing at all.
pub const NOTHING: SheetRow = EMPTY_SHEET;

/// Nothing besides a sheet.
pub const NO_MORE: MoreRow = EMPTY_MORE;

/// A module that exports `fa` and needs `printk` of the kernel.
pub const GIVES: SheetRow = SheetRow {
    exports: &[ExportRow {
        name: b"fa",
        crc: None,
    }],
    needs: &[NeedRow {
        name: b"printk",
        weak: false,
    }],
    places: &[PlaceRow {
        kind: 1,
        symbol: b"printk",
        addend: 0,
    }],
    ..EMPTY_SHEET
};

/// A module that exports `fa` and needs nothing.
pub const GIVES_ALONE: SheetRow = SheetRow {
    exports: &[ExportRow {
        name: b"fa",
        crc: None,
    }],
    ..EMPTY_SHEET
};

/// A module that exports `fa` with a version.
pub const GIVES_VERSION_1: SheetRow = SheetRow {
    exports: &[ExportRow {
        name: b"fa",
        crc: Some(0x1),
    }],
    ..EMPTY_SHEET
};

/// A module that needs `fa`.
pub const NEEDS: SheetRow = SheetRow {
    needs: &[NeedRow {
        name: b"fa",
        weak: false,
    }],
    places: &[PlaceRow {
        kind: 1,
        symbol: b"fa",
        addend: 0,
    }],
    ..EMPTY_SHEET
};

/// A module that needs `fa` weakly, with an addend.
pub const MAY_NEED: SheetRow = SheetRow {
    needs: &[NeedRow {
        name: b"fa",
        weak: true,
    }],
    places: &[PlaceRow {
        kind: 1,
        symbol: b"fa",
        addend: 5,
    }],
    ..EMPTY_SHEET
};

/// A module that needs another version of `fa`, weakly.
pub const MAY_NEED_VERSION_2: SheetRow = SheetRow {
    versions: &[VersionRow {
        name: b"fa",
        crc: 0x2,
    }],
    needs: &[NeedRow {
        name: b"fa",
        weak: true,
    }],
    ..EMPTY_SHEET
};

/// A module that needs `fa` and has a free license.
pub const FREE: SheetRow = SheetRow {
    texts: &[b"license=Dual BSD/GPL"],
    needs: &[NeedRow {
        name: b"fa",
        weak: false,
    }],
    places: &[PlaceRow {
        kind: 1,
        symbol: b"fa",
        addend: 0,
    }],
    ..EMPTY_SHEET
};

/// A module that needs `fa` and imports a namespace.
pub const IMPORTS: SheetRow = SheetRow {
    texts: &[b"import_ns=NS"],
    needs: &[NeedRow {
        name: b"fa",
        weak: false,
    }],
    places: &[PlaceRow {
        kind: 1,
        symbol: b"fa",
        addend: 0,
    }],
    ..EMPTY_SHEET
};

/// `fa` is only for modules with a free license.
pub const GPL_ONLY: MoreRow = MoreRow {
    ext: &[],
    gpl: &[b"fa"],
    spaces: &[],
};

/// `fa` is in a namespace.
pub const IN_SPACE: MoreRow = MoreRow {
    ext: &[],
    gpl: &[],
    spaces: &[SpaceRow {
        name: b"fa",
        space: b"NS",
    }],
};

/// A module that needs what nobody exports.
pub const NEEDS_NOSUCH: SheetRow = SheetRow {
    needs: &[NeedRow {
        name: b"nosuch",
        weak: false,
    }],
    ..EMPTY_SHEET
};
