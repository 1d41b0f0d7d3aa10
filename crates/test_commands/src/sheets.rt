// Sheets of small modules, which rows share.
use test_objects::{EMPTY_SHEET, NeedRow, SheetRow};

/// A module with two aliases, one of them without a normal form.
pub(crate) const ALIASES: SheetRow = SheetRow {
    texts: &[b"alias=pci-x:v0000[!a-f]d*", b"alias=bad[x"],
    ..EMPTY_SHEET
};

/// A module with an alias that others have too.
pub(crate) const USB: SheetRow = SheetRow {
    texts: &[b"alias=usb:v*"],
    ..EMPTY_SHEET
};

/// A module that needs `fa`, and asks for modules before and after it.
pub(crate) const ASKS_FOR_MORE: SheetRow = SheetRow {
    texts: &[b"softdep=pre: gone avail post: late zed"],
    needs: &[NeedRow {
        name: b"fa",
        weak: false,
    }],
    ..EMPTY_SHEET
};
