// What a module has, written out.

/// A version of a sheet.
#[derive(Clone, Copy)]
pub struct VersionRow {
    /// The symbol.
    pub name: &'static [u8],
    /// The version.
    pub crc: u64,
}

/// An export of a sheet.
#[derive(Clone, Copy)]
pub struct ExportRow {
    /// Its name.
    pub name: &'static [u8],
    /// Its version, if it states one.
    pub crc: Option<u64>,
}

/// A need of a sheet.
#[derive(Clone, Copy)]
pub struct NeedRow {
    /// Its name.
    pub name: &'static [u8],
    /// Whether it is weak.
    pub weak: bool,
}

/// A relocated word of a sheet.
#[derive(Clone, Copy)]
pub struct PlaceRow {
    /// The relocation type.
    pub kind: u32,
    /// The symbol.
    pub symbol: &'static [u8],
    /// The addend.
    pub addend: i64,
}

/// The namespace of an export of a sheet.
#[derive(Clone, Copy)]
pub struct SpaceRow {
    /// The export.
    pub name: &'static [u8],
    /// The namespace.
    pub space: &'static [u8],
}

/// A sheet.
#[derive(Clone, Copy)]
pub struct SheetRow {
    /// The texts of `.modinfo`.
    pub texts: &'static [&'static [u8]],
    /// The entries of `__versions`.
    pub versions: &'static [VersionRow],
    /// The exported symbols.
    pub exports: &'static [ExportRow],
    /// The undefined symbols.
    pub needs: &'static [NeedRow],
    /// The words of `.data`.
    pub places: &'static [PlaceRow],
}

/// A sheet of nothing.
pub const EMPTY_SHEET: SheetRow = SheetRow {
    texts: &[],
    versions: &[],
    exports: &[],
    needs: &[],
    places: &[],
};

/// What an object is to have besides a sheet.
#[derive(Clone, Copy)]
pub struct MoreRow {
    /// The versions of needed symbols in the extended form.
    pub ext: &'static [VersionRow],
    /// The exports for modules with a free license only.
    pub gpl: &'static [&'static [u8]],
    /// The namespaces of exports.
    pub spaces: &'static [SpaceRow],
}

/// Nothing besides a sheet.
pub const EMPTY_MORE: MoreRow = MoreRow {
    ext: &[],
    gpl: &[],
    spaces: &[],
};
