// The contents of an object file: what a sheet lists, and what is listed besides.
ghost use Rattle.std.specs.Prelude.{◌≡◌};
ghost use Rattle.sheet_object.specs.Sheet.{no_more};

use km_names::{Blob, List, Name, Names, Texts};
use std::alloc::Global;

/// The contents of an object file.
#[derive(Drop)]
pub struct Sheet {
    /// The texts of `.modinfo`, each `key=value`.
    pub texts: Texts,
    /// The entries of `__versions`.
    pub versions: SheetVersions,
    /// The exported symbols.
    pub exports: SheetExports,
    /// The undefined symbols.
    pub needs: SheetNeeds,
    /// The words of `.data`, eight bytes each, and their relocations.
    pub places: SheetPlaces,
}

/// The version of a needed symbol.
#[derive(Drop)]
pub struct SheetVersion {
    /// The symbol, of at most 55 bytes.
    pub name: Name,
    /// The version.
    pub crc: u64,
}

/// A list of versions.
pub type SheetVersions = List<SheetVersion>;

/// An exported symbol.
#[derive(Drop)]
pub struct SheetExport {
    /// Its name.
    pub name: Name,
    /// Its version, if it states one.
    pub crc: Option<u64>,
}

/// A list of exported symbols.
pub type SheetExports = List<SheetExport>;

/// An undefined symbol.
#[derive(Drop)]
pub struct SheetNeed {
    /// Its name.
    pub name: Name,
    /// Whether it is weak.
    pub weak: bool,
}

/// A list of undefined symbols.
pub type SheetNeeds = List<SheetNeed>;

/// The relocation of the word of `.data` at the same place in the list.
#[derive(Drop)]
pub struct SheetPlace {
    /// The relocation type. x86-64 psABI, "Relocation Types".
    pub kind: u32,
    /// The symbol, an export or a need of the sheet.
    pub symbol: Name,
    /// The addend.
    pub addend: i64,
}

/// A list of relocations, one for each word of `.data`.
pub type SheetPlaces = List<SheetPlace>;

/// The contents of an object file besides a sheet.
#[derive(Drop)]
pub struct SheetMore {
    /// The versions of needed symbols in the extended form, with names of any length and versions
    /// below 2^32.
    pub ext: SheetVersions,
    /// The GPL-only exports.
    pub gpl: Names,
    /// The namespaces of exports.
    pub spaces: SheetSpaces,
}

/// The namespace of an export.
#[derive(Drop)]
pub struct SheetSpace {
    /// The export.
    pub name: Name,
    /// The namespace, which isn't empty.
    pub space: Name,
}

/// A list of namespaces of exports.
pub type SheetSpaces = List<SheetSpace>;

impl SheetMore {
    /// Returns the empty additions. It takes no memory.
    pub fn none(alloc: Global) -> SheetMore
        ensures { result ≡ no_more }
    {
        SheetMore {
            ext: List::new(alloc),
            gpl: List::new(alloc),
            spaces: List::new(alloc),
        }
    }
}
