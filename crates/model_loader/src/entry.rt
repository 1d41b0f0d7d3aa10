// The modules in a machine.

use export_table::PlacedExport;
use km_names::{List, Name, Names};
use raw_image::Image;

/// A loaded module: its name, the base of its image, and the size of the image.
#[derive(Debug, Drop)]
pub struct LoadedModule {
    /// The name of the module.
    pub name: Name,
    /// The address of the first byte of its image.
    pub base: u64,
    /// The size of the image in bytes.
    pub size: u64,
}

/// A need of a loaded module.
#[derive(Drop)]
pub(crate) struct BoundNeed {
    pub(crate) name: Name,
    pub(crate) weak: bool,
    pub(crate) crc: Option<u64>,
}

/// What a machine keeps of a module.
#[derive(Drop)]
pub(crate) struct Entry {
    pub(crate) loaded: LoadedModule,
    pub(crate) image: Image,
    pub(crate) free: bool,
    pub(crate) imports: Names,
    pub(crate) exports: List<PlacedExport>,
    pub(crate) needs: List<BoundNeed>,
}
