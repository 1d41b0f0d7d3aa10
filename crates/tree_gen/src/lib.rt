//! The made tree of a trial. `generate` makes a kernel's tree of modules in memory, whose modules
//! need each other as numbers are drawn from a seed. It hands on the sheets and objects of
//! `sheet_object`, which its modules are made of.
//!
//! It builds on `sheet_object` for the objects of modules, on `km_names` for names and paths, and
//! on `outside_calls` for files in memory. It builds on `elf_format` for the relocation type of its
//! words. The only error is out of memory.
#![tactic(auto)]

mod draws;
mod trial;
mod trial_sheet;
mod worked;

pub use sheet_object::{
    Sheet, SheetExport, SheetExports, SheetMore, SheetNeed, SheetNeeds, SheetParam, SheetParams,
    SheetPlace, SheetPlaces, SheetSpace, SheetSpaces, SheetVersion, SheetVersions, is_sheet,
    object, object_more, param_object,
};
pub use trial::{ROOT, SYMVERS_PATH, SYSTEM_MAP_PATH, VERSION, generate};
pub use worked::{draws_of_small_seeds, draws_stand_before};
