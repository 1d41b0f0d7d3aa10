//! Object files made from sheets. A sheet lists the texts, versions, exports, needs and relocated
//! words of a module, and `object` writes the relocatable object that has exactly these.
//! `object_more` also writes extended versions, GPL-only exports and namespaces. Trials and tests
//! read them back.
//!
//! It builds on `km_names` for lists and names, on `name_table` for the places of names, on
//! `elf_format` for the numbers of the format, and on `elf_write`, which writes the object file of
//! a list of sections. It hands on the objects of parameters of `elf_write`. The only error is out
//! of memory.
#![tactic(auto)]

mod conditions;
mod content;
mod further;
mod names;
mod object_file;
mod parts;
mod relocations;
mod section;
mod sheet;
mod symbols;

pub use conditions::is_sheet;
pub use elf_write::{SheetParam, SheetParams, param_object};
pub use object_file::{object, object_more};
pub use sheet::{
    Sheet, SheetExport, SheetExports, SheetMore, SheetNeed, SheetNeeds, SheetPlace, SheetPlaces,
    SheetSpace, SheetSpaces, SheetVersion, SheetVersions,
};
