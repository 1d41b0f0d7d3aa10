//! The modules that are built into the kernel, by the file modules.builtin.modinfo that the
//! kernel's build leaves. It has all their fields, the map of their aliases, and its index
//! modules.builtin.alias.bin.
//!
//! The file has pieces `MODULE.KEY=VALUE`, each ended by a NUL: the contents of a module's section
//! `.modinfo`, under the module's name. The crate uses `km_names` for texts and aliases, `indexmap`
//! with the keys of `name_table` for the order of modules, and `index_write` for the map of an
//! index and its file, by the definitions of `index_format`.
#![tactic(auto)]

mod aliases;
mod fields;
mod file;
mod laws;
mod piece;
mod seen;

pub use aliases::builtin_aliases;
pub use fields::{BuiltinList, builtin_fields};
pub use file::alias_index;
pub use laws::{aliases_are_by_place, aliases_are_held};
pub use piece::BuiltinField;
