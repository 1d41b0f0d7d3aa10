//! The fields of a module's `.modinfo` section: texts of the form `key=value`, each ended by a NUL.
//!
//! The crate uses `km_names`.
#![tactic(auto)]

mod list;
mod piece;

pub use list::{FieldList, field_values, fields, value_of};
pub use piece::Field;
