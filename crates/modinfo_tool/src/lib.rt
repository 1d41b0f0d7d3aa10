//! What modinfo(8) prints of a module: its path, its fields and its parameters, or the values under
//! one key.
//!
//! It builds on `modinfo_fields` for the fields. It builds on `indexmap`, so that the text of many
//! parameters takes a time in proportion to their number. The only error is out of memory.
#![tactic(auto)]

mod parameters;
mod text;

pub use text::{ShowOptions, show, show_values};
