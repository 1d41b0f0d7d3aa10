//! What a text finds in the index of the built-in aliases: only laws.
//!
//! The crate uses `builtin_index` for the map of the aliases, `index_read` for lookups, and
//! `glob_match` for patterns.
#![tactic(auto)]

mod laws;

pub use laws::aliases_are_found;
