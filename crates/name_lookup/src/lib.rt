//! What a name stands for: the modules, built-in modules and install commands that `modprobe` finds
//! under it.
//!
//! A name is looked up in six lists, from the aliases of the configuration to the built-in modules.
//! The first one that isn't empty decides. The definitions speak of the four maps that a folder's
//! index files stand for; code asks the files in place. A [`Lookup`] has the rules in tables, so
//! that many names are looked up in time in proportion to the rules once, and then to the names.
//! The crate builds on `index_read` for the lookups, on `modprobe_conf` for the rules, on
//! `glob_match` for the patterns of aliases, and on `indexmap` for the table of aliases without
//! wildcards.
#![tactic(auto)]

mod aliases;
mod found;
mod groups;
mod index_names;
mod indexes;
mod lookup;
mod rules;
mod wildcards;

pub use found::Found;
pub use groups::NameGroups;
pub use indexes::Indexes;
pub use lookup::{Lookup, resolve};
