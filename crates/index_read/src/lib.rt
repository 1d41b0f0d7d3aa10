//! Lookups in a module index, in place: the values of one key, of all keys, and of all keys that as
//! patterns match a text.
//!
//! [`Index`] keeps the nodes of an adopted file and nothing beside them. A lookup of one key walks
//! from the root and reads exactly the nodes of that walk, in time linear in the key and the values
//! that it answers. The others read each node at most once, and keep the levels that they are on in
//! a vector.
//!
//! A lookup of all keys that match a text reads them byte by byte down the tree, with the places of
//! the text that each can reach so far. So what keys begin with in common is matched once.
//!
//! A small file may have a map of any size. So the lookups in all keys count the bytes of the list
//! that they answer, and past 268,435,456 they are out of memory. A listing writes a key only where
//! it has a value. A [`FirstWalk`] answers one key at a time, and has no limit. Nor has
//! [`distinct_texts`], which answers the texts of matching keys, each once: it reads each place of
//! the file once, however many nodes share it.
//!
//! Many prefixes may share their last bytes. Once as many bytes were read as the file has, tables
//! are made before a long prefix: where runs of `*` and of the items of a set end, and which ends
//! of keys match which ends of the text. So matching takes time in proportion to the file for each
//! 64 bytes of the text.
//!
//! Each node that is read is a step on the ledger that the caller gives; the lookups of [`plain`],
//! [`distinct_texts`] and a [`FirstWalk`] count nothing. The crate builds on `index_nodes`, which
//! reads the nodes, on `glob_match` for the patterns, on `km_names` for bytes and lists, and on
//! `name_table` for names without repeats. `IndexFault`, `Place` and `Steps` come from
//! `index_nodes`.
#![tactic(auto)]

mod distinct;
mod first;
mod index;
mod key_tables;
mod met;
pub mod plain;
mod reach;
mod room;
mod search;
mod value;
mod walk;

pub use distinct::distinct_texts;
pub use first::{FirstValue, FirstWalk};
pub use index::Index;
pub use index_nodes::{IndexFault, Place, Steps};
pub use value::{Pair, Pairs, Value, Values};
