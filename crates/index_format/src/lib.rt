//! The format of a module index: what the bytes of a file mean, which files a reader refuses, and
//! which file the writer makes of a map. This is kmod's index format, version 2.1.
//!
//! The crate has the format's numbers, and definitions in `specs/` for the proofs of the readers
//! and the writer of indexes. It uses `km_names`. Its functions do nothing: the contract of each
//! says what the definitions give on small files that were written by hand.
#![tactic(auto)]

mod numbers;
mod worked;

pub use numbers::{FIRST_PLACE, HAS_CHILDREN, HAS_PREFIX, HAS_VALUES, MAGIC, PLACE_MASK, VERSION};
pub use worked::{odd_files, refused_files, small_files, small_lookups, small_walks};
