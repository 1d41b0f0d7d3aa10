//! The command `builtin-alias`: its course, and the function that follows it. The command is this
//! project's own.
//!
//! It builds on `kmod_words` for what the words ask for, on `stages_files` for the index that it
//! reads, on `index_read` for the lookup, and on `name_table` for names without repeats.
#![tactic(auto)]

mod course;

pub use course::builtin_alias;
