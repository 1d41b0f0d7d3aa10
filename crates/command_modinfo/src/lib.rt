//! The command `modinfo`: its course, and the function that follows it. modinfo(8).
//!
//! It builds on `kmod_words` for what the words ask for, on `stages_files` for the files that it
//! reads, and on `modinfo_tool` for the text that it shows.
#![tactic(auto)]

mod course;
mod module_info;

pub use course::modinfo;
