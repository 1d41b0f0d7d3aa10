//! The files that depmod makes of a tree of modules: nine, five texts and four indexes.
//!
//! A text is the lines that the modules have, in the order of the tree. An index is the file of a
//! map in kmod's index format, and represents that map. The length of a file is known before a byte
//! of it is written.
//!
//! The crate builds on `stated_texts` for what modules state, and on `provider_rel` for what they
//! depend on and what they lack. It builds on `unmet_file` for the lines of modules.unmet, and on
//! `index_write`, which makes the indexes.
#![tactic(auto)]

mod built_in;
mod dependencies;
mod fault;
mod file;
mod files;
mod index;
mod making;
mod size;
mod unmet;
mod worked;

pub use fault::OutputFault;
pub use file::OutputFile;
pub use files::{OutputFiles, outputs};
pub use worked::{index_of_a_small_tree, texts_of_small_trees};
