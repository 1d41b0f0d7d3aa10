//! The command `depmod`: its course, and the function that follows it. depmod(8).
//!
//! It reads the configuration, chooses the tree in the folder of a kernel's modules, reads the
//! kernel's table and each module in turn, relates them, and makes depmod's files. Nothing is
//! written before the last check. It builds on `kmod_words` for what the words ask for, and on
//! `stages_files` for the files that commands share. It builds on `mod_tree`, `module_facts` and
//! `provider_rel` for the tree, and on `depmod_core` for its nine files. The two that `--extra`
//! adds are made by `builtin_index` and `devname_nodes`.
#![tactic(auto)]

mod course;
mod extra;
mod files;
mod modules;
mod outputs;
mod relation;
mod search;
mod tree;
mod warnings;

pub use course::depmod;
pub use files::{DepmodFile, DepmodFiles, ExtraFiles};
