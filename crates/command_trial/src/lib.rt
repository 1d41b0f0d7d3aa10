//! The command `trial`: its course, and the function that follows it. A tree is made in memory, a
//! depmod inside indexes it, and a modprobe inside loads its modules into the modelled machine.
//! Five numbers report the outcome.
//!
//! It builds on `kmod_words` for what the words ask for, on `tree_gen` for the tree, and on
//! `command_depmod` and `command_modprobe` for the commands inside. They write to outputs in memory
//! with a known capacity. It builds on `km_course` for how they are concluded, and on `sha2` and
//! `hex` for the digest of the images.
#![tactic(auto)]

mod course;
mod handed;
mod inside;
mod lines;
mod summary;
mod words;

pub use course::trial;
