//! What the course of a modprobe that loads results in over a folder as depmod indexed it: only
//! laws.
//!
//! The loads of a course are loads of the modelled machine. What is printed and written of them is
//! of the machine's entries, and what is refused is what the machine refuses. Let a folder be as
//! depmod indexed it, with the same kernel's table. The modules of a plan that runs no command are
//! then the valid modules of the tree that closed plans speak of. So its loads stop only for lack
//! of room or for a word that doesn't fit, and all that is loaded is bound.
//!
//! The crate builds on `command_modprobe` and `stages_loads` for the course, and on
//! `laws_indexed_folder` for what loading a closed plan of such a folder results in.
#![tactic(auto)]

mod laws;

pub use laws::{courses_bind, courses_load, loads_are_of_machines, written_files_are_read};
