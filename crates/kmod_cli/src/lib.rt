//! The program: the commands that the words of a command line name. `run` does all that the program
//! does. Its contract says so for every kind of files and outputs that it is handed.
//!
//! It builds on `km_course` for the relation between a call and its course, and on the crates of
//! the commands. It builds on `laws_depmod_leaves` and `laws_planned_loads` for what a depmod
//! results in and leaves, and what a modprobe binds.
#![tactic(auto)]

mod command;
mod laws;
mod program;

pub use laws::{halves_meet, lookups_meet};
pub use program::{depmod, modprobe, run};
