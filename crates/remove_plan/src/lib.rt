//! What `modprobe -r` removes from the modelled machine: the modules that are asked for, and those
//! that only they used.
//!
//! The machine reports once which modules use which, with one lookup for each need. A module's
//! users are younger than it, so one pass from the youngest module down finds all that are removed.
//!
//! The crate uses `model_loader` for the machine and its modules' uses of each other. It uses
//! `modprobe_conf` for the commands that are run instead of removing a module, and `name_table` for
//! tables of names.
#![tactic(auto)]

mod asked;
mod commands;
mod laws;
mod marks;
mod members;
mod plan;
mod step;
mod users;

pub use laws::removed_are_least;
pub use plan::plan_removal;
pub use step::{RemoveFault, RemovePlan, RemoveStep};
