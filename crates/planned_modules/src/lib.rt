//! What is planned for some names: what each name stands for, what each module needs, and which
//! modules are loaded in which order. modprobe(8), modprobe.d(5), modules.dep(5).
//!
//! Over a [`Planner`], which has what plans are made from,
//!
//! - [`find_each`] finds what each name stands for, and [`check_known`] tests that all of it is
//!   known;
//! - [`planned_answer`] finds the modules that are planned for what was found, and their order or a
//!   cycle;
//! - [`chosen_command`] is the command that is run in place of loading a module.
//!
//! A module needs those of its dependency line, and those that its soft dependencies name and that
//! can be loaded. Only planned modules are asked for what they need.
//!
//! The crate builds on `plan_sources` for what plans are made from and what the names of soft
//! dependencies stand for, on `dependency_lines` for the modules, on `name_lookup` for what was
//! found, and on `plan_order` for the order of modules by their places in the tree.
#![tactic(auto)]

mod fault;
mod members;
mod needs;
mod planned;

pub use fault::ResolveFault;
pub use members::{check_known, chosen_command, find_each};
pub use plan_sources::{Planner, RuleTable};
pub use planned::{Planning, planned_answer};
