//! The course of `modprobe -r`, and the function that follows it. Modules are taken out of the
//! modelled machine, and what is left is printed. modprobe(8).
//!
//! It builds on:
//!
//! - `stages_known` and `stages_loads` for what a load and a removal share;
//! - `plan_builder` for which lines of modules.dep.bin are well formed;
//! - `remove_plan` for the steps, and `model_unload` for what is taken out.
//!
//! That no step is refused is a law of `laws_removal`.
#![tactic(auto)]

mod course;
mod lines;
mod listed;
mod plan;
mod unloads;

pub use course::{Removal, remove};
