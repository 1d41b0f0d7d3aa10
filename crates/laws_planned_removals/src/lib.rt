//! What the course of a modprobe that removes modules results in: only laws.
//!
//! The listed modules go into the modelled machine, each of its file. What is refused, printed and
//! left after that is a function of the machine.
//!
//! The crate builds on `command_remove` for the course, and on `laws_planned_loads` for runs of
//! stages.
#![tactic(auto)]

mod laws;

pub use laws::{courses_remove, listed_are_taken, removal_meets_load};
