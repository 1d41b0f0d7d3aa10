//! Tests of calls in which an allocation may be refused: a load, a removal, and parameters that are
//! applied. If one is out of memory, the machine is as before, and the same call then does its
//! work.
//!
//! The gate runs them without a refusal. `tests/memory/calls` refuses each allocation in turn; then
//! what prepares a test is done again if it is out of memory, so that each run has to pass. It
//! builds on the crates whose calls these are, and on `test_objects` and `tree_gen` for modules.
#![tactic(auto)]

#[cfg(test)]
mod loads;
#[cfg(test)]
mod machines;
#[cfg(test)]
mod params;
#[cfg(test)]
mod same;
