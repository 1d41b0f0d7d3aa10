//! Tests of plans, by the maps of a folder.
//!
//! It builds on `plan_builder`, and on `index_write` for the indexes.
#![tactic(auto)]

#[cfg(test)]
mod plans;
