//! Tests of the modelled machine: where modules and their sections are placed, the words of their
//! images, and what is in the way of a load; options that are written into copies of images;
//! removals from small machines, with their steps, and what is left after these are carried out.
//!
//! The modules that end in `_calls` have the public calls of the machine, as a user of the
//! libraries makes them: each once, by its public path, with an answer that was worked out by hand.
//! A call with a long contract is made by a function that promises nothing, so that the contract
//! isn't carried through the test.
//!
//! It builds on the crates of these, on `tree_gen` for objects with parameters, and on
//! `test_objects` for the other objects.
#![tactic(auto)]

#[cfg(test)]
mod applying;
#[cfg(test)]
mod export_calls;
#[cfg(test)]
mod fault_calls;
#[cfg(test)]
mod load_row;
#[cfg(test)]
mod loaded;
#[cfg(test)]
mod loading;
#[cfg(test)]
mod machine_calls;
#[cfg(test)]
mod param_calls;
#[cfg(test)]
mod param_row;
#[cfg(test)]
mod placement;
#[cfg(test)]
mod places;
#[cfg(test)]
mod removal_calls;
#[cfg(test)]
mod removal_row;
#[cfg(test)]
mod removals;
#[cfg(test)]
mod same;
#[cfg(test)]
mod sheets;
#[cfg(test)]
mod user_calls;
