//! Tests of the public calls of configurations, lookups and plans, and of what plans are made from,
//! as a user of the libraries makes them: each once, by its public path, with an answer that was
//! worked out by hand.
//!
//! A module of it has the calls of one layer: the search list with the tree that it chooses;
//! dependency lines, what plans are made from, and the planned modules; and rules with the plans by
//! them. The others have what these are made with: the rules of a configuration of one file, the
//! indexes of two modules, lines of modules.unmet, and lists of names and paths. It builds on the
//! crates whose calls these are, and on `test_objects` for texts that meet the conditions of calls.
//!
//! A call with a long contract is made by a function that promises nothing, so that the contract
//! isn't carried through the test.
#![tactic(auto)]

#[cfg(test)]
mod configuration;
#[cfg(test)]
mod indexes;
#[cfg(test)]
mod lines;
#[cfg(test)]
mod lists;
#[cfg(test)]
mod planned;
#[cfg(test)]
mod plans;
#[cfg(test)]
mod same;
#[cfg(test)]
mod search;
#[cfg(test)]
mod sources;
#[cfg(test)]
mod unmet;
