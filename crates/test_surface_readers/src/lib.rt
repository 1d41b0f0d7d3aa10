//! Tests of the public calls of readers and writers of one format, as a user of the libraries makes
//! them: each once, by its public path, with an answer that was worked out by hand.
//!
//! A module of it has the calls of one layer: objects and facts, written objects, symbols, indexes,
//! and built-in modules. It builds on the crates whose calls these are, and on `test_objects` for
//! small modules that are written out.
//!
//! A call with a long contract is made by a function that promises nothing, so that the contract
//! isn't carried through the test.
#![tactic(auto)]

#[cfg(test)]
mod builtin;
#[cfg(test)]
mod indexes;
#[cfg(test)]
mod objects;
#[cfg(test)]
mod same;
#[cfg(test)]
mod symbols;
#[cfg(test)]
mod written;
