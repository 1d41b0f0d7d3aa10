//! Tests of the public calls of relations, as a user of the libraries makes them: each once, by its
//! public path, with an answer that was worked out by hand.
//!
//! A module of it has the calls of one layer: the tables of kernels, the relation of a tree with
//! depmod's files, what modules state for others to find them by, and device nodes. It builds on
//! the crates whose calls these are.
//!
//! A call with a long contract is made by a function that promises nothing, so that the contract
//! isn't carried through the test.
#![tactic(auto)]

#[cfg(test)]
mod kernels;
#[cfg(test)]
mod lists;
#[cfg(test)]
mod nodes;
#[cfg(test)]
mod relation;
#[cfg(test)]
mod same;
#[cfg(test)]
mod stated;
