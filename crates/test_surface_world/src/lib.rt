//! Tests of the public calls of words and of the world, as a user of the libraries makes them: each
//! once, by its public path, with an answer that was worked out by hand.
//!
//! A module of it has the calls of one layer: names and words, files and outputs, the words of the
//! commands, the tree of a trial, and what modprobe reads first. Files and outputs of a user's own
//! are in `test_streams`. It builds on `km_names`, `km_outside`, `kmod_words`, `tree_gen` and
//! `stages_known`, with the types that the last one hands out.
//!
//! A call with a long contract is made by a function that promises nothing, so that the contract
//! isn't carried through the test.
#![tactic(auto)]

#[cfg(test)]
mod known;
#[cfg(test)]
mod lists;
#[cfg(test)]
mod names;
#[cfg(test)]
mod outside;
#[cfg(test)]
mod same;
#[cfg(test)]
mod trees;
#[cfg(test)]
mod words;
