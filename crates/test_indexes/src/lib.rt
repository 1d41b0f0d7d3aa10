//! Tests of indexes: patterns, the nodes of a file, the file of a map, lookups of keys and
//! patterns, and what a name stands for.
//!
//! It builds on the crates of these and on what makes their indexes and rules. Bytes in hexadecimal
//! digits, keys and texts are those of `test_objects`.
#![tactic(auto)]

#[cfg(test)]
mod found;
#[cfg(test)]
mod lookups;
#[cfg(test)]
mod nodes;
#[cfg(test)]
mod patterns;
#[cfg(test)]
mod written;
