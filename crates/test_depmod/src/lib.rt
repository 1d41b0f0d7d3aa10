//! Tests of what whole runs of `depmod` write and refuse, also over a tree that was indexed before;
//! of which files they replace, where each call on the files fails in turn, and with `--extra`; and
//! of the commands that look names up in what that adds, `builtin-alias` and `static-nodes`. Each
//! runs over files and outputs in memory.
//!
//! It builds on `test_rows` for rows of whole commands, and on `test_objects` for modules.
#![tactic(auto)]

#[cfg(test)]
mod again;
#[cfg(test)]
mod extra;
#[cfg(test)]
mod extra_lookups;
#[cfg(test)]
mod extra_trees;
#[cfg(test)]
mod failing;
#[cfg(test)]
mod indexes;
#[cfg(test)]
mod indexing;
#[cfg(test)]
mod sheets;
