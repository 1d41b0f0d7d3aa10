//! Tests of words: names and paths, lists, and tables of names; the files that are lines, with who
//! may use an export, which the lines of modules.unmet are about; and the words of all commands.
//!
//! It builds on the crates of these, and on `test_objects` for files of a configuration.
#![tactic(auto)]

#[cfg(test)]
mod binding;
#[cfg(test)]
mod lists;
#[cfg(test)]
mod loaded;
#[cfg(test)]
mod names;
#[cfg(test)]
mod rules;
#[cfg(test)]
mod same;
#[cfg(test)]
mod tables;
#[cfg(test)]
mod trees;
#[cfg(test)]
mod unmet;
#[cfg(test)]
mod words;
