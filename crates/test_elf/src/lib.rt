//! Tests of object files: their sections, symbols and places, the first fault of a file that is
//! refused, and the texts of faults; and of bytes that are made: images and the words of
//! relocations in them, objects of sheets, and the made tree of a trial.
//!
//! It builds on `elf_object`, `raw_image`, `x86_relocate` and `tree_gen`, and on `test_objects` for
//! an object.
#![tactic(auto)]

#[cfg(test)]
mod formulas;
#[cfg(test)]
mod images;
#[cfg(test)]
mod made_trees;
#[cfg(test)]
mod objects;
#[cfg(test)]
mod patches;
#[cfg(test)]
mod sheet_objects;
