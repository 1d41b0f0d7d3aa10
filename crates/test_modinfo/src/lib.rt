//! Tests of whole runs of `modinfo`, by paths and by names, and of `modprobe -R`, which looks names
//! up in files of the same kind. Each runs over files and outputs in memory.
//!
//! It builds on `test_rows` for rows of whole commands, and on `test_objects` for modules.
#![tactic(auto)]

#[cfg(test)]
mod modinfo;
#[cfg(test)]
mod modinfo_names;
#[cfg(test)]
mod modprobe_names;
