//! Tests of whole runs of the commands over trees that `depmod` indexed. They are those of
//! `modprobe`, with what names resolve to, plans, loads into the modelled machine, parameters and
//! removals, and those of `trial`. Each runs over files and outputs in memory. `depmod` and
//! `modprobe` are also called by themselves, as the library has them, with the words after the
//! command's name.
//!
//! It builds on `test_rows` for rows of whole commands, on `test_objects` for modules, on
//! `tree_gen` for objects with parameters, and on `kmod_cli` for the calls of the commands.
#![tactic(auto)]

#[cfg(test)]
mod depmod_calls;
#[cfg(test)]
mod failing;
#[cfg(test)]
mod loads;
#[cfg(test)]
mod loads_params;
#[cfg(test)]
mod modprobe_calls;
#[cfg(test)]
mod names;
#[cfg(test)]
mod plans;
#[cfg(test)]
mod removals;
#[cfg(test)]
mod sheets;
#[cfg(test)]
mod trials;
