//! Tests of what is read of one module: its fields, its facts, the faults of modules that are
//! refused, and what is shown of it.
//!
//! It builds on `modinfo_fields`, `module_facts` and `modinfo_tool`, and on `test_objects` for the
//! objects.
#![tactic(auto)]

#[cfg(test)]
mod facts;
#[cfg(test)]
mod facts_row;
#[cfg(test)]
mod faults;
#[cfg(test)]
mod fields;
#[cfg(test)]
mod modules;
#[cfg(test)]
mod same;
#[cfg(test)]
mod shown;
