//! Closed plans over the files that depmod writes: only laws.
//!
//! The map of modules.dep.bin has the dependency line of each module under its name. Closed plans
//! are defined by these lines. So a plan that is closed over the lines of the map binds, when it is
//! loaded after listed modules that load. The plans that are made for requests are closed in this
//! way.
//!
//! The crate builds on `laws_closed_plans` for closed plans and what they bind, and on
//! `depmod_core` for the map. It builds on `mod_tree` for what a dependency line says, and on
//! `plan_builder` for the plans of requests.
#![tactic(auto)]

mod laws;

pub use laws::{
    folders_bind, folders_read_as_indexed, indexed_lines, indexed_plans_bind, plans_are_closed,
    written_files_stand,
};
