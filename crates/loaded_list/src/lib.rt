//! The list of loaded modules, in the form of /proc/modules: a line for each module, which begins
//! with the module's name.
//!
//! The crate uses `km_names` for lines and words.
#![tactic(auto)]

mod loaded;

pub use loaded::Loaded;
