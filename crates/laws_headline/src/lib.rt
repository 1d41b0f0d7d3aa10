//! What shows that the headline isn't empty. There is a folder of two modules for which all its
//! premises hold, computed from the bytes of the object files to the words in the images. And for
//! each premise there is a load without it that goes wrong.
//!
//! It builds on `kmod_cli`, whose clause `headline` it is about. Nothing here runs.
#![tactic(auto)]

mod laws;

pub use laws::{headline_is_met, headline_premises_are_needed};
