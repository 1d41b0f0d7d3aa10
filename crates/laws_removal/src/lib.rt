//! What removing modules from the modelled machine results in: only laws.
//!
//! Modules that were loaded are removed youngest first without a refusal, and the machine from
//! before the loads is left. The modules of a removal are removed without a refusal, and the
//! machine with all other modules is left. If they are the modules that were loaded last, it is the
//! machine with only the others loaded.
//!
//! The crate uses `laws_closed_plans` for loads one after the other, and `model_unload` and
//! `remove_plan` for removals.
#![tactic(auto)]

mod laws;

pub use laws::{
    chains_go, commands_are_chosen, loads_are_undone, removals_pass, removals_take_back,
    unused_modules_go_too, used_modules_stay,
};
