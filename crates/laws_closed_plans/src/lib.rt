//! What loading a closed plan results in: only definitions and laws. The program's guarantee for
//! loads rests on them.
//!
//! A plan is closed over the modules that are listed as loaded if three things hold. Its modules
//! are new, each follows those that its dependency line names, and no line of modules.unmet is an
//! obstacle to it. The modules of a closed plan are loaded into the modelled machine one after the
//! other. They are refused only for lack of room in the region or for a word that doesn't fit. Each
//! strong need is bound to an export of the kernel or of a module that was loaded before it.
//!
//! The crate builds on `symbol_binding` for who provides a name and what can be wrong with a need.
//! It builds on `provider_rel` and `relation_order` for dependencies, and on `model_loader` for the
//! machine and its loads.
#![tactic(auto)]

mod laws;

pub use laws::{
    closed_plans_bind, closed_plans_pass, loads_bind, premises_are_needed, two_modules_are_closed,
};
