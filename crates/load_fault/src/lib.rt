//! Why the modelled machine isn't made, and why it refuses a module, with the texts of refusals.
//!
//! `model_loader` finds these faults, and passes their types on. A text is what follows the name of
//! the module in a line on standard error.
//!
//! The crate uses `km_names` for names and texts, `image_layout` for the faults of images, of which
//! each is one of a load, `bstr` to show names, and `thiserror` for the error traits.
#![tactic(auto)]

mod fault;

pub use fault::{LoadFault, MachineFault};
