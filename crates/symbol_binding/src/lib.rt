//! How the symbols of modules are bound:
//!
//! - who provides a name;
//! - which exports a module sees and may use;
//! - what can be wrong with a need;
//! - the lines of modules.unmet.
//!
//! These are definitions, with the few tests on single exports that code makes. The relation over a
//! whole tree and the modelled loader cite the same ones, so an obstacle line and a refusal of a
//! load are the same test. The crate uses `km_names` for names and paths.
#![tactic(auto)]

mod needs;
mod unbound;
mod worked;

pub use needs::{agree, may_use, sees};
pub use unbound::{Obstacles, Unbound};
pub use worked::lines_of_small_trees;
