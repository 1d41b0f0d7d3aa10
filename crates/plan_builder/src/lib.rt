//! Plans: which modules are loaded for some names, in which order, with which parameters, and what
//! is done in place of loading them. Or what keeps the names from having a plan. modprobe(8),
//! modprobe.d(5), modules.dep(5).
//!
//! The definitions speak of:
//!
//! - the maps that a folder's index files stand for;
//! - the rules of the configuration;
//! - the lines of modules.unmet;
//! - the list of loaded modules.
//!
//! A plan looks once at each dependency line of the folder and looks up each name of a soft
//! dependency once; only planned modules are asked for what they need.
//!
//! The crate builds on `planned_modules` for what names stand for and what is planned for them in
//! which order, on `dependency_lines` for the modules of a folder, and on `symbol_binding` for the
//! lines of modules.unmet. `well_formed` comes from `dependency_lines`, `Loaded` from
//! `loaded_list`, `Unmet` from `unmet_file`, and `line_path` from `mod_tree`.
#![tactic(auto)]

mod check;
mod members;
mod obstacle;
mod planning;
mod request;
mod step;
mod steps;
mod text;

pub use dependency_lines::well_formed;
pub use loaded_list::Loaded;
pub use mod_tree::line_path;
pub use obstacle::Obstacle;
pub use planning::plan;
pub use request::Request;
pub use step::{PlanStep, PlanSteps};
pub use unmet_file::Unmet;
