//! What plans are made from, and what the names of soft dependencies stand for. modprobe.d(5),
//! modules.dep(5).
//!
//! A [`Planner`] has the rules, the index files, the lines of modules.unmet, the names of loaded
//! modules, and the modules of the folder. It finds what a name stands for, and what a dependency
//! line names. A [`RuleTable`] has the rules by the modules that they are on.
//!
//! A [`SoftTable`] gives the modules that names of soft dependencies stand for and that can be
//! loaded. A name is looked up when it is first asked for, and a module that it stands for is asked
//! once whether it can be loaded. The table keeps both.
//!
//! The crate builds on `dependency_lines` for the modules and what their lines name, on
//! `name_lookup` for what a name stands for, and on `indexmap` for the table of names, which come
//! from files and are hashed as `name_table` does.
#![tactic(auto)]

mod planner;
mod rule_table;
mod soft_table;
mod softdeps;

pub use planner::Planner;
pub use rule_table::RuleTable;
pub use soft_table::SoftTable;
