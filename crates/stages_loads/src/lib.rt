//! Loads of modules into the modelled machine, as modprobe does them. They are the machine of a
//! kernel's tables, the modules that are listed as loaded, and the modules of a plan, each with its
//! image and its line. modprobe(8).
//!
//! Each is a stage of a course. The crate builds on `km_course` for the relation between a call and
//! its stage, on `stages_files` for tables and indexes, and on `module_facts` for modules. It
//! builds on `model_loader` for the machine, on `param_apply` for parameters, and on `sha2` and
//! `hex` for the digests of images.
#![tactic(auto)]

mod listed;
mod load;
mod machine;
mod module;
mod shown;

pub use listed::{load_listed, load_listed_at};
pub use load::{Cause, Insertion, Insertions, load_all};
pub use machine::read_machine;
pub use shown::{Images, entry_line};
