//! The command `modprobe`: its course, and the function that follows it. modprobe(8).
//!
//! It builds on `kmod_words` for what the words ask for, on `stages_files` for the files that it
//! reads, and on `modprobe_conf`, `unmet_file` and `loaded_list` for what they state. It builds on
//! `stages_known` for the modules that a name stands for, on `plan_builder` for plans, on
//! `stages_loads` for loads, and on `command_remove` for removals.
#![tactic(auto)]

mod basis;
mod course;
mod load;
mod plan;
mod resolve_alias;

pub use course::modprobe;
