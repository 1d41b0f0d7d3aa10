//! What modprobe reads before it looks a name up: its configuration, the index files of a kernel's
//! modules, soft dependencies, obstacles, and the list of loaded modules. modprobe(8).
//!
//! With it goes what the names of a request stand for. These are stages that loads, plans and
//! removals share. The crate builds on `stages_files` for the configuration and the index files, on
//! `modprobe_conf`, `unmet_file` and `loaded_list` for what the other files state, and on
//! `name_lookup` for names.
#![tactic(auto)]

mod known;
mod named;

pub use known::{Known, read_known};
pub use named::names_found;
