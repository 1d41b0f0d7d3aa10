//! The command `static-nodes`: its course, and the function that follows it. kmod(8),
//! "static-nodes".
//!
//! It builds on `kmod_words` for what the words ask for, and on `stages_files` for the folder of
//! the modules. It builds on `devname_nodes` for the file that it reads and the lines that it
//! prints.
#![tactic(auto)]

mod course;

pub use course::static_nodes;
