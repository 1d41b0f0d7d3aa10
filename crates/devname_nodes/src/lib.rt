//! The device nodes that modules of a tree ask for, so that the device's first user loads its
//! module. They are stated in the modules' aliases and in the file modules.devname, which `depmod`
//! writes and which is read back.
//!
//! A module that makes a device node has an alias `devname:DEVICE` and one of its device number,
//! `char-major-M-N` or `block-major-M-N`. The text of a node's line is defined once, for the writer
//! and the reader, and what is written of a tree is read back. The crate builds on `km_names` for
//! lines and words, on `unmet_file` for the words of a line, and on `provider_rel` for the facts of
//! a tree.
#![tactic(auto)]

mod alias;
mod laws;
mod line;
mod node;
mod number;
mod read;
mod text;

pub use laws::nodes_are_read_back;
pub use node::{Node, NodeList, nodes};
pub use read::read_nodes;
pub use text::{node_lines, nodes_text};
