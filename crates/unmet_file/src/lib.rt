//! The file modules.unmet: the obstacles to loading modules of a tree, a line each. `depmod` writes
//! it, and `modprobe` reads it.
//!
//! The text of a line is defined once, for the writer and the reader, and what is written is read
//! back. The crate uses `symbol_binding` for the meaning of the lines, and `km_names` for lines and
//! words.
#![tactic(auto)]

mod kind;
mod laws;
mod line;
mod unmet;

pub use kind::LineKind;
pub use laws::{lines_are_read_back, texts_of_lines};
pub use line::three_words;
pub use unmet::Unmet;
