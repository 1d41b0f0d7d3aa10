//! What the modules of a tree state for others to find them by: their aliases, their soft
//! dependencies, and the symbols that they export. depmod(8), modprobe.d(5).
//!
//! Each kind has a text, a line for each thing that is stated, and aliases and symbols have the map
//! of an index. A text is put into a [`Text`], at first to measure it, and then to keep its bytes.
//!
//! The crate uses `module_facts` for what modules state, `provider_rel` for the conditions on the
//! facts of a tree, and `index_write` for maps.
#![tactic(auto)]

mod stated;
mod text;

pub use stated::{AllStated, StatedKind, put_stated_text, stated_map};
pub use text::Text;
