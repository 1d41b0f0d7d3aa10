//! The writer of module indexes: a map from keys to values, and its file in kmod's index format
//! 2.1.
//!
//! The crate uses `km_names` and the definitions of `index_format`. The bytes written are the file
//! of the map by that format. A reader of the format finds in them each key's values and nothing
//! else.
#![tactic(auto)]

mod bytes;
mod fault;
mod file;
mod key_map;
mod lists;
mod node;
mod size;

pub use fault::WriteFault;
pub use file::encode;
pub use key_map::KeyMap;
