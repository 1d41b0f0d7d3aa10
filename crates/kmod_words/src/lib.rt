//! The words of the commands: what they ask for, or that they aren't understood.
//!
//! Each command is a simple command of `clap`, with only its options and words. Which options
//! exclude each other, which forms texts have and which ranges numbers have is tested here, on the
//! matches. The crate builds on `clap` for the words, and on `km_names` for lists and hexadecimal
//! numbers. The only error is out of memory.
#![tactic(auto)]

mod arguments;
mod builtin_alias;
mod depmod;
mod matches;
mod modinfo;
mod modprobe;
mod modprobe_request;
mod numbers;
mod region;
mod request;
mod static_nodes;
mod trial;

pub use builtin_alias::{BuiltinAliasWords, read_builtin_alias};
pub use depmod::{DepmodWords, read_depmod};
pub use modinfo::{ModinfoWords, read_modinfo};
pub use modprobe::{Mode, ModprobeWords};
pub use modprobe_request::read_modprobe;
pub use static_nodes::{StaticNodesWords, read_static_nodes};
pub use trial::{TrialWords, read_trial};
