//! The nodes of a module index, read in place. A file is checked once. From then on each node that
//! is read is one step on a ledger that the caller gives.
//!
//! `Nodes` keeps the bytes of a file and, for every 1024 of them, where the text that begins there
//! ends. [`Nodes::adopt`] refuses a file exactly for the first fault that a reader meets. Its time
//! is linear in the file, also if nodes overlap:
//! - The end of a prefix is found within 1024 bytes.
//! - One comparison decides whether a number of values is whole. It is with the last place from
//!   which that many are whole.
//!
//! The check keeps one such place for each number of values up to the greatest that is asked for.
//! Nothing in it calls itself.
//!
//! A writer leaves each node after all nodes below it and below its older siblings. In a file in
//! this order the places of nodes fall on a way from the root that takes the youngest child first,
//! and show that no node is visited twice. The offsets that are still to be visited on this way are
//! in a list of a fixed size. A file in another order, or with more of them, is visited once more
//! the other way, with one bit a byte for the places that were visited and an entry for each level
//! on which children are still to be visited.
//!
//! Only this crate reads the fields of an index. It uses `km_names` for numbers and names, the
//! definitions of `index_format`, `memchr` for the search of NULs, and `thiserror` for the error
//! traits.
#![tactic(auto)]

mod check;
mod fault;
mod fields;
mod in_order;
mod node;
mod nodes;
mod place;
mod place_set;
mod read;
mod run;
mod steps;
mod text_ends;
mod value_starts;

pub use fault::IndexFault;
pub use node::{Node, NodeRef};
pub use nodes::Nodes;
pub use place::Place;
pub use run::Run;
pub use steps::Steps;
