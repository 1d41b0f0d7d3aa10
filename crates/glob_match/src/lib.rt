//! Wildcard patterns over bytes: `*`, `?` and sets in brackets, as fnmatch(3) and glob(7) describe
//! them. [`matches`] decides exactly the relation `Matches` of `glob_pattern` and takes no memory.
//!
//! [`Progress`] reads a pattern byte by byte over one text, and decides the same relation for each
//! front of it. It can be saved, so that patterns that begin alike are matched together. Where many
//! patterns end alike in one file, [`Runs`] has what its long runs come to, so that each is read as
//! one. [`Ends`] has which ends of the text match what stands in the file up to the next NUL, from
//! a place in each of its blocks on, so that the rest of a pattern needn't be read. The crate uses
//! `glob_pattern` for the relation.
#![tactic(auto)]

mod ahead;
mod backward;
mod element;
mod ends;
mod meeting;
mod place;
mod progress;
mod reading;
mod runs;
mod search;
mod set;
mod set_items;
mod state;
mod words;

pub use ends::Ends;
pub use progress::{Progress, Saved};
pub use runs::Runs;
pub use search::matches;
