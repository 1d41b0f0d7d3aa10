//! What a wildcard pattern matches, as fnmatch(3) and glob(7) describe it: only the relation
//! `Matches` in `specs/`, and the law that it is decided for each pattern and each text.
//!
//! The crate uses only std.
#![tactic(auto)]

mod laws;

pub use laws::matches_are_decided;
