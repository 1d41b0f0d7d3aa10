//! Regions of addresses for modules, in whole pages. The words of a command state one, and the
//! modelled machine places modules in it.
//!
//! The crate uses only `elf_format`, for the size of a page.
#![tactic(auto)]

mod region;

pub use region::Region;
