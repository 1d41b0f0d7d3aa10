//! The calls on the world outside as traits, and files and an output in memory that answer them:
//! files that the program reads, lists and replaces, and outputs that it writes to.
//!
//! A contract sees how many calls of an object were refused and, if they are known, its contents
//! and how many calls were made. Files in memory have known contents. Others, as those of the
//! machine, only count. So what is proved over known contents holds for the same code over these.
//! Files that are read one after the other may share the memory of one [`FileBuffer`].
//!
//! [`Counts`], [`Listing`] and [`rising_list`] are for types that implement the traits. The crate
//! uses `km_names`.
#![tactic(auto)]

mod calls;
mod counts;
mod file_buffer;
mod files;
mod kinds;
mod listing;
mod mem_files;
mod mem_listing;
mod mem_out;
mod out;
mod reading;
mod rising;

pub use counts::Counts;
pub use file_buffer::FileBuffer;
pub use files::{FileAnswer, Files, LIST_LIMIT, Reads, ReplaceAnswer, Writes};
pub use listing::Listing;
pub use mem_files::{CallKind, MemFiles};
pub use mem_out::MemOut;
pub use out::{Out, OutFailed};
pub use reading::RETRIES;
pub use rising::rising_list;
