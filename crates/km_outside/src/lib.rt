//! The files and outputs of the machine that the program runs on: files on its disk, and streams.
//! It hands on the traits that they implement, with the files and the output in memory.
//!
//! Their contents aren't known to a contract: they only count. So what is proved over files in
//! memory holds for the same code over real files. What a real file holds, and what happens to the
//! bytes written, is trusted. The crate uses `outside_calls` and `km_names`.
#![tactic(auto)]

mod disk_files;
mod disk_listing;
mod disk_read;
mod disk_replace;
mod stream;
mod writing;

pub use disk_files::DiskFiles;
pub use outside_calls::{
    CallKind, FileAnswer, FileBuffer, Files, LIST_LIMIT, MemFiles, MemOut, Out, OutFailed, Reads,
    ReplaceAnswer, Writes,
};
pub use stream::{StdErr, StdOut, Stream};
