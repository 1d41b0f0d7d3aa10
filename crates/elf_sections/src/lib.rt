//! Reads the sections of relocatable object files of x86-64, and tests all that a file with
//! sections must have.
//!
//! `Sections::read` keeps the bytes that it gets. A contract sees the file beside the list of its
//! sections, which is a function of the file. Each number is the sum of its bytes at a computed
//! place, and each name is the bytes up to its NUL. Any file may be refused for out of memory.
//! Every other refusal is the first failing test of one list of tests over the whole file, with its
//! numbers.
//!
//! A `SectionTable` shows the sections of a file that its reader keeps: names stay in the file.
//!
//! Names may share their bytes, so they are added up before they are searched or copied. Together
//! they have at most 2^32 bytes if they stay in the file, more than any file under a megabyte has,
//! and at most [`NAME_LIMIT`] if they are copied. Otherwise the answer is out of memory. Time is
//! linear in the file and those bytes. `string_within` and `up_to_last_nul` keep it so, also for
//! the tables of other names.
//!
//! The crate uses `elf_format` for the numbers of the format, `km_names` for names and numbers,
//! `memchr` for the ends of names, and `thiserror` for the error traits. The bytes of sections
//! aren't copied. Names are copied once if they are owned.
#![tactic(auto)]

mod fault;
mod header;
mod section;
mod section_file;
mod section_table;
mod sections;
mod shape;
mod strings;

pub use fault::SectionFault;
pub use section::{Section, SectionRef};
pub use section_file::SectionFile;
pub use section_table::SectionTable;
pub use sections::Sections;
pub use strings::{NAME_LIMIT, SEARCH_LIMIT, bytes_left, string_within, up_to_last_nul};
