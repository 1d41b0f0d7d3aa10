//! Reads relocatable object files of x86-64: the sections of an ELF64 file, its symbols, and the
//! places that its relocations change.
//!
//! `Object::read` keeps the bytes that it gets. A contract sees the file beside the lists that were
//! read from it, which are functions of the file. Each number is the sum of its bytes at a computed
//! place, and each name has the bytes up to its NUL. Any file may be refused for out of memory.
//! Every other refusal is the first failing test of one list of tests over the whole file, with its
//! numbers.
//!
//! A file may come from anywhere, and names may share their bytes in it, as may tables of
//! relocations. So what may overlap is added up before it is kept. The names of the sections have
//! at most [`NAME_LIMIT`] bytes together, and so have the names of the symbols. The tables have no
//! more than four times as many as a file may have. Otherwise the answer is out of memory, before
//! more than that was copied. Time is linear in the file and those bytes.
//!
//! An `ObjectView` shows a file that passed the same tests to readers that don't load it: names
//! stay in the file, and the places are tested and not kept. It takes memory in proportion to the
//! file, so its limits only bound its time, and no file under a megabyte meets them: 2^32 bytes of
//! names of sections, 2^34 of names of symbols, and 2^33 of tables.
//!
//! The crate uses `elf_sections` for the sections, which it hands on, `elf_format` for the numbers
//! of the format, `km_names` for names and numbers, and `thiserror` for the error traits. The bytes
//! of sections aren't copied. Names are copied once if they are owned, and each table is read in
//! place.
#![tactic(auto)]

mod changed;
mod fault;
mod met;
mod object;
mod overlap;
mod parts;
mod place;
mod places;
mod shared;
mod symbol;
mod tables;
mod targets;
mod view;
mod widths;

pub use elf_sections::{NAME_LIMIT, Section, SectionFault, SectionRef, Sections};
pub use fault::ObjectFault;
pub use object::Object;
pub use place::RelaPlace;
pub use symbol::{Symbol, SymbolRef};
pub use view::ObjectView;
