//! The writer of object files: a list of sections, and its relocatable object for x86-64. It also
//! has the object of a module that has only parameters.
//!
//! A section is its name, its attributes, and its content. `push_part` puts one at the end of a
//! list. `push_further` puts the section there that has the names of all sections, with those after
//! it. `file_of` writes the file header, the contents of the sections, and the section header
//! table. Numbers, zeros and texts of contents have the form that the format gives them.
//! `param_object` writes the file of the sections that state parameters.
//!
//! It builds on `elf_format` for the numbers of the format, on `km_names` for names and bytes, and
//! on `byteorder` for the place that is written last. The only error is out of memory.
#![tactic(auto)]

mod bytes;
mod file;
mod params;
mod part;
mod parts;

pub use bytes::{push_half, push_word, push_xword, push_zeros, zeros};
pub use file::file_of;
pub use params::{SheetParam, SheetParams, param_object};
pub use part::{Attributes, Part};
pub use parts::{push_further, push_part};
