//! Where the sections of a module lie in memory, and the image of a module at a base.
//!
//! Sections in memory are in three classes, each from a page on: those with code, those that are
//! only read, and the rest. An image is the bytes of these sections with the word of each
//! relocation at its place. It is made in one block: sections are copied there straight from the
//! file, and words are written one by one, so it is never held twice. Contracts see offsets, sizes
//! and images as functions of the object file.
//!
//! The crate uses `elf_object` for sections, symbols and places, `x86_relocate` for the words,
//! `raw_image` for the block, and `elf_format` and `km_names`. Any call may be out of memory. The
//! only other refusal is a word that is too wide.
#![tactic(auto)]

mod class;
mod ends;
mod fault;
mod laid;
mod layout;
mod plain;
mod symbols;

pub use fault::LayFault;
pub use laid::image_at;
pub use layout::{Layout, image_size, section_at};
pub use symbols::addresses;
