//! The relocations of the x86-64: the word that each writes, and patches applied to an image.
//!
//! [`value`] is the psABI's table as arithmetic on whole numbers. [`apply`] is one pass over the
//! patches and takes no memory. Afterwards each patch's bytes hold its word, and every other byte
//! is as before. [`write_word`] does the same for one patch, for callers that don't keep a list.
//! The crate uses `elf_format` for the types and their widths, `km_names` for the list of patches,
//! and `raw_image` for the image, which it sees as a list of bytes.
#![tactic(auto)]

mod patch;
mod word;
mod worked;

pub use patch::{Overflow, Patch, Patches, apply, write_word};
pub use word::{TooWide, Written, value};
pub use worked::worked_words;
