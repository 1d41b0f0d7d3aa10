//! The image of a module: the bytes that it has in memory, in one block that the image owns.
//! Contracts see an [`Image`] only as the list of its bytes.
//!
//! The block is raw memory: `block.rt` is the only file with a pointer, and no pointer becomes a
//! number. An image of no bytes has no block. The crate uses only std.
#![tactic(auto)]

mod block;
mod image;

pub use image::Image;
