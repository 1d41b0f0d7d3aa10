ghost use Rattle.std.specs.Prelude.{◌≡◌, ◌≤◌, ◌+◌, length, replicate, IfOk};
ghost use Rattle.std.specs.Int.{to_le_bytes, w32, w64};
ghost use Rattle.raw_image.specs.Bytes.{with_bytes};

use crate::block::Block;
use std::alloc::{AllocError, Global};
use std::marker::Model;

/// The bytes of a module in memory. Contracts see it as the list of its bytes, and its length stays
/// the same.
pub struct Image {
    block: Option<Block>,
    alloc: Global,
}

impl Model for Image {
    ghost use Rattle.std.specs.Prelude.{List, ℕ, []};
    ghost use Rattle.std.specs.Option.{option_map_or};

    ghost Value = { List ℕ };

    ghost view = { λ i. option_map_or (λ b. b.bytes) i.block [] };
}

impl Drop for Image {
    fn drop(self) {
        let Image { block, alloc } = self;
        if let Some(block) = block {
            block.free(&alloc);
        }
    }
}

impl Image {
    /// Returns an image of `len` zero bytes.
    pub fn zeroed(alloc: Global, len: usize) -> Result<Self, AllocError>
        ensures { IfOk result (λ i. i ≡ replicate len 0) }
    {
        if len == 0 {
            return Ok(Image { block: None, alloc });
        }
        if len > isize::MAX as usize {
            return Err(AllocError);
        }
        let block = Some(Block::zeroed(&alloc, len)?);
        Ok(Image { block, alloc })
    }

    /// Writes the bytes at place `at`. Every other byte is as before.
    pub fn copy_in(&mut self, at: usize, bytes: &[u8])
        requires { at + length bytes.now ≤ length self.old }
        ensures bytes { self.new ≡ with_bytes self.old at bytes.now }
        ensures len { length self.new ≡ length self.old }
    {
        if let Some(block) = &mut self.block {
            block.copy_in(at, bytes);
        }
    }

    /// Writes the four bytes of `v`, the lowest first, at place `at`. Every other byte is as
    /// before.
    pub fn put_u32(&mut self, at: usize, v: u32)
        requires { at + 4 ≤ length self.old }
        ensures bytes { self.new ≡ with_bytes self.old at (to_le_bytes w32 v) }
        ensures len { length self.new ≡ length self.old }
    {
        if let Some(block) = &mut self.block {
            block.put_four(at, v.to_le_bytes());
        }
    }

    /// Writes the eight bytes of `v`, the lowest first, at place `at`. Every other byte is as
    /// before.
    pub fn put_u64(&mut self, at: usize, v: u64)
        requires { at + 8 ≤ length self.old }
        ensures bytes { self.new ≡ with_bytes self.old at (to_le_bytes w64 v) }
        ensures len { length self.new ≡ length self.old }
    {
        if let Some(block) = &mut self.block {
            block.put_eight(at, v.to_le_bytes());
        }
    }

    /// Returns the bytes of the image.
    pub fn as_bytes(&self) -> &[u8]
        ensures { result.now ≡ self.now }
    {
        match &self.block {
            Some(block) => block.as_bytes(),
            None => &[],
        }
    }
}
