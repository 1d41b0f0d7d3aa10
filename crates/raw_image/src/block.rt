// One block of bytes from the heap. This is the only file with a pointer.
ghost use Rattle.std.specs.Prelude.{◌≡◌, ℕ, List, length, ◌+◌, ◌^◌, ◌<◌, ◌≤◌, replicate, IfOk};
ghost use Rattle.raw_image.specs.Bytes.{with_bytes};
ghost use Rattle.raw_image.specs.Ownership.{block_owns, block_shares};

use std::alloc::{AllocError, Allocator, Global};
use std::marker::Model;

/// A block of `len` bytes.
pub(crate) struct Block {
    ptr: *mut u8,
    len: usize,
    pub ghost bytes: { List ℕ },
    ghost ok: { len ≡ length bytes },
}

impl Model for Block {
    ghost also_owns = { λ b. block_owns b.ptr b.len b.bytes };

    ghost also_shares = { λ b _ κ. block_shares b.ptr b.len b.bytes κ };
}

impl Block {
    /// Returns a block of `len` zero bytes.
    pub(crate) fn zeroed(alloc: &Global, len: usize) -> Result<Block, AllocError>
        requires { len < 2 ^ 63 }
        ensures { IfOk result (λ b. b.bytes ≡ replicate len 0) }
    {
        let ptr = match alloc.allocate(len, 1) {
            Ok(ptr) => ptr,
            Err(error) => return Err(error),
        };
        let mut at = 0;
        while at < len {
            unsafe { ptr.add(at).write(0) };
            at += 1;
        }
        Ok(Block { ptr, len })
    }

    /// Frees the block.
    pub(crate) fn free(self, alloc: &Global) {
        let Block { ptr, len } = self;
        unsafe { alloc.deallocate(ptr, len, 1) };
    }

    /// Writes the bytes at place `at`.
    pub(crate) fn copy_in(&mut self, at: usize, bytes: &[u8])
        requires { at + length bytes.now ≤ length self.old.bytes }
        ensures { self.new.bytes ≡ with_bytes self.old.bytes at bytes.now }
    {
        let to = unsafe { self.ptr.add(at) };
        let mut i = 0;
        while i < bytes.len() {
            unsafe { to.add(i).write(bytes[i]) };
            i += 1;
        }
    }

    /// Writes four bytes at place `at`, by one write.
    pub(crate) fn put_four(&mut self, at: usize, four: [u8; 4])
        requires { at + 4 ≤ length self.old.bytes }
        ensures { self.new.bytes ≡ with_bytes self.old.bytes at four }
    {
        unsafe { (self.ptr.add(at) as *mut [u8; 4]).write(four) };
    }

    /// Writes eight bytes at place `at`, by one write.
    pub(crate) fn put_eight(&mut self, at: usize, eight: [u8; 8])
        requires { at + 8 ≤ length self.old.bytes }
        ensures { self.new.bytes ≡ with_bytes self.old.bytes at eight }
    {
        unsafe { (self.ptr.add(at) as *mut [u8; 8]).write(eight) };
    }

    /// Returns the bytes.
    pub(crate) fn as_bytes(&self) -> &[u8]
        ensures { result.now ≡ self.now.bytes }
    {
        unsafe { std::slice::from_raw_parts(self.ptr, self.len) }
    }
}
