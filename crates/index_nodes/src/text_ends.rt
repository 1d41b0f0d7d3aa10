ghost use Rattle.std.specs.Prelude.{◌≡◌, ◌+◌, ◌/◌, ◌≤◌, length, IfOk};
ghost use Rattle.index_nodes.specs.TextEnds.{block_start, IsTextEnd, AreTextEnds};

use km_names::{first_nul, near_nul};
use std::alloc::{AllocError, Global};

/// The bytes of one block.
const BLOCK: usize = 1024;

/// Where the texts of a file end, each before its first NUL or at the end of the file. For every
/// block of the file it has the end of the text that begins with the block. So the end of any text
/// is found within one block, however many texts share it.
#[derive(Drop)]
pub(crate) struct TextEnds {
    pub(crate) ends: Vec<usize>,
}

/// Returns where a block of a file begins, or the end of the file if that is before.
fn start_of(bytes: &[u8], block: usize) -> usize
    requires { block ≤ length bytes.now / BLOCK + 1 }
    ensures { result ≡ block_start bytes.now block }
{
    (block * BLOCK).min(bytes.len())
}

/// Returns where the text from `start` on ends, by the end of the text from a later place on.
fn earlier_end(bytes: &[u8], start: usize, later: usize, later_end: usize) -> usize
    requires order { start ≤ later }
    requires within { later ≤ length bytes.now }
    requires end { IsTextEnd bytes.now later later_end }
    ensures { IsTextEnd bytes.now start result }
{
    match first_nul(&bytes[start..later]) {
        Some(place) => start + place,
        None => later_end,
    }
}

impl TextEnds {
    /// Finds the ends of the texts of these bytes.
    pub(crate) fn new(alloc: Global, bytes: &[u8]) -> Result<TextEnds, AllocError>
        ensures { IfOk result (AreTextEnds bytes.now) }
    {
        let count = bytes.len() / BLOCK + 2;
        let mut end = bytes.len();
        let mut ends = vec![in alloc; end; count]?;
        for block in (0..count - 1).rev() {
            end = earlier_end(
                bytes,
                start_of(bytes, block),
                start_of(bytes, block + 1),
                end,
            );
            ends[block] = end;
        }
        Ok(TextEnds { ends })
    }

    /// Returns where the text from a place on ends.
    #[inline(always)]
    pub(crate) fn end(&self, bytes: &[u8], start: usize) -> usize
        requires ends { AreTextEnds bytes.now self.now }
        requires within { start ≤ length bytes.now }
        ensures { IsTextEnd bytes.now start result }
    {
        match near_nul(&bytes[start..]) {
            Some(place) => start + place,
            None => self.far_end(bytes, start),
        }
    }

    /// Returns the same, by the end of the text that begins with the next block.
    fn far_end(&self, bytes: &[u8], start: usize) -> usize
        requires ends { AreTextEnds bytes.now self.now }
        requires within { start ≤ length bytes.now }
        ensures { IsTextEnd bytes.now start result }
    {
        let next = start / BLOCK + 1;
        earlier_end(bytes, start, start_of(bytes, next), self.ends[next])
    }
}
