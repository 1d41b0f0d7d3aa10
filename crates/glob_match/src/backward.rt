ghost use Rattle.std.specs.Prelude.{◌≡◌, ◌≢◌, ℕ, ◌+◌, ◌*◌, ◌/◌, ◌<◌, ◌≤◌, List, ◌∷◌, length};
ghost use Rattle.std.specs.Prelude.{slice_index, vec_len, IfOk};
ghost use Rattle.glob_pattern.specs.Pattern.{bracket, closing};
ghost use Rattle.glob_match.specs.Words.{HasBits};
ghost use Rattle.glob_match.specs.Progress.{IsText};
ghost use Rattle.glob_match.specs.Ends.{is_end};
ghost use Rattle.glob_match.specs.Backward.{AreSized, IsReady, IsBackward};

use crate::ahead::Ahead;
use crate::words::{BITS, fill_down, keep_range, set_only, shift_down};
use std::alloc::{AllocError, Global};

/// Which ends of one text match a file, as a pattern, from a place on up to the next NUL. It goes
/// from the file's last byte to its first.
#[derive(Drop)]
pub(crate) struct Backward {
    /// The place of the next NUL, or the end of the file.
    pub(crate) to: usize,
    /// The places from which on the text matches.
    pub(crate) ends: Vec<u64>,
    pub(crate) ahead: Ahead,
}

/// Goes back by a byte that opens no set.
fn take_byte(ends: &mut [u64], bytes: &[u8], size: usize, byte: u8)
    requires ends { length ends.old ≡ size / 64 + 1 }
    requires padded { size + BITS ≤ length bytes.now }
    requires byte { byte ≢ bracket }
    ensures { (text pattern : List ℕ) → IsText text bytes.now size
        → HasBits ends.old (is_end pattern text) → HasBits ends.new (is_end (byte ∷ pattern) text) }
{
    match byte {
        b'*' => fill_down(ends),
        b'?' => shift_down(ends),
        own => {
            shift_down(ends);
            keep_range(ends, bytes, own, own);
        }
    }
}

impl Backward {
    /// Begins at the end of a file, for a text of this size.
    pub(crate) fn new(alloc: Global, to: usize, size: usize) -> Result<Backward, AllocError>
        ensures ready { (file : List ℕ) → length file ≡ to → IfOk result (IsReady size file to) }
        ensures begun { (file text : List ℕ) → length text ≡ size
            → IfOk result (IsBackward file text to) }
    {
        let count = size / BITS + 1;
        let mut ends = vec![in alloc; 0u64; count]?;
        set_only(&mut ends, size);
        Ok(Backward {
            to,
            ends,
            ahead: Ahead::new(alloc, to, count)?,
        })
    }

    /// Goes back by the byte at a place.
    pub(crate) fn go_back(&mut self, file: &[u8], at: usize, bytes: &[u8], size: usize)
        requires ready { IsReady size file.now (at + 1) self.old }
        requires padded { size + BITS ≤ length bytes.now }
        ensures ready { IsReady size file.now at self.new }
        ensures back { (text : List ℕ) → IsText text bytes.now size
            → IsBackward file.now text (at + 1) self.old → IsBackward file.now text at self.new }
    {
        match file[at] {
            0 => self.begin_at(at, size),
            b']' => self.close(at, bytes, size),
            b'[' => {
                self.ahead.take_set(&mut self.ends, file, at, self.to, size);
                self.ahead.go_back(file, at, self.to, bytes, size);
            }
            byte => {
                take_byte(&mut self.ends, bytes, size, byte);
                self.ahead.go_back(file, at, self.to, bytes, size);
            }
        }
    }

    /// Begins a pattern that ends at a place.
    fn begin_at(&mut self, at: usize, size: usize)
        requires { vec_len self.old.ends ≡ size / 64 + 1 }
        ensures ready { (file : List ℕ) → at ≤ length file → AreSized (size / 64 + 1) self.old.ahead
            → IsReady size file at self.new }
        ensures begun { (file text : List ℕ) → length text ≡ size
            → IsBackward file text at self.new }
    {
        self.to = at;
        self.ahead.close = at;
        set_only(&mut self.ends, size);
    }

    /// Goes back by a `]`.
    fn close(&mut self, at: usize, bytes: &[u8], size: usize)
        requires ends { vec_len self.old.ends ≡ size / 64 + 1 }
        requires sized { AreSized (size / 64 + 1) self.old.ahead }
        requires padded { size + BITS ≤ length bytes.now }
        ensures ready { (file : List ℕ) → at < self.old.to → self.old.to ≤ length file
            → IsReady size file at self.new }
        ensures back { (file text : List ℕ) → at < self.old.to → self.old.to ≤ length file
            → slice_index file at ≡ closing → IsText text bytes.now size
            → IsBackward file text (at + 1) self.old → IsBackward file text at self.new }
    {
        shift_down(&mut self.ends);
        self.ahead.close(at, &self.ends, size);
        keep_range(&mut self.ends, bytes, b']', b']');
    }
}
