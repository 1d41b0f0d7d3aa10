// The set that may be open at a place of a file, by what is ahead there.
ghost use Rattle.std.specs.Prelude.{◌≡◌, ◌≢◌, ℕ, suc, ◌+◌, ◌*◌, ◌/◌, ◌<◌, ◌≤◌, List, length};
ghost use Rattle.std.specs.Prelude.{slice_index, vec_len, IfOk};
ghost use Rattle.glob_pattern.specs.Pattern.{bracket, closing};
ghost use Rattle.glob_match.specs.Words.{HasBits};
ghost use Rattle.glob_match.specs.Progress.{IsText};
ghost use Rattle.glob_match.specs.Ends.{is_end, part};
ghost use Rattle.glob_match.specs.Backward.{AreListed, IsAhead, AreSized};

use crate::words::{BITS, add_range, clear, keep, keep_others};
use std::alloc::{AllocError, Global};
use std::mem::swap;

/// What is ahead of a place up to the next `]` or the next NUL. It lists the places of the text
/// whose bytes are in a set that is closed by that `]`.
#[derive(Drop)]
pub(crate) struct Ahead {
    /// The place of that `]`, or of the NUL if it comes first.
    pub(crate) close: usize,
    /// The places right before those from which on the text matches what follows the `]`.
    pub(crate) after: Vec<u64>,
    /// The places that the items list from this place of the file on.
    pub(crate) first: Vec<u64>,
    /// The same from the next place on.
    pub(crate) second: Vec<u64>,
    /// The same from the place after that on.
    pub(crate) third: Vec<u64>,
}

/// Finds the places that the items list from a place of the file on. `listed` has those that they
/// list from the third place after it on, and `next` those from the next place on.
fn add_item(listed: &mut [u64], next: &[u64], file: &[u8], at: usize, close: usize, bytes: &[u8])
    requires inside { at < close }
    requires within { close < length file.now }
    requires padded { BITS * length listed.old ≤ length bytes.now }
    requires size { length next.now ≡ length listed.old }
    ensures { (text : List ℕ) → ((n : ℕ) → slice_index bytes.now n ≡ slice_index text n)
        → AreListed file.now text (at + 1) close next.now
        → (at + 3 ≤ close → AreListed file.now text (at + 3) close listed.old)
        → AreListed file.now text at close listed.new }
{
    if close > at + 2 && file[at + 1] == b'-' {
        add_range(listed, bytes, file[at], file[at + 2]);
    } else {
        listed.copy_from_slice(next);
        add_range(listed, bytes, file[at], file[at]);
    }
}

impl Ahead {
    /// Begins at the end of a pattern, with so many words in each list.
    pub(crate) fn new(alloc: Global, close: usize, count: usize) -> Result<Ahead, AllocError>
        ensures sized { IfOk result (AreSized count) }
        ensures close { IfOk result (λ a. a.close ≡ close) }
    {
        Ok(Ahead {
            close,
            after: vec![in alloc; 0u64; count]?,
            first: vec![in alloc; 0u64; count]?,
            second: vec![in alloc; 0u64; count]?,
            third: vec![in alloc; 0u64; count]?,
        })
    }

    /// Goes back by the byte at a place, which closes no set.
    pub(crate) fn go_back(&mut self, file: &[u8], at: usize, to: usize, bytes: &[u8], size: usize)
        requires inside { at < to }
        requires within { to ≤ length file.now }
        requires item { slice_index file.now at ≢ closing }
        requires padded { size + BITS ≤ length bytes.now }
        requires sized { AreSized (size / 64 + 1) self.old }
        ensures sized { AreSized (size / 64 + 1) self.new }
        ensures ahead { (text : List ℕ) → IsText text bytes.now size
            → IsAhead file.now text (at + 1) to self.old → IsAhead file.now text at to self.new }
    {
        if self.close <= at || self.close >= to {
            return;
        }
        add_item(&mut self.third, &self.first, file, at, self.close, bytes);
        swap(&mut self.second, &mut self.third);
        swap(&mut self.first, &mut self.second);
    }

    /// Goes back by a `]`, by the places right before those from which on the text matches what
    /// follows it.
    pub(crate) fn close(&mut self, at: usize, after: &[u64], size: usize)
        requires sized { AreSized (size / 64 + 1) self.old }
        requires after { length after.now ≡ size / 64 + 1 }
        ensures sized { AreSized (size / 64 + 1) self.new }
        ensures ahead { (file text : List ℕ) (to : ℕ) → at < to → slice_index file at ≡ closing
            → HasBits after.now (λ t. is_end (part file (at + 1) to) text (suc t))
            → IsAhead file text at to self.new }
    {
        self.close = at;
        self.after.copy_from_slice(after);
        clear(&mut self.first);
    }

    /// Finds the places from which on the text matches the file from a `[` on.
    pub(crate) fn take_set(&self, ends: &mut [u64], file: &[u8], at: usize, to: usize, size: usize)
        requires inside { at < to }
        requires within { to ≤ length file.now }
        requires bracket { slice_index file.now at ≡ bracket }
        requires sized { AreSized (size / 64 + 1) self.now }
        requires ends { length ends.old ≡ size / 64 + 1 }
        ensures { (text : List ℕ) → length text ≡ size → IsAhead file.now text (at + 1) to self.now
            → HasBits ends.new (is_end (part file.now at to) text) }
    {
        if self.close >= to {
            clear(ends);
            return;
        }
        ends.copy_from_slice(&self.after);
        if self.close > at + 1 && file[at + 1] == b'!' {
            keep_others(ends, &self.second);
        } else {
            keep(ends, &self.first);
        }
    }
}
