// The ends of a text that a pattern in a file matches, for one place in each block of the file.
ghost use Rattle.std.specs.Prelude.{◌≡◌, ℕ, ◌+◌, ◌*◌, ◌/◌, ◌<◌, ◌≤◌, ◌&&◌, ◌||◌, Bool, List};
ghost use Rattle.std.specs.Prelude.{length, vec_len, OnOk, IfSome};
ghost use Rattle.glob_match.specs.Words.{HasBits};
ghost use Rattle.glob_match.specs.Progress.{IsOver, IsWhole};
ghost use Rattle.glob_match.specs.Ends.{AreEnds, is_end, part};
ghost use Rattle.glob_match.specs.Backward.{IsBackward};

use crate::backward::Backward;
use crate::progress::Progress;
use crate::words::BITS;
use std::alloc::{AllocError, Global};

/// The bytes of a file in one block.
const BLOCK: usize = 64;

/// A part of a file, from a place up to another.
#[derive(Clone, Copy)]
pub(crate) struct End {
    pub(crate) at: usize,
    pub(crate) to: usize,
    /// The place of the first of its words.
    pub(crate) start: usize,
}

/// Which ends of one text match the bytes of a file, from some places up to the next NUL, as
/// patterns. There is one such place in each block of the file. So what many patterns share is read
/// once, wherever in it they begin.
#[derive(Drop)]
pub struct Ends {
    /// From the last place to the first.
    pub(crate) ends: Vec<End>,
    /// For each of them a bit for each place of the text.
    pub(crate) words: Vec<u64>,
}

/// Returns the first place from one on that has no `*`, or else a last one.
fn first_other(bytes: &[u8], start: usize, last: usize) -> usize
    requires { last < length bytes.now }
{
    for at in start..last {
        if bytes[at] != b'*' {
            return at;
        }
    }
    last
}

/// Returns the place of a block that is known, by the block's last place. It is the first one right
/// after a `]`, since no set is open there. If there is none, it is the first one that has no `*`,
/// since a run of `*` is read as one.
fn known_place(bytes: &[u8], last: usize) -> usize
    requires { last < length bytes.now }
{
    let start = last / BLOCK * BLOCK;
    for at in start..last {
        if bytes[at] == b']' {
            return at + 1;
        }
    }
    first_other(bytes, start, last)
}

impl Ends {
    /// Makes one that knows no place, for any file and any text.
    pub fn new(alloc: Global) -> Ends
        ensures { (bytes text : List ℕ) → AreEnds bytes text result }
    {
        Ends {
            ends: Vec::new(alloc),
            words: Vec::new(alloc),
        }
    }

    /// Finds them for a file and the text of a progress, if that wasn't done before. Each byte of
    /// the file costs some steps for every 64 bytes of the text.
    ///
    /// # Errors
    ///
    /// Out of memory. Nothing is promised of what it knows then.
    pub fn find(&mut self, bytes: &[u8], progress: &Progress) -> Result<(), AllocError>
        requires whole { IsWhole progress.now }
        requires ends { (text : List ℕ) → IsOver progress.now text
            → AreEnds bytes.now text self.old }
        ensures { OnOk result
            ((text : List ℕ) → IsOver progress.now text → AreEnds bytes.now text self.new) }
    {
        if !self.ends.is_empty() {
            return Ok(());
        }
        let alloc = *self.words.allocator();
        let mut backward = Backward::new(alloc, bytes.len(), progress.size)?;
        let mut known = 0;
        for at in (0..bytes.len()).rev() {
            if at % BLOCK == BLOCK - 1 || at + 1 == bytes.len() {
                known = known_place(bytes, at);
            }
            backward.go_back(bytes, at, &progress.bytes, progress.size);
            self.add(at, known, &backward)?;
        }
        Ok(())
    }

    /// Adds what is read of the file from a place on, if that is the one of its block.
    fn add(&mut self, at: usize, known: usize, backward: &Backward) -> Result<(), AllocError>
        ensures { OnOk result
            ((file text : List ℕ) → vec_len backward.now.ends ≡ length text / 64 + 1
            → IsBackward file text at backward.now → AreEnds file text self.old
            → AreEnds file text self.new) }
    {
        if at != known {
            return Ok(());
        }
        let start = self.words.len();
        self.words.extend_from_slice(&backward.ends)?;
        self.ends.push(End {
            at,
            to: backward.to,
            start,
        })?;
        Ok(())
    }

    /// Returns the words for a part of the file, in a text of this size.
    pub(crate) fn words(&self, at: usize, to: usize, size: usize) -> Option<&[u64]>
        ensures words { (file text : List ℕ) → length text ≡ size → AreEnds file text self.now
            → IfSome result (λ words. HasBits words.now (is_end (part file at to) text)) }
        ensures size { IfSome result (λ words. length words.now ≡ size / 64 + 1) }
    {
        let place = self.ends.len().checked_sub(at / BLOCK + 1)?;
        let end = *self.ends.get(place)?;
        if end.at != at || end.to != to {
            return None;
        }
        let last = end.start.checked_add(size / BITS + 1)?;
        if last > self.words.len() {
            return None;
        }
        Some(&self.words[end.start..last])
    }
}
