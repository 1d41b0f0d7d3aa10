ghost use Rattle.std.specs.Prelude.{◌≡◌, ℕ, ◌+◌, ◌*◌, ◌<◌, ◌≤◌, ◌&&◌, ◌||◌, not, nat_le, Bool};
ghost use Rattle.std.specs.Prelude.{false, length, slice_index, vec_len, OnOk};
ghost use Rattle.glob_match.specs.Words.{bit, is_between, HasBits, HasFront, HasPlaces, moved};
ghost use Rattle.glob_match.specs.Words.{any_up_to};
ghost use Rattle.glob_match.specs.States.{IsKept, SamePlaces};

use crate::words::{BITS, add_range, clear, cut, fill, has, keep, negate};
use std::alloc::AllocError;

/// Some places of a text, and which of their bytes are listed. There is a bit for each place from
/// the first one on, up to the last that can be there.
#[derive(Drop)]
pub(crate) struct State {
    /// The place of the first bit.
    pub(crate) first: usize,
    /// The places that are reached.
    pub(crate) reached: Vec<u64>,
    /// The places whose bytes are listed.
    pub(crate) listed: Vec<u64>,
    /// A mark for each place, while bytes are listed by a set of them.
    pub(crate) marks: Vec<u8>,
}

/// Marks the first bytes that a set has, this many, by 1, and the others by 0.
fn mark(marks: &mut Vec<u8>, bytes: &[u8], count: usize, set: &[u64]) -> Result<(), AllocError>
    requires within { count ≤ length bytes.now }
    requires set { length set.now ≡ 4 }
    ensures size { OnOk result (vec_len marks.new ≡ count) }
    ensures marks { OnOk result
        ((test : ℕ → Bool) (n : ℕ) → HasBits set.now test → n < count
        → slice_index marks.new.items n ≡ bit (test (slice_index bytes.now n))) }
{
    marks.truncate(0);
    for n in 0..count {
        marks.push(u8::from(has(set, usize::from(bytes[n]))))?;
    }
    Ok(())
}

impl State {
    /// Lists no byte.
    pub(crate) fn unlist(&mut self)
        ensures same { SamePlaces self.old self.new }
        ensures listed { HasBits self.new.listed.items (λ n. false) }
    {
        clear(&mut self.listed);
    }

    /// Lists the bytes in a range.
    pub(crate) fn list(&mut self, bytes: &[u8], size: usize, low: u8, high: u8)
        requires kept { IsKept size self.old }
        requires padded { size + BITS ≤ length bytes.now }
        ensures same { SamePlaces self.old self.new }
        ensures listed { (test : ℕ → Bool) → HasBits self.old.listed.items test
            → HasBits self.new.listed.items
            (λ n. test n || is_between low high (slice_index bytes.now (self.old.first + n))) }
    {
        add_range(&mut self.listed, &bytes[self.first..], low, high);
    }

    /// Lists the bytes that a set has.
    pub(crate) fn list_set(
        &mut self,
        bytes: &[u8],
        size: usize,
        set: &[u64],
    ) -> Result<(), AllocError>
        requires kept { IsKept size self.old }
        requires padded { size + BITS ≤ length bytes.now }
        requires set { length set.now ≡ 4 }
        ensures same { OnOk result (SamePlaces self.old self.new) }
        ensures listed { OnOk result
            ((test list : ℕ → Bool) → HasBits self.old.listed.items test → HasBits set.now list
            → HasBits self.new.listed.items
            (λ n. test n || list (slice_index bytes.now (self.old.first + n)))) }
    {
        let count = self.listed.len() * BITS;
        mark(&mut self.marks, &bytes[self.first..], count, set)?;
        self.list_marked();
        Ok(())
    }

    /// Lists the bytes at the places that are marked.
    fn list_marked(&mut self)
        requires { BITS * vec_len self.old.listed ≤ vec_len self.old.marks }
        ensures same { SamePlaces self.old self.new }
        ensures listed { (test : ℕ → Bool) → HasBits self.old.listed.items test
            → HasBits self.new.listed.items
            (λ n. test n || is_between 1 1 (slice_index self.old.marks.items n)) }
    {
        add_range(&mut self.listed, &self.marks, 1, 1);
    }

    /// Lists the other bytes.
    pub(crate) fn list_others(&mut self)
        ensures same { SamePlaces self.old self.new }
        ensures listed { (test : ℕ → Bool) → HasBits self.old.listed.items test
            → HasBits self.new.listed.items (λ n. not (test n)) }
    {
        negate(&mut self.listed);
    }

    /// Drops the places after the text.
    fn cut(&mut self, size: usize)
        requires low { self.old.first ≤ size }
        requires same { vec_len self.old.reached ≡ vec_len self.old.listed }
        ensures kept { IsKept size self.new }
        ensures places { (test : ℕ → Bool)
            → HasFront self.old.first size self.old.reached.items test
            → HasPlaces self.new.first self.new.reached.items (λ n. nat_le n size && test n) }
    {
        let last = size - self.first;
        if last / BITS < self.reached.len() {
            self.reached.truncate(last / BITS + 1);
            self.listed.truncate(last / BITS + 1);
            cut(&mut self.reached, last);
        }
    }

    /// Moves on by one byte, from the places whose byte is listed.
    pub(crate) fn take(&mut self, size: usize)
        requires { IsKept size self.old }
        ensures kept { IsKept size self.new }
        ensures places { (test list : ℕ → Bool)
            → HasPlaces self.old.first self.old.reached.items test
            → HasBits self.old.listed.items (λ n. list (self.old.first + n))
            → HasPlaces self.new.first self.new.reached.items
            (λ n. nat_le n size && moved test list n) }
    {
        if self.first == size {
            self.reached.truncate(0);
            self.listed.truncate(0);
            return;
        }
        keep(&mut self.reached, &self.listed);
        self.first += 1;
        self.cut(size);
    }

    /// Adds all places after one that is reached.
    pub(crate) fn fill(&mut self, size: usize) -> Result<(), AllocError>
        requires { IsKept size self.old }
        ensures kept { OnOk result (IsKept size self.new) }
        ensures places { OnOk result
            ((test : ℕ → Bool) → HasPlaces self.old.first self.old.reached.items test
            → HasPlaces self.new.first self.new.reached.items
            (λ n. nat_le n size && any_up_to test n)) }
    {
        let count = (size - self.first) / BITS + 1;
        self.reached.resize(count, 0)?;
        self.listed.resize(count, 0)?;
        fill(&mut self.reached);
        self.cut(size);
        Ok(())
    }

    /// Returns whether the end of the text is reached.
    pub(crate) fn has(&self, size: usize) -> bool
        requires { IsKept size self.now }
        ensures { (test : ℕ → Bool) → HasPlaces self.now.first self.now.reached.items test
            → result ≡ test size }
    {
        let last = size - self.first;
        last / BITS < self.reached.len() && has(&self.reached, last)
    }
}
