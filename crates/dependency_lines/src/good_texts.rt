// Texts of dependency lines that were found good.
ghost use Rattle.std.specs.Prelude.{◌≡◌, ◌<◌, ℕ, List, Bool, true, length, IfOk};
ghost use Rattle.dependency_lines.specs.GoodPaths.{AreKept};

use km_names::be_u32_at;
use std::alloc::{AllocError, Global};

/// How many texts are kept at most.
const SLOTS: usize = 1024;

/// Some of the texts that passed a test, as paths do that are those of known modules. Many lines
/// have the same paths, also one after the other, so most are found here and not tested again. Each
/// text has one slot, where it replaces the text that was there before. So a text that lost its
/// slot is tested again, and nothing else depends on the slots.
#[derive(Drop)]
pub(crate) struct GoodTexts<'a> {
    pub(crate) slots: Vec<&'a [u8]>,
}

impl<'a> GoodTexts<'a> {
    /// Makes a table that keeps no text. It takes no memory.
    pub(crate) fn without_slots(alloc: Global) -> Self
        ensures { (test : List ℕ → Bool) → AreKept test result.slots.items }
    {
        GoodTexts {
            slots: Vec::new(alloc),
        }
    }

    /// Makes a table that has no text yet.
    pub(crate) fn new(alloc: Global) -> Result<Self, AllocError>
        ensures { IfOk result (λ texts. (test : List ℕ → Bool) → AreKept test texts.slots.items) }
    {
        let mut slots = Vec::with_capacity(alloc, SLOTS)?;
        for _ in 0..SLOTS {
            slots.push(b"".as_slice())?;
        }
        Ok(GoodTexts { slots })
    }

    /// Returns what a slot has, nothing if there is no such slot.
    fn text_at(&self, slot: usize) -> &'a [u8]
        ensures { (test : List ℕ → Bool) → AreKept test self.now.slots.items → 0 < length result.now
            → test result.now ≡ true }
    {
        if slot < self.slots.len() {
            self.slots[slot]
        } else {
            b""
        }
    }

    /// Returns whether a slot has this text.
    pub(crate) fn has(&self, slot: usize, text: &[u8]) -> bool
        ensures { result ≡ true → (test : List ℕ → Bool) → AreKept test self.now.slots.items
            → test text.now ≡ true }
    {
        !text.is_empty() && self.text_at(slot) == text
    }

    /// Puts a text into a slot, if there is such a slot.
    pub(crate) fn put(&mut self, slot: usize, text: &'a [u8])
        ensures { (test : List ℕ → Bool) → AreKept test self.old.slots.items → test text.now ≡ true
            → AreKept test self.new.slots.items }
    {
        if slot < self.slots.len() {
            self.slots[slot] = text;
        }
    }
}

/// Returns the slot of a text with this hash.
pub(crate) fn slot_of(hash: usize) -> usize {
    (hash >> 22) % SLOTS
}

/// Returns a hash of a text in the low 32 bits. It is by the last bytes of the last name, in which
/// most paths differ, and by the length.
pub(crate) fn hash_of(text: &[u8]) -> usize {
    if text.len() < 11 {
        return text.len();
    }
    let front = be_u32_at(text, text.len() - 11);
    let back = be_u32_at(text, text.len() - 7);
    let sum = (front.wrapping_add(back) as usize).wrapping_add(text.len());
    sum.wrapping_mul(0x9E37_79B1)
}
