ghost use Rattle.std.specs.Prelude.{◌≡◌, ℕ, ◌<◌, ◌^◌, ◌/◌, ◌==◌, ◌||◌, vec_len, IfOk, false};
ghost use Rattle.index_nodes.specs.Visited.{has_place};

use std::alloc::{AllocError, Global};

/// The places of one word.
const WORD_BITS: usize = 64;

/// A set of places of a file, with one bit a place.
#[derive(Drop)]
pub(crate) struct PlaceSet {
    words: Vec<u64>,
}

impl PlaceSet {
    /// Makes the empty set, with room for the places of this many bytes and for their end.
    pub(crate) fn new(alloc: Global, len: usize) -> Result<PlaceSet, AllocError>
        requires { len < 2 ^ 63 }
        ensures empty { IfOk result (λ set. (place : ℕ) → has_place set place ≡ false) }
        ensures room { IfOk result (λ set. len / 64 < vec_len set.words) }
    {
        let words = vec![in alloc; 0u64; len / WORD_BITS + 1]?;
        Ok(PlaceSet { words })
    }

    /// Returns whether the set has the place.
    pub(crate) fn has(&self, place: usize) -> bool
        ensures { result ≡ has_place self.now place }
    {
        let index = place / WORD_BITS;
        if index < self.words.len() {
            self.words[index] >> (place % WORD_BITS) & 1 == 1
        } else {
            false
        }
    }

    /// Adds a place for which there is room.
    pub(crate) fn add(&mut self, place: usize)
        requires { place / 64 < vec_len self.old.words }
        ensures added { (other : ℕ)
            → has_place self.new other ≡ (other == place || has_place self.old other) }
        ensures room { vec_len self.new.words ≡ vec_len self.old.words }
    {
        let index = place / WORD_BITS;
        self.words[index] |= 1 << (place % WORD_BITS);
    }
}
