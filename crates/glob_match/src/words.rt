// Sets of numbers, as bits of words: the number n is the bit n % 64 of the word n / 64.
ghost use Rattle.std.specs.Prelude.{◌≡◌, ℕ, suc, ◌+◌, ◌*◌, ◌/◌, ◌^◌, ◌<◌, ◌≤◌, ◌==◌, ◌&&◌, ◌||◌};
ghost use Rattle.std.specs.Prelude.{not, nat_le, Bool, true, false, length, map, slice_index};
ghost use Rattle.std.specs.Prelude.{IsTrue, ◌↔◌};
ghost use Rattle.std.specs.Int.{bit_at};
ghost use Rattle.std.specs.Simd.Lanes.{mask_l};
ghost use Rattle.glob_match.specs.Words.{bit, is_between, HasBits, HasPlaces, any_up_to};

use std::simd::prelude::*;

/// The bits of a word.
pub(crate) const BITS: usize = 64;

/// Drops all places.
pub(crate) fn clear(words: &mut [u64])
    ensures { HasBits words.new (λ n. false) }
{
    for at in 0..words.len() {
        words[at] = 0;
    }
}

/// Adds the places of the bytes in a range.
pub(crate) fn add_range(words: &mut [u64], bytes: &[u8], low: u8, high: u8)
    requires { BITS * length words.old ≤ length bytes.now }
    ensures { (test : ℕ → Bool) → HasBits words.old test
        → HasBits words.new (λ n. test n || is_between low high (slice_index bytes.now n)) }
{
    for at in 0..words.len() {
        words[at] |= in_range(&bytes[at * BITS..], low, high);
    }
}

/// Changes each place that is there to one that isn't, and the other way round.
pub(crate) fn negate(words: &mut [u64])
    ensures { (test : ℕ → Bool) → HasBits words.old test → HasBits words.new (λ n. not (test n)) }
{
    for at in 0..words.len() {
        words[at] = !words[at];
    }
}

/// Keeps the places that are listed too.
pub(crate) fn keep(words: &mut [u64], listed: &[u64])
    requires { length words.old ≡ length listed.now }
    ensures { (test list : ℕ → Bool) → HasBits words.old test → HasBits listed.now list
        → HasBits words.new (λ n. test n && list n) }
{
    for at in 0..words.len() {
        words[at] &= listed[at];
    }
}

/// Adds all places after one that is there.
pub(crate) fn fill(words: &mut [u64])
    ensures { (test : ℕ → Bool) → HasBits words.old test → HasBits words.new (any_up_to test) }
{
    let mut found = false;
    for at in 0..words.len() {
        let word = words[at];
        if found {
            words[at] = u64::MAX;
        } else if word != 0 {
            words[at] = u64::MAX << word.trailing_zeros();
            found = true;
        }
    }
}

/// Drops the places after this one, which the last word has.
pub(crate) fn cut(words: &mut [u64], last: usize)
    requires { last / 64 + 1 ≡ length words.old }
    ensures { (test : ℕ → Bool) → HasBits words.old test
        → HasBits words.new (λ n. nat_le n last && test n) }
{
    words[last / BITS] &= u64::MAX >> (63 - last % BITS);
}

/// Returns whether there is no place.
pub(crate) fn is_empty(words: &[u64]) -> bool
    ensures { IsTrue result → HasBits words.now (λ n. false) }
{
    for at in 0..words.len() {
        if words[at] != 0 {
            return false;
        }
    }
    true
}

/// Returns whether a place is there.
pub(crate) fn has(words: &[u64], place: usize) -> bool
    requires { place / 64 < length words.now }
    ensures { (test : ℕ → Bool) → HasBits words.now test → result ≡ test place }
{
    words[place / BITS] >> (place % BITS) & 1 == 1
}

/// Moves all places down by one.
pub(crate) fn shift_down(words: &mut [u64])
    ensures { (test : ℕ → Bool) → HasBits words.old test
        → ((n : ℕ) → BITS * length words.old ≤ n → test n ≡ false)
        → HasBits words.new (λ n. test (suc n)) }
{
    let mut next = 0;
    for at in (0..words.len()).rev() {
        let word = words[at];
        words[at] = word >> 1 | next << 63;
        next = word;
    }
}

/// Adds all places before one that is there.
pub(crate) fn fill_down(words: &mut [u64])
    ensures { (test filled : ℕ → Bool) → HasBits words.old test
        → ((n : ℕ) → filled n ≡ (test n || filled (suc n)))
        → filled (BITS * length words.old) ≡ false → HasBits words.new filled }
{
    let mut found = false;
    for at in (0..words.len()).rev() {
        let word = words[at];
        if found {
            words[at] = u64::MAX;
        } else if word != 0 {
            words[at] = u64::MAX >> word.leading_zeros();
            found = true;
        }
    }
}

/// Keeps the places of the bytes in a range.
pub(crate) fn keep_range(words: &mut [u64], bytes: &[u8], low: u8, high: u8)
    requires { BITS * length words.old ≤ length bytes.now }
    ensures { (test : ℕ → Bool) → HasBits words.old test
        → HasBits words.new (λ n. test n && is_between low high (slice_index bytes.now n)) }
{
    for at in 0..words.len() {
        if words[at] != 0 {
            words[at] &= in_range(&bytes[at * BITS..], low, high);
        }
    }
}

/// Keeps the places that aren't listed.
pub(crate) fn keep_others(words: &mut [u64], listed: &[u64])
    requires { length words.old ≡ length listed.now }
    ensures { (test list : ℕ → Bool) → HasBits words.old test → HasBits listed.now list
        → HasBits words.new (λ n. test n && not (list n)) }
{
    for at in 0..words.len() {
        words[at] &= !listed[at];
    }
}

/// Adds one place, and drops all others.
pub(crate) fn set_only(words: &mut [u64], place: usize)
    requires { place / 64 < length words.old }
    ensures { HasBits words.new (λ n. n == place) }
{
    clear(words);
    words[place / BITS] = 1 << (place % BITS);
}

/// Returns whether two sets share a place. The bits of `reached` begin at the place `first`.
pub(crate) fn meet(reached: &[u64], first: usize, words: &[u64]) -> bool
    requires { first + BITS * length reached.now < 2 ^ 64 }
    ensures { (some other : ℕ → Bool) → HasPlaces first reached.now some → HasBits words.now other
        → ((n : ℕ) → BITS * length words.now ≤ n → other n ≡ false)
        → (IsTrue result ↔ ((n : ℕ) × (some n ≡ true) × (other n ≡ true))) }
{
    for at in 0..reached.len() {
        if reached[at] & word_from(words, first + at * BITS) != 0 {
            return true;
        }
    }
    false
}

/// Returns which of the first 64 bytes are in a range, with a bit for each.
#[inline(always)]
fn in_range(bytes: &[u8], low: u8, high: u8) -> u64
    requires { BITS ≤ length bytes.now }
    ensures { (i : ℕ) → i < BITS
        → bit_at result i ≡ bit (is_between low high (slice_index bytes.now i)) }
{
    let bytes = u8x64::from_slice(bytes);
    at_least(bytes, low) & at_most(bytes, high)
}

/// Returns the 64 bits from a place on. There is no place after the words.
fn word_from(words: &[u64], place: usize) -> u64
    ensures { (test : ℕ → Bool) → HasBits words.now test
        → ((n : ℕ) → BITS * length words.now ≤ n → test n ≡ false) → (i : ℕ) → i < BITS
        → bit_at result i ≡ bit (test (place + i)) }
{
    let at = place / BITS;
    let low = place % BITS;
    if at >= words.len() {
        return 0;
    }
    if low == 0 {
        return words[at];
    }
    let next = if at + 1 < words.len() {
        words[at + 1]
    } else {
        0
    };
    words[at] >> low | next << (BITS - low)
}

/// Returns which of the bytes are at least this one, with a bit for each.
#[inline(always)]
fn at_least(bytes: u8x64, low: u8) -> u64
    ensures { result ≡ mask_l (map (λ byte. nat_le low byte) bytes) }
{
    bytes.simd_ge(u8x64::splat(low)).to_bitmask()
}

/// Returns which of the bytes are at most this one, with a bit for each.
#[inline(always)]
fn at_most(bytes: u8x64, high: u8) -> u64
    ensures { result ≡ mask_l (map (λ byte. nat_le byte high) bytes) }
{
    bytes.simd_le(u8x64::splat(high)).to_bitmask()
}
