// What the items of a set list, from a place of a file on.
ghost use Rattle.std.specs.Prelude.{◌≡◌, ◌≢◌, ◌||◌, ℕ, ◌+◌, ◌<◌, ◌≤◌, Bool, List, length};
ghost use Rattle.std.specs.Prelude.{slice_index, IsTrue};
ghost use Rattle.glob_pattern.specs.Pattern.{closing};
ghost use Rattle.glob_match.specs.Words.{HasBits, is_between};
ghost use Rattle.glob_match.specs.Runs.{AreItems};

use crate::words::add_range;

/// Items of a set, from a place of a file on up to the last one that what follows it there doesn't
/// change.
#[derive(Clone, Copy)]
pub(crate) struct Items {
    pub(crate) start: usize,
    /// The place of the item after them.
    pub(crate) end: usize,
    /// The bytes that they list, with a bit for each.
    pub(crate) listed: [u64; 4],
}

impl Items {
    /// Returns no items, before the one at a place.
    pub(crate) fn none(at: usize) -> Items
        ensures items { (bytes : List ℕ) → AreItems bytes result }
        ensures start { result.start ≡ at }
    {
        Items {
            start: at,
            end: at,
            listed: [0; 4],
        }
    }

    /// Returns these items after a range before them.
    fn after(&self, start: usize, low: u8, high: u8, all: &[u8]) -> Items
        requires size { length all.now ≡ 256 }
        requires own { (byte : ℕ) → byte < 256 → slice_index all.now byte ≡ byte }
        requires words { length self.now.listed ≡ 4 }
        ensures start { result.start ≡ start }
        ensures end { result.end ≡ self.now.end }
        ensures words { length result.listed ≡ 4 }
        ensures listed { (test : ℕ → Bool) → HasBits self.now.listed test
            → HasBits result.listed (λ byte. test byte || is_between low high byte) }
    {
        let mut listed = self.listed;
        add_range(&mut listed, all, low, high);
        Items {
            start,
            end: self.end,
            listed,
        }
    }
}

/// Returns all bytes, each at its own place.
pub(crate) fn all_bytes() -> [u8; 256]
    ensures size { length result ≡ 256 }
    ensures own { (byte : ℕ) → byte < 256 → slice_index result byte ≡ byte }
{
    let mut bytes = [0; 256];
    for byte in 0..256 {
        bytes[byte] = byte as u8;
    }
    bytes
}

/// Returns the items from a place on, by those from the next place on and from the third after it
/// on.
pub(crate) fn items_at(bytes: &[u8], at: usize, next: &Items, third: &Items, all: &[u8]) -> Items
    requires within { at + 3 < length bytes.now }
    requires next { AreItems bytes.now next.now }
    requires next_start { next.now.start ≡ at + 1 }
    requires third { AreItems bytes.now third.now }
    requires third_start { third.now.start ≡ at + 3 }
    requires size { length all.now ≡ 256 }
    requires own { (byte : ℕ) → byte < 256 → slice_index all.now byte ≡ byte }
    ensures items { AreItems bytes.now result }
    ensures start { result.start ≡ at }
{
    let low = bytes[at];
    let middle = bytes[at + 1];
    if middle == b'-' {
        if is_item(bytes[at + 2]) && is_item(bytes[at + 3]) {
            return third.after(at, low, bytes[at + 2], all);
        }
    } else if is_item(middle) {
        return next.after(at, low, low, all);
    }
    Items::none(at)
}

/// Returns whether a byte is an item of a set, and not the end of the set or of the prefix.
fn is_item(byte: u8) -> bool
    ensures { IsTrue result → byte ≢ closing }
{
    byte != b']' && byte != 0
}
