// Which paths begin a line themselves.
ghost use Rattle.std.specs.Prelude.{◌≡◌, true, ℕ, List, [], Bool, All, IfOk};
ghost use Rattle.mod_tree.specs.DependencyLine.{own_path};

use crate::good_texts::hash_of;
use crate::named_lines::Lines;
use std::alloc::{AllocError, Global};
use std::marker::Model;

/// How many places are kept at most.
const SLOTS: usize = 4096;

/// The places of lines, found by the paths with which they begin. Each line has one slot, where its
/// place replaces the one that was there before. So a path that isn't found may still begin a line,
/// and nothing else depends on the slots. Contracts see the lines.
#[derive(Drop)]
pub(crate) struct OwnPaths<'a> {
    lines: Option<&'a Lines<'a>>,
    places: Vec<u32>,
}

impl<'a> Model for OwnPaths<'a> {
    ghost use Rattle.std.specs.Prelude.{List, []};
    ghost use Rattle.std.specs.Option.{option_map_or};
    ghost use Rattle.index_format.specs.Listing.{KeyValue};

    ghost Value = { List KeyValue };

    ghost view = { λ o. option_map_or (λ l. l.now) o.lines [] };
}

/// Returns the slot of a text with this hash.
fn slot_of(hash: usize) -> usize {
    (hash >> 20) % SLOTS
}

impl<'a> OwnPaths<'a> {
    /// Returns those of no lines. They take no memory.
    pub(crate) fn none(alloc: Global) -> Self
        ensures { result ≡ [] }
    {
        OwnPaths {
            lines: None,
            places: Vec::new(alloc),
        }
    }

    /// Keeps the places of lines.
    pub(crate) fn new(alloc: Global, lines: &'a Lines<'a>) -> Result<Self, AllocError>
        ensures { IfOk result (λ own. own ≡ lines.now) }
    {
        let mut places = vec![in alloc; 0u32; SLOTS]?;
        for place in 0..lines.len() {
            let slot = slot_of(hash_of(lines.path(place)));
            if slot < places.len() {
                places[slot] = u32::try_from(place).unwrap_or(u32::MAX);
            }
        }
        Ok(OwnPaths {
            lines: Some(lines),
            places,
        })
    }

    /// Returns whether a line is found that begins with the path, which has this hash.
    pub(crate) fn has(&self, hash: usize, path: &[u8]) -> bool
        ensures { result ≡ true → (test : List ℕ → Bool)
            → All (λ m. test (own_path m.1.1) ≡ true) self.now → test path.now ≡ true }
    {
        match (self.lines, self.places.get(slot_of(hash))) {
            (Some(lines), Some(place)) => begins(lines, *place as usize, path),
            _ => false,
        }
    }
}

/// Returns whether there is a line at a place that begins with a path.
fn begins(lines: &Lines<'_>, place: usize, path: &[u8]) -> bool
    ensures { result ≡ true → (test : List ℕ → Bool)
        → All (λ m. test (own_path m.1.1) ≡ true) lines.now → test path.now ≡ true }
{
    place < lines.len() && lines.path(place) == path
}
