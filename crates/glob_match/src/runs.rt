ghost use Rattle.std.specs.Prelude.{◌≡◌, ℕ, ◌*◌, ◌<◌, ◌≤◌, List, [], length, slice_index, vec_len};
ghost use Rattle.std.specs.Prelude.{OnOk, IfSome};
ghost use Rattle.std.specs.List.{AllByRecursion};
ghost use Rattle.glob_match.specs.Runs.{IsRun, AreItems, AreRuns, GoOn};

use crate::set_items::{Items, all_bytes, items_at};
use std::alloc::{AllocError, Global};

/// The bytes of one block.
const BLOCK: usize = 16;

/// How many places in a row items are known from, again and again. An item has up to three bytes,
/// so one begins at these places if items go on from before them.
const PLACES: usize = 3;

/// The greatest file of which items are known from many places.
const SMALL: usize = 1 << 21;

/// How far it is in such a file from the first of these places to the next first one.
const NEAR: usize = 8;

/// The same in a greater file.
const FAR: usize = 64;

/// Where runs of `*` end in a file, and what the items of sets list. For each block of the file it
/// has a place up to which there are only `*` from the start of the block on. For every eighth
/// place or, in a great file, every 64th one, and the two after it, it has the bytes that the items
/// from there on list. So what goes on for long is left soon, however many patterns begin in it.
#[derive(Drop)]
pub struct Runs {
    pub(crate) ends: Vec<usize>,
    /// From the last place to the first.
    pub(crate) items: Vec<Items>,
}

/// Returns up to which place there are only `*`.
fn near_end(bytes: &[u8], start: usize, to: usize) -> usize
    requires order { start ≤ to }
    requires within { to ≤ length bytes.now }
    ensures run { IsRun bytes.now start result }
    ensures high { result ≤ to }
{
    let mut at = start;
    while at < to && bytes[at] == b'*' {
        at += 1;
    }
    at
}

/// Returns the same past a later place, from which on there are only `*` up to `later_end`.
fn earlier_end(bytes: &[u8], start: usize, later: usize, later_end: usize) -> usize
    requires order { start ≤ later }
    requires within { later ≤ length bytes.now }
    requires run { IsRun bytes.now later later_end }
    ensures { IsRun bytes.now start result }
{
    let near = near_end(bytes, start, later);
    if near < later { near } else { later_end }
}

/// Finds the ends of runs of `*`.
fn find_ends(ends: &mut Vec<usize>, bytes: &[u8]) -> Result<(), AllocError>
    requires { ends.old.items ≡ [] }
    ensures { OnOk result
        ((block : ℕ) → block < vec_len ends.new
        → IsRun bytes.now (block * BLOCK) (slice_index ends.new.items block)) }
{
    let count = bytes.len() / BLOCK;
    let mut end = count * BLOCK;
    ends.resize(count, 0)?;
    for block in (0..count).rev() {
        let start = block * BLOCK;
        end = earlier_end(bytes, start, start + BLOCK, end);
        ends[block] = end;
    }
    Ok(())
}

/// Returns whether items are known from a place on, in a file of this size.
fn is_known(at: usize, size: usize) -> bool {
    if size <= SMALL {
        at % NEAR < PLACES
    } else {
        at % FAR < PLACES
    }
}

/// Returns from how many earlier places items are known, by a place from which they are.
fn known_before(at: usize, size: usize) -> usize
    ensures { result ≤ at }
{
    if size <= SMALL {
        at / NEAR * PLACES + at % NEAR
    } else {
        at / FAR * PLACES + at % FAR
    }
}

/// Finds the items from these places on.
fn find_items(items: &mut Vec<Items>, bytes: &[u8]) -> Result<(), AllocError>
    requires { AllByRecursion (AreItems bytes.now) items.old.items }
    ensures { OnOk result (AllByRecursion (AreItems bytes.now) items.new.items) }
{
    let all = all_bytes();
    let count = bytes.len().saturating_sub(PLACES);
    items.reserve(known_before(count, bytes.len()))?;
    let mut next = Items::none(count);
    let mut second = Items::none(count + 1);
    let mut third = Items::none(count + 2);
    for at in (0..count).rev() {
        let here = items_at(bytes, at, &next, &third, &all);
        third = second;
        second = next;
        next = here;
        if is_known(at, bytes.len()) {
            items.push(here)?;
        }
    }
    Ok(())
}

impl Runs {
    /// Makes one that knows no block, for any file.
    pub fn new(alloc: Global) -> Runs
        ensures { (bytes : List ℕ) → AreRuns bytes result }
    {
        Runs {
            ends: Vec::new(alloc),
            items: Vec::new(alloc),
        }
    }

    /// Finds the runs of a file, if that wasn't done before.
    pub fn find(&mut self, bytes: &[u8]) -> Result<(), AllocError>
        requires { AreRuns bytes.now self.old }
        ensures { OnOk result (AreRuns bytes.now self.new) }
    {
        if self.ends.is_empty() {
            find_ends(&mut self.ends, bytes)?;
            find_items(&mut self.items, bytes)?;
        }
        Ok(())
    }

    /// Returns up to which place there are only `*`. Where no block is known, it is one before that
    /// if there are more than a block has.
    pub(crate) fn end(&self, bytes: &[u8], start: usize, to: usize) -> usize
        requires runs { AreRuns bytes.now self.now }
        requires order { start ≤ to }
        requires within { to ≤ length bytes.now }
        ensures run { IsRun bytes.now start result }
        ensures high { result ≤ to }
    {
        let next = start / BLOCK + 1;
        if next >= self.ends.len() || next * BLOCK > to {
            return near_end(bytes, start, start.saturating_add(BLOCK).min(to));
        }
        let end = earlier_end(bytes, start, next * BLOCK, self.ends[next]);
        end.min(to)
    }

    /// Returns items that go on from the one right before a place, which is this byte, and end
    /// before another place. The result may be `None` also if there are some, and is if they are
    /// few.
    pub(crate) fn items(&self, bytes: &[u8], from: usize, to: usize, low: u8) -> Option<Items>
        requires runs { AreRuns bytes.now self.now }
        requires within { to ≤ length bytes.now }
        ensures { IfSome result (GoOn bytes.now from to low) }
    {
        let start = from.checked_sub(1)?;
        let before = known_before(start, bytes.len());
        let place = self.items.len().checked_sub(before + 1)?;
        let items = *self.items.get(place)?;
        if items.start != start || items.end >= to || bytes[start] != low {
            return None;
        }
        if items.end.saturating_sub(start) < NEAR {
            return None;
        }
        Some(items)
    }
}
