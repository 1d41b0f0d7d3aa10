// The check of a file, in the reader's order of visits.
ghost use Rattle.std.specs.Prelude.{◌≡◌, ◌≤◌, ◌<◌, ◌+◌, ◌/◌, ◌%◌, ◌==◌, ◌||◌, ◌⊎◌, ℕ, List, []};
ghost use Rattle.std.specs.Prelude.{◌∷◌, ◌++◌, length, vec_len, Some, None, OnOk, IfErr, IfOk};
ghost use Rattle.std.specs.Prelude.{MatchOption, MatchResult, true, false};
ghost use Rattle.std.specs.List.{AllByRecursion};
ghost use Rattle.km_names.specs.Number.{be};
ghost use Rattle.index_format.specs.Link.{place_of, has_prefix, has_values, has_children};
ghost use Rattle.index_format.specs.Check.{children_fit, is_sound, arrival_fault, index_fault};
ghost use Rattle.index_nodes.specs.Faults.{IsFirstFault};
ghost use Rattle.index_nodes.specs.Fields.{HasFields};
ghost use Rattle.index_nodes.specs.TextEnds.{AreTextEnds};
ghost use Rattle.index_nodes.specs.ValueStarts.{AreValueStarts};
ghost use Rattle.index_nodes.specs.Pending.{links_of, arrivals_left, child_arrivals, nodes_fault};
ghost use Rattle.index_nodes.specs.Pending.{IsInside, HasPlaces, arrival_of, IsPendingOf};

use crate::fault::IndexFault;
use crate::fields::{has_whole_values, node_at, place};
use crate::in_order::check_in_order;
use crate::node::Node;
use crate::place_set::PlaceSet;
use crate::text_ends::TextEnds;
use crate::value_starts::ValueStarts;
use index_format::{FIRST_PLACE, HAS_CHILDREN, HAS_PREFIX, HAS_VALUES, MAGIC, VERSION};
use km_names::be_u32_at;
use std::alloc::{AllocError, Global};

/// The bytes of an offset.
pub(crate) const OFFSET_SIZE: usize = 4;

/// A node that the reader visits: its offset, and the place below which it has to be.
#[derive(Clone, Copy)]
pub(crate) struct Visit {
    pub(crate) above: usize,
    pub(crate) is_root: bool,
    pub(crate) link: u32,
}

/// Children that are still to be visited: a number of offsets from a place on, of the node at the
/// place `above`.
#[derive(Clone, Copy)]
pub(crate) struct Pending {
    pub(crate) above: u32,
    pub(crate) next: usize,
    pub(crate) left: usize,
}

/// Returns the children of a node.
#[inline(always)]
pub(crate) fn children_of(bytes: &[u8], node: &Node) -> Pending
    requires fields { HasFields bytes.now node.now }
    requires fit { children_fit bytes.now node.now.link ≡ true }
    ensures { IsPendingOf bytes.now node.now.link result }
{
    let above = place(node.link);
    if node.link & HAS_CHILDREN == 0 {
        return Pending {
            above,
            next: 0,
            left: 0,
        };
    }
    let first = bytes[node.children];
    let last = bytes[node.children + 1];
    Pending {
        above,
        next: node.children + 2,
        left: usize::from(last - first) + 1,
    }
}

/// Reads the node of a visit. Returns `None` if it isn't sound.
#[inline(always)]
pub(crate) fn sound_node(
    bytes: &[u8],
    ends: &TextEnds,
    visit: &Visit,
    starts: &mut ValueStarts,
) -> Result<Option<Node>, AllocError>
    requires ends { AreTextEnds bytes.now ends.now }
    requires starts { AreValueStarts bytes.now starts.old }
    ensures sound { IfOk result (λ o. MatchOption o
        (is_sound bytes.now (arrival_of visit.now) ≡ false)
        (λ n. (is_sound bytes.now (arrival_of visit.now) ≡ true) × (n.link ≡ visit.now.link)
        × HasFields bytes.now n)) }
    ensures starts { AreValueStarts bytes.now starts.new }
{
    let at = place(visit.link);
    if at < FIRST_PLACE || at as usize > bytes.len() {
        return Ok(None);
    }
    if !visit.is_root && !has_field(visit.link) {
        return Ok(None);
    }
    let Some(node) = node_at(bytes, ends, visit.link) else {
        return Ok(None);
    };
    if has_whole_values(bytes, &node, starts)? {
        Ok(Some(node))
    } else {
        Ok(None)
    }
}

/// Checks that the bytes are an index, by the tests of the reader in their order.
pub(crate) fn check(alloc: Global, bytes: &[u8], ends: &TextEnds) -> Result<(), IndexFault>
    requires { AreTextEnds bytes.now ends.now }
    ensures fault { IfErr result (IsFirstFault (index_fault bytes.now)) }
    ensures passes { OnOk result (index_fault bytes.now ≡ None) }
{
    if !has_number(bytes, 0, MAGIC) {
        return Err(IndexFault::BadMagic);
    }
    if !has_number(bytes, 4, VERSION) {
        return Err(IndexFault::BadVersion);
    }
    if bytes.len() < FIRST_PLACE as usize {
        return Err(IndexFault::BadNode { offset: 8 });
    }
    check_nodes(alloc, bytes, ends)
}

/// Returns whether a node has a field.
fn has_field(link: u32) -> bool
    ensures { result ≡ (has_prefix link || (has_values link || has_children link)) }
{
    link & HAS_PREFIX != 0 || link & HAS_VALUES != 0 || link & HAS_CHILDREN != 0
}

/// Returns whether this number is at a place. Its last byte isn't 0, so it isn't there if the file
/// ends before.
fn has_number(bytes: &[u8], at: usize, number: u32) -> bool
    requires place { at ≤ 4 }
    requires last { 0 < number % 256 }
    ensures { result ≡ (be bytes.now at 4 == number) }
{
    bytes.len() >= at + 4 && be_u32_at(bytes, at) == number
}

/// Visits all nodes of a file.
fn check_nodes(alloc: Global, bytes: &[u8], ends: &TextEnds) -> Result<(), IndexFault>
    requires first { FIRST_PLACE ≤ length bytes.now }
    requires ends { AreTextEnds bytes.now ends.now }
    ensures fault { IfErr result (IsFirstFault (nodes_fault bytes.now)) }
    ensures passes { OnOk result (nodes_fault bytes.now ≡ None) }
{
    if check_in_order(alloc, bytes, ends)? {
        return Ok(());
    }
    check_in_any_order(alloc, bytes, ends)
}

/// Visits all nodes of a file in any order. The places that were visited are in a set.
fn check_in_any_order(alloc: Global, bytes: &[u8], ends: &TextEnds) -> Result<(), IndexFault>
    requires first { FIRST_PLACE ≤ length bytes.now }
    requires ends { AreTextEnds bytes.now ends.now }
    ensures fault { IfErr result (IsFirstFault (nodes_fault bytes.now)) }
    ensures passes { OnOk result (nodes_fault bytes.now ≡ None) }
{
    let mut visited = PlaceSet::new(alloc, bytes.len())?;
    let mut starts = ValueStarts::new(alloc, bytes)?;
    let root = Visit {
        above: bytes.len() + 1,
        is_root: true,
        link: be_u32_at(bytes, 8),
    };
    let mut above = Vec::new(alloc);
    let mut level = visit_node(bytes, ends, &root, &mut visited, &mut starts)?;
    'level: loop {
        let Some((link, rest)) = next_child(bytes, &level) else {
            match above.pop() {
                Some(pending) => level = pending,
                None => return Ok(()),
            }
            continue;
        };
        let child = Visit {
            above: level.above as usize,
            is_root: false,
            link,
        };
        let below = visit_node(bytes, ends, &child, &mut visited, &mut starts)?;
        if below.left == 0 {
            level = rest;
        } else {
            push_pending(&mut above, rest)?;
            level = below;
        }
    }
}

/// Visits a node: the tests of the reader, in their order. Its place is then visited.
fn visit_node(
    bytes: &[u8],
    ends: &TextEnds,
    visit: &Visit,
    visited: &mut PlaceSet,
    starts: &mut ValueStarts,
) -> Result<Pending, IndexFault>
    requires room { length bytes.now / 64 < vec_len visited.old.words }
    requires ends { AreTextEnds bytes.now ends.now }
    requires starts { AreValueStarts bytes.now starts.old }
    ensures room { vec_len visited.new.words ≡ vec_len visited.old.words }
    ensures starts { AreValueStarts bytes.now starts.new }
    ensures fault { (seen : List ℕ) → HasPlaces visited.old seen
        → IfErr result
        (λ fault. IsFirstFault (arrival_fault bytes.now seen (arrival_of visit.now)) fault) }
    ensures passes { (seen : List ℕ) → HasPlaces visited.old seen
        → OnOk result (arrival_fault bytes.now seen (arrival_of visit.now) ≡ None) }
    ensures places { (seen : List ℕ) → HasPlaces visited.old seen
        → OnOk result (HasPlaces visited.new (place_of visit.now.link ∷ seen)) }
    ensures pending { IfOk result (IsPendingOf bytes.now visit.now.link) }
{
    let offset = place(visit.link);
    if offset as usize >= visit.above {
        return Err(IndexFault::BadNode { offset });
    }
    if visited.has(offset as usize) {
        return Err(IndexFault::Revisited { offset });
    }
    let Some(node) = sound_node(bytes, ends, visit, starts)? else {
        return Err(IndexFault::BadNode { offset });
    };
    visited.add(offset as usize);
    Ok(children_of(bytes, &node))
}

/// Returns the next child that is present, and the children after it, or `None` if there is none.
#[inline(always)]
fn next_child(bytes: &[u8], pending: &Pending) -> Option<(u32, Pending)>
    requires { IsInside bytes.now pending.now }
    ensures { MatchOption result (links_of bytes.now pending.now ≡ [])
        (λ r. (links_of bytes.now pending.now ≡ r.0 ∷ links_of bytes.now r.1)
        × (r.1.above ≡ pending.now.above) × IsInside bytes.now r.1) }
{
    for n in 0..pending.left {
        let next = pending.next + OFFSET_SIZE * n;
        let link = be_u32_at(bytes, next);
        if place(link) != 0 {
            let rest = Pending {
                above: pending.above,
                next: next + OFFSET_SIZE,
                left: pending.left - n - 1,
            };
            return Some((link, rest));
        }
    }
    None
}

/// Puts children on top of those that are pending, if there are any.
fn push_pending(stack: &mut Vec<Pending>, pending: Pending) -> Result<(), AllocError>
    ensures left { (b : List ℕ) → OnOk result (arrivals_left b stack.new.items
        ≡ child_arrivals b pending.above (links_of b pending) ++ arrivals_left b stack.old.items) }
    ensures inside { (b : List ℕ) → IsInside b pending → AllByRecursion (IsInside b) stack.old.items
        → OnOk result (AllByRecursion (IsInside b) stack.new.items) }
    ensures count { OnOk result (vec_len stack.new ≤ vec_len stack.old + 1) }
    ensures top { OnOk result
        ((stack.new.items ≡ stack.old.items)
        ⊎ (stack.new.items ≡ stack.old.items ++ pending ∷ [])) }
{
    if pending.left > 0 {
        stack.push(pending)?;
    }
    Ok(())
}
