// What the fields of a sound node have.
ghost use Rattle.std.specs.Prelude.{◌≡◌, ◌+◌, ◌-◌, ◌≤◌, ◌<◌, ◌∷◌, [], ℕ, length, take, drop, true};
ghost use Rattle.std.specs.Prelude.{Some, None, IfNone, IfSome, MatchOption, slice_get};
ghost use Rattle.index_format.specs.Link.{has_children};
ghost use Rattle.index_format.specs.Node.{prefix, child, values, first_byte, last_byte};
ghost use Rattle.index_format.specs.Check.{children_fit, whole_values, values_fit};
ghost use Rattle.index_format.specs.Nodes.{values_from};
ghost use Rattle.index_nodes.specs.Fields.{HasFields};
ghost use Rattle.index_nodes.specs.Places.{IsPlaceOf, values_left, value_at};

use crate::fields::place;
use crate::node::Node;
use crate::place::Place;
use index_format::{HAS_CHILDREN, HAS_PREFIX, HAS_VALUES};
use km_names::{be_u32_at, split_at_byte};

/// The bytes of a number.
pub(crate) const NUMBER_SIZE: usize = 4;

/// Returns where the prefix of a node begins in the file and where it ends.
pub(crate) fn prefix_range(bytes: &[u8], node: &Node) -> (usize, usize)
    requires { HasFields bytes.now node.now }
    ensures order { result.0 ≤ result.1 }
    ensures within { result.1 ≤ length bytes.now }
    ensures prefix { take (result.1 - result.0) (drop result.0 bytes.now)
        ≡ prefix bytes.now node.now.link }
{
    if node.link & HAS_PREFIX == 0 {
        return (0, 0);
    }
    (place(node.link) as usize, node.children - 1)
}

/// Returns the prefix of a node.
pub(crate) fn prefix_of<'b>(bytes: &'b [u8], node: &Node) -> &'b [u8]
    requires { HasFields bytes.now node.now }
    ensures { result.now ≡ prefix bytes.now node.now.link }
{
    let (start, end) = prefix_range(bytes, node);
    &bytes[start..end]
}

/// Returns the first and the last byte for which a node has offsets of children, or `None` if it
/// has no children.
pub(crate) fn range_of(bytes: &[u8], node: &Node) -> Option<(u8, u8)>
    requires fields { HasFields bytes.now node.now }
    requires fit { children_fit bytes.now node.now.link ≡ true }
    ensures none { IfNone result ((byte : ℕ) → child bytes.now node.now.link byte ≡ None) }
    ensures children { IfSome result (λ _. has_children node.now.link ≡ true) }
    ensures first { IfSome result (λ r. first_byte bytes.now node.now.link ≡ r.0) }
    ensures last { IfSome result (λ r. last_byte bytes.now node.now.link ≡ r.1) }
    ensures order { IfSome result (λ r. r.0 ≤ r.1) }
    ensures top { IfSome result (λ r. r.1 ≤ 127) }
{
    if node.link & HAS_CHILDREN == 0 {
        None
    } else {
        Some((bytes[node.children], bytes[node.children + 1]))
    }
}

/// Returns the offset of the child of a node for a byte.
pub(crate) fn child_link(bytes: &[u8], node: &Node, byte: u8) -> Option<u32>
    requires fields { HasFields bytes.now node.now }
    requires fit { children_fit bytes.now node.now.link ≡ true }
    ensures { result ≡ child bytes.now node.now.link byte }
{
    let (first, last) = range_of(bytes, node)?;
    if byte < first || last < byte {
        return None;
    }
    link_in(bytes, node, first, byte)
}

/// Returns the first child of a node for a byte from `from` on, with its byte.
pub(crate) fn next_link(bytes: &[u8], node: &Node, from: u8) -> Option<(u8, u32)>
    requires fields { HasFields bytes.now node.now }
    requires fit { children_fit bytes.now node.now.link ≡ true }
    ensures none { IfNone result
        ((byte : ℕ) → from ≤ byte → child bytes.now node.now.link byte ≡ None) }
    ensures some { IfSome result (λ next. child bytes.now node.now.link next.0 ≡ Some next.1) }
    ensures from { IfSome result (λ next. from ≤ next.0) }
    ensures first { IfSome result
        (λ next. (byte : ℕ) → from ≤ byte → byte < next.0
        → child bytes.now node.now.link byte ≡ None) }
    ensures top { IfSome result (λ next. next.0 ≤ 127) }
{
    let (first, last) = range_of(bytes, node)?;
    for byte in from.max(first)..last + 1 {
        if let Some(link) = link_in(bytes, node, first, byte) {
            return Some((byte, link));
        }
    }
    None
}

/// Returns the place of a node's first value.
pub(crate) fn first_place(bytes: &[u8], node: &Node) -> Option<Place>
    requires fields { HasFields bytes.now node.now }
    requires fit { values_fit bytes.now node.now.link ≡ true }
    ensures none { IfNone result (values bytes.now node.now.link ≡ []) }
    ensures some { IfSome result (λ at. values_left bytes.now at ≡ values bytes.now node.now.link) }
    ensures first { IfSome result
        (λ at. slice_get (values bytes.now node.now.link) 0 ≡ Some (value_at bytes.now at)) }
    ensures place { IfSome result (IsPlaceOf bytes.now) }
{
    if node.link & HAS_VALUES == 0 {
        return None;
    }
    let count = be_u32_at(bytes, node.values);
    place_at(bytes, node.values + NUMBER_SIZE, count)
}

/// Returns the text of the value at a place.
pub(crate) fn text_at<'b>(bytes: &'b [u8], at: &Place) -> &'b [u8]
    requires { IsPlaceOf bytes.now at.now }
    ensures text { result.now ≡ (value_at bytes.now at.now).1 }
    ensures within { at.now.start + 4 + length result.now + 1 ≤ length bytes.now }
{
    let (text, _) = split_at_byte(&bytes[at.start + NUMBER_SIZE..], 0);
    text
}

/// Returns the place of the value after another one.
pub(crate) fn next_place(bytes: &[u8], at: &Place) -> Option<Place>
    requires { IsPlaceOf bytes.now at.now }
    ensures none { IfNone result (values_left bytes.now at.now ≡ value_at bytes.now at.now ∷ []) }
    ensures some { IfSome result
        (λ next. values_left bytes.now at.now
        ≡ value_at bytes.now at.now ∷ values_left bytes.now next) }
    ensures place { IfSome result (IsPlaceOf bytes.now) }
{
    let text = text_at(bytes, at);
    place_at(bytes, at.start + NUMBER_SIZE + text.len() + 1, at.left - 1)
}

/// Returns the offset of the child of a node for a byte of its range, whose first byte is `first`.
#[inline(always)]
fn link_in(bytes: &[u8], node: &Node, first: u8, byte: u8) -> Option<u32>
    requires fields { HasFields bytes.now node.now }
    requires fit { children_fit bytes.now node.now.link ≡ true }
    requires children { has_children node.now.link ≡ true }
    requires first { first_byte bytes.now node.now.link ≡ first }
    requires from { first ≤ byte }
    requires to { byte ≤ last_byte bytes.now node.now.link }
    ensures { result ≡ child bytes.now node.now.link byte }
{
    let at = node.children + 2 + NUMBER_SIZE * usize::from(byte - first);
    let link = be_u32_at(bytes, at);
    if place(link) == 0 { None } else { Some(link) }
}

/// Returns the place of a value from which this many values are left, or `None` if none is left.
pub(crate) fn place_at(bytes: &[u8], start: usize, left: u32) -> Option<Place>
    requires within { start ≤ length bytes.now }
    requires whole { whole_values left (drop start bytes.now) ≡ true }
    ensures none { IfNone result (values_from bytes.now start left ≡ []) }
    ensures some { IfSome result
        (λ at. values_left bytes.now at ≡ values_from bytes.now start left) }
    ensures first { IfSome result
        (λ at. slice_get (values_from bytes.now start left) 0 ≡ Some (value_at bytes.now at)) }
    ensures place { IfSome result (IsPlaceOf bytes.now) }
{
    if left == 0 {
        return None;
    }
    Some(Place {
        start,
        left,
        priority: be_u32_at(bytes, start),
    })
}
