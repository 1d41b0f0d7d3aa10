// Where the fields of a node are, and whether they are whole.
ghost use Rattle.std.specs.Prelude.{◌≡◌, ◌≤◌, ◌<◌, ◌^◌, ◌&&◌, length, drop, MatchOption, IfOk};
ghost use Rattle.std.specs.Prelude.{true, false};
ghost use Rattle.index_format.specs.Link.{place_of};
ghost use Rattle.index_format.specs.Node.{after_prefix};
ghost use Rattle.index_format.specs.Check.{prefix_fits, children_fit, values_fit};
ghost use Rattle.index_nodes.specs.Fields.{IsPrefixEnd, IsChildrenEnd, HasFields};
ghost use Rattle.index_nodes.specs.TextEnds.{AreTextEnds};
ghost use Rattle.index_nodes.specs.ValueStarts.{AreValueStarts};

use crate::node::Node;
use crate::text_ends::TextEnds;
use crate::value_starts::ValueStarts;
use index_format::{HAS_CHILDREN, HAS_PREFIX, HAS_VALUES, PLACE_MASK};
use km_names::be_u32_at;
use std::alloc::AllocError;

/// The greatest byte that leads to a child.
const LAST_BYTE: u8 = 127;

/// The bytes of the count of values.
const COUNT_SIZE: usize = 4;

/// Returns the place of the node to which an offset leads.
pub(crate) fn place(link: u32) -> u32
    ensures place { result ≡ place_of link }
    ensures low { result < 2 ^ 28 }
{
    link & PLACE_MASK
}

/// Returns the node to which an offset leads, or `None` if its prefix or its children aren't whole.
#[inline(always)]
pub(crate) fn node_at(bytes: &[u8], ends: &TextEnds, link: u32) -> Option<Node>
    requires ends { AreTextEnds bytes.now ends.now }
    requires within { place_of link ≤ length bytes.now }
    ensures { MatchOption result
        ((prefix_fits bytes.now link && children_fit bytes.now link) ≡ false)
        (λ n. ((prefix_fits bytes.now link && children_fit bytes.now link) ≡ true)
        × (n.link ≡ link) × HasFields bytes.now n) }
{
    let children = prefix_end(bytes, ends, link)?;
    let values = children_end(bytes, link, children)?;
    Some(Node {
        link,
        children,
        values,
    })
}

/// Returns whether the values of a node are whole.
pub(crate) fn has_whole_values(
    bytes: &[u8],
    node: &Node,
    starts: &mut ValueStarts,
) -> Result<bool, AllocError>
    requires fields { HasFields bytes.now node.now }
    requires starts { AreValueStarts bytes.now starts.old }
    ensures whole { IfOk result (λ whole. whole ≡ values_fit bytes.now node.now.link) }
    ensures starts { AreValueStarts bytes.now starts.new }
{
    if node.link & HAS_VALUES == 0 {
        return Ok(true);
    }
    if bytes.len() - node.values < COUNT_SIZE {
        return Ok(false);
    }
    let count = be_u32_at(bytes, node.values);
    starts.are_whole(bytes, count, node.values + COUNT_SIZE)
}

/// Returns where the prefix of a node ends, or `None` if it isn't whole.
fn prefix_end(bytes: &[u8], ends: &TextEnds, link: u32) -> Option<usize>
    requires ends { AreTextEnds bytes.now ends.now }
    requires within { place_of link ≤ length bytes.now }
    ensures { MatchOption result (prefix_fits bytes.now link ≡ false)
        (λ end. (prefix_fits bytes.now link ≡ true) × IsPrefixEnd bytes.now link end) }
{
    let start = place(link) as usize;
    if link & HAS_PREFIX == 0 {
        return Some(start);
    }
    let end = ends.end(bytes, start);
    if end < bytes.len() {
        Some(end + 1)
    } else {
        None
    }
}

/// Returns where the children of a node end, which begin at a place, or `None` if they aren't
/// whole.
fn children_end(bytes: &[u8], link: u32, start: usize) -> Option<usize>
    requires within { start ≤ length bytes.now }
    requires start { drop start bytes.now ≡ after_prefix bytes.now link }
    ensures { MatchOption result (children_fit bytes.now link ≡ false)
        (λ end. (children_fit bytes.now link ≡ true) × IsChildrenEnd bytes.now link end) }
{
    if link & HAS_CHILDREN == 0 {
        return Some(start);
    }
    let rest = &bytes[start..];
    if rest.len() < 2 {
        return None;
    }
    let first = rest[0];
    let last = rest[1];
    if first == 0 || last < first || last > LAST_BYTE {
        return None;
    }
    let size = 2 + 4 * (usize::from(last - first) + 1);
    if size <= rest.len() {
        Some(start + size)
    } else {
        None
    }
}
