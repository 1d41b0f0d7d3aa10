// The check of a file in a writer's order: each node is after all nodes below it, and after those
// below its older siblings. A way that visits a node, then its last child with all nodes below it,
// and so on to its first child, meets ever lower places, so that none is visited twice.
ghost use Rattle.std.specs.Prelude.{◌≡◌, ◌+◌, ◌≤◌, ◌++◌, length, take, None, IfOk, IfSome, true};
ghost use Rattle.index_nodes.specs.TextEnds.{AreTextEnds};
ghost use Rattle.index_nodes.specs.ValueStarts.{AreValueStarts};
ghost use Rattle.index_nodes.specs.Pending.{links_of, nodes_fault, IsInside, IsVisited};

use crate::check::{OFFSET_SIZE, Pending, Visit, children_of, sound_node};
use crate::fields::place;
use crate::text_ends::TextEnds;
use crate::value_starts::ValueStarts;
use index_format::FIRST_PLACE;
use km_names::be_u32_at;
use std::alloc::{AllocError, Global};

/// How many offsets of nodes that are still to be visited there is room for. The indexes of a
/// kernel have fewer than a hundred at a time.
const ROOM: usize = 1024;

/// Visits all nodes of a file that is in a writer's order. Returns false if it isn't, or if a node
/// has a fault; then nothing is known of the file.
pub(crate) fn check_in_order(
    alloc: Global,
    bytes: &[u8],
    ends: &TextEnds,
) -> Result<bool, AllocError>
    requires first { FIRST_PLACE ≤ length bytes.now }
    requires ends { AreTextEnds bytes.now ends.now }
    ensures { IfOk result (λ whole. whole ≡ true → nodes_fault bytes.now ≡ None) }
{
    let mut starts = ValueStarts::new(alloc, bytes)?;
    let mut links = vec![in alloc; 0u32; ROOM]?;
    visit_falling(bytes, ends, &mut starts, links.as_mut_slice())
}

/// Visits all nodes of a file from the last one on, as long as their places fall. Returns false if
/// they don't, if a node has a fault, or if there is no room for the offsets.
fn visit_falling(
    bytes: &[u8],
    ends: &TextEnds,
    starts: &mut ValueStarts,
    links: &mut [u32],
) -> Result<bool, AllocError>
    requires first { FIRST_PLACE ≤ length bytes.now }
    requires ends { AreTextEnds bytes.now ends.now }
    requires starts { AreValueStarts bytes.now starts.old }
    ensures { IfOk result (λ whole. whole ≡ true → nodes_fault bytes.now ≡ None) }
{
    let root = Visit {
        above: bytes.len() + 1,
        is_root: true,
        link: be_u32_at(bytes, 8),
    };
    let Some(mut count) = visit_lower(bytes, ends, &root, starts, links, 0)? else {
        return Ok(false);
    };
    let mut above = place(root.link) as usize;
    while count > 0 {
        let child = Visit {
            above,
            is_root: false,
            link: links[count - 1],
        };
        let Some(next) = visit_lower(bytes, ends, &child, starts, links, count - 1)? else {
            return Ok(false);
        };
        above = place(child.link) as usize;
        count = next;
    }
    Ok(true)
}

/// Visits a node, and puts the offsets of its children after the first `count` offsets. Returns how
/// many there are then, or `None` if the node has a fault or there is no room.
#[inline(always)]
fn visit_lower(
    bytes: &[u8],
    ends: &TextEnds,
    visit: &Visit,
    starts: &mut ValueStarts,
    links: &mut [u32],
    count: usize,
) -> Result<Option<usize>, AllocError>
    requires ends { AreTextEnds bytes.now ends.now }
    requires starts { AreValueStarts bytes.now starts.old }
    requires count { count ≤ length links.old }
    ensures starts { AreValueStarts bytes.now starts.new }
    ensures within { IfOk result (λ o. IfSome o (λ n. n ≤ length links.new)) }
    ensures visited { IfOk result
        (λ o. IfSome o
        (λ n. IsVisited bytes.now visit.now (take count links.old) (take n links.new))) }
{
    if place(visit.link) as usize >= visit.above {
        return Ok(None);
    }
    let Some(node) = sound_node(bytes, ends, visit, starts)? else {
        return Ok(None);
    };
    let children = children_of(bytes, &node);
    if children.left > links.len() - count {
        return Ok(None);
    }
    Ok(Some(put_links(bytes, &children, links, count)))
}

/// Puts the offsets of children that are present after the first `count` offsets, and returns how
/// many there are then.
#[inline(always)]
fn put_links(bytes: &[u8], children: &Pending, links: &mut [u32], count: usize) -> usize
    requires inside { IsInside bytes.now children.now }
    requires room { count + children.now.left ≤ length links.old }
    ensures room { length links.new ≡ length links.old }
    ensures within { result ≤ length links.new }
    ensures links { take result links.new
        ≡ take count links.old ++ links_of bytes.now children.now }
{
    let mut filled = count;
    for n in 0..children.left {
        let link = be_u32_at(bytes, children.next + OFFSET_SIZE * n);
        links[filled] = link;
        filled += usize::from(place(link) != 0);
    }
    filled
}
