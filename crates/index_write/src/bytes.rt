// The bytes of an index file, node by node.

ghost use Rattle.std.specs.Prelude.{◌≡◌, ℕ, ◌≤◌, ◌<◌, ◌+◌, ◌*◌, ◌^◌, ◌++◌, length, take, drop, map};
ghost use Rattle.std.specs.Prelude.{slice_index, OnOk, IfOk};
ghost use Rattle.km_names.specs.Limit.{file_limit};
ghost use Rattle.index_format.specs.declared.numbers.TheConstants.{FIRST_PLACE};
ghost use Rattle.index_format.specs.File.{number, offset, prefix_field, children_field};
ghost use Rattle.index_format.specs.File.{values_field, value_bytes};
ghost use Rattle.index_write.specs.Lists.{value_of, shown_values};
ghost use Rattle.index_write.specs.Parts.{with_part, with_parts, headed, rooted, offsets_bytes};
ghost use Rattle.index_write.specs.Groups.{part_of};
ghost use Rattle.index_write.specs.Links.{links_of, state, bit};

use crate::key_map::StoredValue;
use crate::node::TreeNode;
use byteorder::{BigEndian, ByteOrder};
use index_format::{HAS_CHILDREN, HAS_PREFIX, HAS_VALUES, MAGIC, VERSION};
use std::alloc::{AllocError, Global};

/// The offset of a node whose parent isn't written yet, with the byte that leads to it.
#[derive(Clone, Copy)]
pub(crate) struct ChildLink {
    byte: u8,
    offset: u32,
}

/// Returns the file of these nodes. `capacity` is the number of bytes to reserve for it.
pub(crate) fn write(
    alloc: Global,
    nodes: &[TreeNode],
    capacity: usize,
) -> Result<Vec<u8>, AllocError>
    requires { length (with_parts (map part_of nodes.now) headed).bytes ≤ file_limit }
    ensures { IfOk result (λ v. v.items ≡ rooted (with_parts (map part_of nodes.now) headed)) }
{
    let mut out = Vec::with_capacity(alloc, capacity)?;
    push_number(&mut out, MAGIC)?;
    push_number(&mut out, VERSION)?;
    push_number(&mut out, 0)?;
    let mut links = Vec::new(alloc);
    for node in nodes {
        write_node(&mut out, &mut links, node)?;
    }
    let root = offset_of(&links, 0);
    put_root(&mut out, root);
    Ok(out)
}

/// Puts a number at the end.
fn push_number(out: &mut Vec<u8>, n: u32) -> Result<(), AllocError>
    ensures { OnOk result (out.new.items ≡ out.old.items ++ number n) }
{
    let mut bytes = [0; 4];
    BigEndian::write_u32(&mut bytes, n);
    out.extend_from_slice(&bytes)
}

/// Writes a node. It takes the links to its children from the end of the waiting links, and puts
/// its own link in their place.
fn write_node(
    out: &mut Vec<u8>,
    links: &mut Vec<ChildLink>,
    node: &TreeNode,
) -> Result<(), AllocError>
    requires { length (with_part (part_of node.now) (state out.old.items links.old.items)).bytes
        ≤ file_limit }
    ensures { OnOk result
        (state out.new.items links.new.items
        ≡ with_part (part_of node.now) (state out.old.items links.old.items)) }
{
    let start = links.len().saturating_sub(node.children.count);
    let place = out.len() as u32;
    let children = &links[start..];
    let offset = link_to(
        place,
        !node.prefix.is_empty(),
        !children.is_empty(),
        !node.values.is_empty(),
    );
    push_prefix(out, node.prefix)?;
    push_children(out, children)?;
    push_values(out, node.values)?;
    links.truncate(start);
    links.push(ChildLink {
        byte: node.byte,
        offset,
    })?;
    Ok(())
}

/// Returns the offset of the link with this byte, or 0 if no link has it.
fn offset_of(links: &[ChildLink], byte: usize) -> u32
    ensures { result ≡ offset (links_of links.now) byte }
{
    for link in links {
        if usize::from(link.byte) == byte {
            return link.offset;
        }
    }
    0
}

/// Writes the offset of the root to its place.
fn put_root(out: &mut [u8], root: u32)
    requires { FIRST_PLACE ≤ length out.old }
    ensures { out.new ≡ take 8 out.old ++ number root ++ drop FIRST_PLACE out.old }
{
    BigEndian::write_u32(&mut out[8..], root);
}

/// Returns the offset of the node at a place, by whether it has a prefix, children and values.
fn link_to(place: u32, has_prefix: bool, has_children: bool, has_values: bool) -> u32
    requires { place < 2 ^ 28 }
    ensures { result
        ≡ bit has_prefix * HAS_PREFIX
        + bit has_values * HAS_VALUES
        + bit has_children * HAS_CHILDREN
        + place }
{
    let prefix = if has_prefix { HAS_PREFIX } else { 0 };
    let values = if has_values { HAS_VALUES } else { 0 };
    let children = if has_children { HAS_CHILDREN } else { 0 };
    prefix + values + children + place
}

/// Puts a prefix at the end, with its NUL.
fn push_prefix(out: &mut Vec<u8>, prefix: &[u8]) -> Result<(), AllocError>
    ensures { OnOk result (out.new.items ≡ out.old.items ++ prefix_field prefix.now) }
{
    if prefix.is_empty() {
        return Ok(());
    }
    out.extend_from_slice(prefix)?;
    out.push(0)?;
    Ok(())
}

/// Puts the range of children at the end, with their offsets.
fn push_children(out: &mut Vec<u8>, links: &[ChildLink]) -> Result<(), AllocError>
    ensures { OnOk result (out.new.items ≡ out.old.items ++ children_field (links_of links.now)) }
{
    let (Some(first), Some(last)) = (links.first(), links.last()) else {
        return Ok(());
    };
    out.push(first.byte)?;
    out.push(last.byte)?;
    let start = usize::from(first.byte);
    let count = usize::from(last.byte).saturating_sub(start) + 1;
    push_offsets(out, links, start, count)
}

/// Puts values at the end, with their count.
fn push_values(out: &mut Vec<u8>, values: &[StoredValue]) -> Result<(), AllocError>
    requires { length values.now < 2 ^ 32 }
    ensures { OnOk result
        (out.new.items ≡ out.old.items ++ values_field (shown_values values.now)) }
{
    if values.is_empty() {
        return Ok(());
    }
    push_number(out, values.len() as u32)?;
    for value in values {
        push_value(out, value)?;
    }
    Ok(())
}

/// Puts the offsets for this many bytes at the end.
fn push_offsets(
    out: &mut Vec<u8>,
    links: &[ChildLink],
    first: usize,
    count: usize,
) -> Result<(), AllocError>
    requires { first + count ≤ 256 }
    ensures { OnOk result
        (out.new.items ≡ out.old.items ++ offsets_bytes (links_of links.now) first count) }
{
    let table = offset_table(links);
    for n in 0..count {
        push_number(out, table[first + n])?;
    }
    Ok(())
}

/// Puts a value at the end.
fn push_value(out: &mut Vec<u8>, value: &StoredValue) -> Result<(), AllocError>
    ensures { OnOk result (out.new.items ≡ out.old.items ++ value_bytes (value_of value.now)) }
{
    push_number(out, value.priority)?;
    out.extend_from_slice(value.text.as_bytes())?;
    out.push(0)?;
    Ok(())
}

/// Returns the offset for each byte, with 0 if no child has it.
fn offset_table(links: &[ChildLink]) -> [u32; 256]
    ensures { (byte : ℕ) → byte < 256 → slice_index result byte ≡ offset (links_of links.now) byte }
{
    let mut table = [0; 256];
    for n in (0..links.len()).rev() {
        table[usize::from(links[n].byte)] = links[n].offset;
    }
    table
}
