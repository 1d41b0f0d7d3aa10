// The nodes of the tree of a map, in the order of the file.
ghost use Rattle.std.specs.Prelude.{◌≡◌, ◌≤◌, ◌<◌, ◌+◌, ◌^◌, [], ◌∷◌, ◌++◌, length, take, drop};
ghost use Rattle.std.specs.Prelude.{map, OnOk, IfOk, IfNone, IfSome};
ghost use Rattle.index_format.specs.Tree.{common, common_prefix, ending, groups, tree, Rises};
ghost use Rattle.index_write.specs.Lists.{shown_values};
ghost use Rattle.index_write.specs.Parts.{span_of, parts_of};
ghost use Rattle.index_write.specs.Groups.{entries_shown, at_depth, group_of, groups_of, ended};
ghost use Rattle.index_write.specs.Groups.{leading, AllGoOn, part_of, below, part_for, root_part};

use crate::key_map::StoredValue;
use std::alloc::{AllocError, Global};

/// A key with its values.
#[derive(Clone, Copy)]
pub(crate) struct KeyEntry<'a> {
    pub(crate) key: &'a [u8],
    pub(crate) values: &'a [StoredValue],
}

/// Entries whose keys begin alike, with the byte that leads to their node and the number of bytes
/// that are removed from their keys there.
#[derive(Clone, Copy)]
pub(crate) struct Group<'e, 'a> {
    byte: u8,
    entries: &'e [KeyEntry<'a>],
    depth: usize,
}

/// The bytes that lead to a node's children: the first and the last one, and their number.
#[derive(Clone, Copy)]
pub(crate) struct Span {
    pub(crate) first: u8,
    pub(crate) last: u8,
    pub(crate) count: usize,
}

/// A node without its children.
#[derive(Clone, Copy)]
pub(crate) struct TreeNode<'a> {
    pub(crate) byte: u8,
    pub(crate) prefix: &'a [u8],
    pub(crate) values: &'a [StoredValue],
    pub(crate) children: Span,
}

/// Returns the nodes of the tree in the order of the file. They are found in the reverse order,
/// each before those below it, and a vector keeps the groups whose nodes are still to be made.
pub(crate) fn nodes<'a>(
    alloc: Global,
    entries: &[KeyEntry<'a>],
) -> Result<Vec<TreeNode<'a>>, AllocError>
    requires { Rises (entries_shown entries.now) }
    ensures { IfOk result (λ v. map part_of v.items ≡ parts_of (tree (entries_shown entries.now))) }
{
    let mut pending = Vec::new(alloc);
    let mut nodes = Vec::new(alloc);
    nodes.push(root_of(entries, &mut pending)?)?;
    while let Some(group) = pending.pop() {
        nodes.push(node_of(&group, &mut pending)?)?;
    }
    nodes.reverse();
    Ok(nodes)
}

/// Returns the root of the tree of these entries, and puts the groups of its children after the
/// pending ones.
fn root_of<'e, 'a>(
    entries: &'e [KeyEntry<'a>],
    pending: &mut Vec<Group<'e, 'a>>,
) -> Result<TreeNode<'a>, AllocError>
    requires { Rises (entries_shown entries.now) }
    ensures node { IfOk result (λ n. part_of n ≡ root_part (entries_shown entries.now)) }
    ensures pending { OnOk result
        (groups_of pending.new.items
        ≡ groups_of pending.old.items ++ groups (entries_shown entries.now)) }
{
    let start = pending.len();
    push_groups(entries, 0, pending)?;
    Ok(TreeNode {
        byte: 0,
        prefix: &[],
        values: ending(entries, 0),
        children: span_of(&pending[start..]),
    })
}

/// Returns the node of a group. The groups below it go after the pending ones.
fn node_of<'e, 'a>(
    group: &Group<'e, 'a>,
    pending: &mut Vec<Group<'e, 'a>>,
) -> Result<TreeNode<'a>, AllocError>
    requires { Rises (group_of group.now).1 }
    ensures node { IfOk result (λ n. part_of n ≡ part_for group.now.byte (group_of group.now).1) }
    ensures pending { OnOk result
        (groups_of pending.new.items
        ≡ groups_of pending.old.items ++ groups (below (group_of group.now).1)) }
{
    let prefix = common_prefix(group.entries, group.depth);
    let depth = group.depth + prefix.len();
    let start = pending.len();
    push_groups(group.entries, depth, pending)?;
    Ok(TreeNode {
        byte: group.byte,
        prefix,
        values: ending(group.entries, depth),
        children: span_of(&pending[start..]),
    })
}

/// Puts the groups of the entries whose keys continue after the pending ones.
fn push_groups<'e, 'a>(
    entries: &'e [KeyEntry<'a>],
    depth: usize,
    pending: &mut Vec<Group<'e, 'a>>,
) -> Result<(), AllocError>
    requires { Rises (at_depth depth entries.now) }
    ensures { OnOk result
        (groups_of pending.new.items
        ≡ groups_of pending.old.items ++ groups (at_depth depth entries.now)) }
{
    let mut from = ended(entries, depth);
    while let Some((group, count)) = first_group(&entries[from..], depth) {
        pending.push(group)?;
        from += count;
    }
    Ok(())
}

/// Returns the values of the key that has only `depth` bytes. There are none if no key is so short.
fn ending<'a>(entries: &[KeyEntry<'a>], depth: usize) -> &'a [StoredValue]
    ensures { shown_values result.now ≡ ending (at_depth depth entries.now) }
{
    let Some(first) = entries.first() else {
        return &[];
    };
    if first.key.len() <= depth {
        first.values
    } else {
        &[]
    }
}

/// Returns the range of the bytes that lead to the nodes of groups.
fn span_of(groups: &[Group]) -> Span
    ensures { result ≡ span_of (map (λ g. g.0) (groups_of groups.now)) }
{
    match (groups.first(), groups.last()) {
        (Some(first), Some(last)) => Span {
            first: first.byte,
            last: last.byte,
            count: groups.len(),
        },
        _ => Span {
            first: 0,
            last: 0,
            count: 0,
        },
    }
}

/// Returns the longest prefix that is common to what is left of the keys. The keys rise, so it is
/// the common front of the first and the last.
fn common_prefix<'a>(entries: &[KeyEntry<'a>], depth: usize) -> &'a [u8]
    requires { Rises (at_depth depth entries.now) }
    ensures prefix { result.now ≡ common_prefix (at_depth depth entries.now) }
    ensures fits { depth + length result.now < 2 ^ 64 }
{
    let (Some(first), Some(last)) = (entries.first(), entries.last()) else {
        return &[];
    };
    let prefix = rest_of(first.key, depth);
    let common = common_length(prefix, rest_of(last.key, depth));
    &prefix[..common]
}

/// Returns how many of the keys have only `depth` bytes: the first one or none.
fn ended(entries: &[KeyEntry], depth: usize) -> usize
    ensures count { result ≡ ended (at_depth depth entries.now) }
    ensures within { result ≤ length entries.now }
{
    let Some(first) = entries.first() else {
        return 0;
    };
    if first.key.len() <= depth { 1 } else { 0 }
}

/// Returns the first group of entries whose keys all continue, and the number of its entries.
fn first_group<'e, 'a>(entries: &'e [KeyEntry<'a>], depth: usize) -> Option<(Group<'e, 'a>, usize)>
    requires { AllGoOn (at_depth depth entries.now) }
    ensures none { IfNone result (entries.now ≡ []) }
    ensures some { IfSome result
        (λ p. groups (at_depth depth entries.now)
        ≡ group_of p.0 ∷ groups (drop p.1 (at_depth depth entries.now))) }
    ensures more { IfSome result (λ p. 0 < p.1) }
    ensures within { IfSome result (λ p. p.1 ≤ length entries.now) }
{
    let first = entries.first()?;
    let byte = rest_of(first.key, depth)[0];
    let count = run_length(entries, depth, byte);
    let group = Group {
        byte,
        entries: &entries[..count],
        depth: depth + 1,
    };
    Some((group, count))
}

/// Returns the rest of a key without this many bytes at its front.
fn rest_of(key: &[u8], depth: usize) -> &[u8]
    ensures rest { result.now ≡ drop depth key.now }
    ensures fits { depth + length result.now < 2 ^ 64 }
{
    if depth <= key.len() {
        &key[depth..]
    } else {
        &[]
    }
}

/// Returns the length of the common front of two keys.
fn common_length(a: &[u8], b: &[u8]) -> usize
    ensures within { result ≤ length a.now }
    ensures common { take result a.now ≡ common a.now b.now }
{
    let mut n = 0;
    while n < a.len() && n < b.len() && a[n] == b[n] {
        n += 1;
    }
    n
}

/// Returns the number of entries at the front whose keys continue with this byte.
fn run_length(entries: &[KeyEntry], depth: usize, byte: u8) -> usize
    ensures count { result ≡ leading byte (at_depth depth entries.now) }
    ensures within { result ≤ length entries.now }
{
    for (n, entry) in entries.iter().enumerate() {
        if entry.key.len() <= depth || entry.key[depth] != byte {
            return n;
        }
    }
    entries.len()
}
