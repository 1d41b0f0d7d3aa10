// The size of a file, by its nodes.
ghost use Rattle.std.specs.Prelude.{◌≡◌, ◌+◌, ◌-◌, ◌^◌, min, map, sum_by};
ghost use Rattle.index_format.specs.declared.numbers.TheConstants.{FIRST_PLACE};
ghost use Rattle.index_write.specs.Lists.{shown_values};
ghost use Rattle.index_write.specs.Parts.{prefix_size, span_size, values_size, part_size};
ghost use Rattle.index_write.specs.Groups.{part_of};

use crate::key_map::StoredValue;
use crate::node::{Span, TreeNode};
use index_format::FIRST_PLACE;

/// Returns the size of the file of these nodes in bytes.
pub(crate) fn file_size(nodes: &[TreeNode]) -> u64
    ensures { result ≡ min (FIRST_PLACE + sum_by part_size (map part_of nodes.now)) (2 ^ 64 - 1) }
{
    let mut total = u64::from(FIRST_PLACE);
    for node in nodes {
        total = total.saturating_add(node_size(node));
    }
    total
}

/// Returns the size of a node in bytes.
fn node_size(node: &TreeNode) -> u64
    ensures { result ≡ min (part_size (part_of node.now)) (2 ^ 64 - 1) }
{
    prefix_size(node.prefix)
        .saturating_add(span_size(&node.children))
        .saturating_add(values_size(node.values))
}

/// Returns the size of a prefix with its NUL, in bytes.
fn prefix_size(prefix: &[u8]) -> u64
    ensures { result ≡ min (prefix_size prefix.now) (2 ^ 64 - 1) }
{
    if prefix.is_empty() {
        0
    } else {
        (prefix.len() as u64).saturating_add(1)
    }
}

/// Returns the size of the range of a node's children with its offsets, in bytes.
fn span_size(children: &Span) -> u64
    ensures { result ≡ span_size children.now }
{
    if children.count == 0 {
        0
    } else {
        2 + 4 * (u64::from(children.last).saturating_sub(u64::from(children.first)) + 1)
    }
}

/// Returns the size of values with their count, in bytes.
fn values_size(values: &[StoredValue]) -> u64
    ensures { result ≡ min (values_size (shown_values values.now)) (2 ^ 64 - 1) }
{
    if values.is_empty() {
        return 0;
    }
    let mut total: u64 = 4;
    for value in values {
        total = total
            .saturating_add(value.text.len() as u64)
            .saturating_add(5);
    }
    total
}
