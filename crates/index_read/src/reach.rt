// The node at which a key ends.
ghost use Rattle.std.specs.Prelude.{◌≡◌, ◌+◌, [], ◌∷◌, length, drop, nat_eq, true, false, None};
ghost use Rattle.std.specs.Prelude.{IfSome, MatchOption, option_map};
ghost use Rattle.std.specs.List.{starts_with};
ghost use Rattle.index_format.specs.Node.{root};
ghost use Rattle.index_format.specs.Check.{index_fault};
ghost use Rattle.index_format.specs.Walk.{walk, visits};
ghost use Rattle.index_nodes.specs.Fields.{link_of, IsNodeOf};

use index_nodes::{Node, Nodes, Steps};
use std::sync::ledger::Ledger;

/// Finds the node at which a key ends, or `None` if its walk is lost.
pub(crate) fn reach<L: Ledger>(nodes: &Nodes, key: &[u8], steps: &mut Steps<L>) -> Option<Node>
    ensures reached { option_map link_of result
        ≡ (walk nodes.now (root nodes.now) key.now).reached }
    ensures node { IfSome result (IsNodeOf nodes.now) }
    ensures cost { steps.new ≡ steps.old + visits nodes.now key.now }
    ensures accepted { index_fault nodes.now ≡ None }
{
    let mut rest = key;
    let mut at = nodes.root();
    'walk: loop {
        let node = nodes.node(&at, steps);
        let after_prefix = rest_after(rest, nodes.prefix(&node))?;
        let Some((byte, after)) = split_byte(after_prefix) else {
            return Some(node);
        };
        at = nodes.child(&node, byte)?;
        rest = after;
    }
}

/// Returns what is left of a key after a prefix, or `None` if it doesn't begin with the prefix.
fn rest_after<'k>(key: &'k [u8], prefix: &[u8]) -> Option<&'k [u8]>
    ensures { MatchOption result (starts_with nat_eq key.now prefix.now ≡ false)
        (λ rest. (starts_with nat_eq key.now prefix.now ≡ true)
        × (drop (length prefix.now) key.now ≡ rest.now)) }
{
    if key.starts_with(prefix) {
        Some(&key[prefix.len()..])
    } else {
        None
    }
}

/// Returns the first byte, and those after it, or `None` if there is no byte.
fn split_byte(bytes: &[u8]) -> Option<(u8, &[u8])>
    ensures { MatchOption result (bytes.now ≡ []) (λ p. bytes.now ≡ p.0 ∷ p.1.now) }
{
    if bytes.is_empty() {
        None
    } else {
        Some((bytes[0], &bytes[1..]))
    }
}
