ghost use Rattle.std.specs.Prelude.{◌≡◌, ◌+◌, ◌≤◌, ◌++◌, [], length, map, Some, None, IfOk, OnOk};
ghost use Rattle.std.specs.Prelude.{IfErr, IfNone, IfSome, slice_get};
ghost use Rattle.std.specs.FinMap.{entries};
ghost use Rattle.index_format.specs.Map.{KeyValues, values_of};
ghost use Rattle.index_format.specs.Node.{root, values};
ghost use Rattle.index_format.specs.Walk.{at, visits};
ghost use Rattle.index_format.specs.Check.{index_fault};
ghost use Rattle.index_format.specs.Holds.{Holds};
ghost use Rattle.index_nodes.specs.Faults.{IsFirstFault};
ghost use Rattle.index_nodes.specs.Places.{IsPlaceOf, value_at};
ghost use Rattle.index_nodes.specs.Fields.{link_of, IsNodeOf};
ghost use Rattle.index_format.specs.Nodes.{node_count};
ghost use Rattle.index_format.specs.Listing.{IsListing};
ghost use Rattle.index_read.specs.Contents.{contents, values_matching, wild_values};
ghost use Rattle.index_read.specs.Values.{found_values, shown_pairs, IsWild, IsMatching};
ghost use Rattle.index_read.specs.Walks.{walk_key, IsWalking};

use crate::reach::reach;
use crate::room::Room;
use crate::search::Search;
use crate::value::{Pair, Pairs, Value, Values, push_pairs, push_values};
use crate::walk::KeyWalk;
use index_nodes::{IndexFault, Node, Nodes, Place, Steps};
use km_names::Blob;
use std::alloc::{AllocError, Global};
use std::sync::ledger::Ledger;

/// A module index, by the nodes of its file.
#[derive(Drop)]
pub struct Index {
    /// The nodes of the file.
    pub nodes: Nodes,
}

impl Index {
    /// Takes the bytes of a file in kmod's index format 2.1. It is refused exactly for the first
    /// fault that the format's reader meets, or out of memory, as by
    /// [`Nodes::adopt`](index_nodes::Nodes::adopt).
    pub fn adopt(alloc: Global, bytes: Blob) -> Result<Index, IndexFault>
        ensures bytes { IfOk result (λ index. index.nodes ≡ bytes) }
        ensures accepted { OnOk result (index_fault bytes ≡ None) }
        ensures fault { IfErr result (IsFirstFault (index_fault bytes)) }
        ensures held { IfOk result (λ index. Holds index.nodes (contents index.nodes)) }
    {
        let nodes = Nodes::adopt(alloc, bytes)?;
        Ok(Index { nodes })
    }

    /// Finds the place of the first value of a key, or `None` exactly if the key has no value. It
    /// reads the nodes of the key's walk, at most one more than the key has bytes.
    pub fn find_one<L: Ledger>(&self, key: &[u8], steps: &mut Steps<L>) -> Option<Place>
        ensures none { IfNone result (at self.now.nodes (root self.now.nodes) key.now ≡ []) }
        ensures first { IfSome result
            (λ place. slice_get (at self.now.nodes (root self.now.nodes) key.now) 0
            ≡ Some (value_at self.now.nodes place)) }
        ensures place { IfSome result (IsPlaceOf self.now.nodes) }
        ensures held { Holds self.now.nodes (contents self.now.nodes) }
        ensures cost { steps.new ≡ steps.old + visits self.now.nodes key.now }
        ensures few { steps.new ≤ steps.old + (length key.now + 1) }
    {
        let node = reach(&self.nodes, key, steps)?;
        self.nodes.first_value(&node)
    }

    /// Returns the text of the value at a place.
    pub fn text(&self, at: &Place) -> &[u8]
        requires { IsPlaceOf self.now.nodes at.now }
        ensures { result.now ≡ (value_at self.now.nodes at.now).1 }
    {
        self.nodes.text(at)
    }

    /// Finds all values of a key, in their order. It reads the nodes of the key's walk, at most one
    /// more than the key has bytes.
    pub fn find<L: Ledger>(
        &self,
        alloc: Global,
        key: &[u8],
        steps: &mut Steps<L>,
    ) -> Result<Values, AllocError>
        ensures values { IfOk result
            (λ found. found_values found ≡ at self.now.nodes (root self.now.nodes) key.now) }
        ensures map { (m : KeyValues) → Holds self.now.nodes m
            → IfOk result (λ found. found_values found ≡ values_of m key.now) }
        ensures held { Holds self.now.nodes (contents self.now.nodes) }
        ensures cost { steps.new ≡ steps.old + visits self.now.nodes key.now }
        ensures few { steps.new ≤ steps.old + (length key.now + 1) }
    {
        let Some(node) = reach(&self.nodes, key, steps) else {
            return Ok(Values::new(alloc));
        };
        let mut found = Vec::new(alloc);
        let mut room = Room::of_one_key();
        push_values(alloc, &self.nodes, &node, &mut found, &mut room)?;
        Ok(Values::from_vec(found))
    }

    /// Lists all keys, each with its values, by the bytes of the keys and then by place. Each node
    /// is read at most once.
    ///
    /// # Errors
    ///
    /// Out of memory, also if the list would take more than 268,435,456 bytes.
    pub fn all<L: Ledger>(&self, alloc: Global, steps: &mut Steps<L>) -> Result<Pairs, AllocError>
        ensures listing { IfOk result
            (λ found. IsListing (at self.now.nodes (root self.now.nodes)) (shown_pairs found)) }
        ensures map { (m : KeyValues) → Holds self.now.nodes m
            → IfOk result (λ found. IsListing (values_of m) (shown_pairs found)) }
        ensures held { IfOk result
            (λ found. IsListing (values_of (contents self.now.nodes)) (shown_pairs found)) }
        ensures cost { steps.new ≤ steps.old + node_count self.now.nodes }
    {
        let mut found = Vec::new(alloc);
        let mut room = Room::new();
        let (mut walk, root) = KeyWalk::start(alloc, &self.nodes, steps)?;
        let mut next = Some(root);
        while let Some(node) = next {
            push_node(alloc, &self.nodes, &node, &mut walk, &mut found, &mut room)?;
            next = walk.next(&self.nodes, steps)?;
        }
        Ok(Pairs::from_vec(found))
    }

    /// Finds the values of every key that as a pattern matches the text: by rising priority, then
    /// by the bytes of the key, then by place. Each node is read at most once. The matching takes
    /// time in proportion to the file for each 64 bytes of the text, whatever nodes overlap.
    ///
    /// # Errors
    ///
    /// Out of memory, also if the list takes more than 268,435,456 bytes.
    pub fn wild<L: Ledger>(
        &self,
        alloc: Global,
        text: &[u8],
        steps: &mut Steps<L>,
    ) -> Result<Values, AllocError>
        ensures wild { IfOk result
            (λ found. IsWild (at self.now.nodes (root self.now.nodes)) text.now
            (found_values found)) }
        ensures map { (m : KeyValues) → Holds self.now.nodes m
            → IfOk result (λ found. IsWild (values_of m) text.now (found_values found)) }
        ensures exact { IfOk result
            (λ found. found_values found ≡ wild_values (contents self.now.nodes) text.now) }
        ensures cost { steps.new ≤ steps.old + node_count self.now.nodes }
    {
        let mut found = self.matching(alloc, text, steps)?;
        found.sort_by_key(|value| value.priority)?;
        Ok(Values::from_vec(found))
    }

    /// Returns the values of every key that matches the text, by the bytes of the key and then by
    /// place.
    fn matching<L: Ledger>(
        &self,
        alloc: Global,
        text: &[u8],
        steps: &mut Steps<L>,
    ) -> Result<Vec<Value>, AllocError>
        ensures matching { IfOk result
            (λ found. IsMatching (at self.now.nodes (root self.now.nodes)) text.now
            (found_values found.items)) }
        ensures exact { IfOk result
            (λ found. found_values found.items
            ≡ values_matching (entries (contents self.now.nodes)) text.now) }
        ensures cost { steps.new ≤ steps.old + node_count self.now.nodes }
    {
        let mut found = Vec::new(alloc);
        let mut room = Room::new();
        let (mut search, first) = Search::start(alloc, &self.nodes, text, steps)?;
        let mut next = first;
        while let Some(reached) = next {
            if reached.is_match {
                push_values(alloc, &self.nodes, &reached.node, &mut found, &mut room)?;
            }
            next = search.next(&self.nodes, steps)?;
        }
        Ok(found)
    }
}

/// Puts the key of the node that a walk reached last at the end, with each of its values. If it has
/// no value, the key isn't written.
fn push_node(
    alloc: Global,
    nodes: &Nodes,
    node: &Node,
    walk: &mut KeyWalk,
    found: &mut Vec<Pair>,
    room: &mut Room,
) -> Result<(), AllocError>
    requires node { IsNodeOf nodes.now node.now }
    requires walking { IsWalking nodes.now walk.old }
    ensures walking { OnOk result (IsWalking nodes.now walk.new) }
    ensures levels { OnOk result (walk.new.levels.items ≡ walk.old.levels.items) }
    ensures pairs { OnOk result
        (shown_pairs found.new.items
        ≡ shown_pairs found.old.items
        ++ map (λ v. (walk_key nodes.now walk.old, v))
        (values nodes.now (link_of node.now))) }
{
    if nodes.first_value(node).is_none() {
        return Ok(());
    }
    walk.write_key(nodes)?;
    push_pairs(alloc, nodes, node, walk.key.as_slice(), found, room)
}
