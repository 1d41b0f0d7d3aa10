ghost use Rattle.std.specs.Prelude.{◌≡◌, ◌+◌, ◌-◌, ◌≤◌, ◌<◌, ◌∷◌, [], ℕ, length, take, drop, Some};
ghost use Rattle.std.specs.Prelude.{◌++◌, List};
ghost use Rattle.std.specs.Prelude.{None, IfOk, OnOk, IfErr, IfNone, IfSome, slice_get};
ghost use Rattle.index_format.specs.Map.{Value as IndexValue};
ghost use Rattle.index_format.specs.Node.{root, prefix, child, values};
ghost use Rattle.index_format.specs.Check.{index_fault};
ghost use Rattle.index_format.specs.Nodes.{IsNode};
ghost use Rattle.index_nodes.specs.Faults.{IsFirstFault};
ghost use Rattle.index_nodes.specs.Fields.{link_of, IsNodeOf};
ghost use Rattle.index_nodes.specs.Places.{IsPlaceOf, values_left, value_at};
ghost use Rattle.index_nodes.specs.Runs.{IsRunOf, run_start, run_values, start_of};

use crate::check::check;
use crate::fault::IndexFault;
use crate::fields::node_at;
use crate::node::{Node, NodeRef};
use crate::place::Place;
use crate::read::{
    child_link, first_place, next_link, next_place, prefix_of, prefix_range, text_at,
};
use crate::run::{Run, joined, place_after, run_at};
use crate::steps::Steps;
use crate::text_ends::TextEnds;
use km_names::{Blob, be_u32_at};
use std::alloc::Global;
use std::marker::Model;
use std::sync::ledger::Ledger;

/// The place of the root's offset.
const ROOT_PLACE: usize = 8;

/// A module index that was checked. Contracts see it as the bytes of its file.
#[derive(Drop)]
pub struct Nodes {
    bytes: Blob,
    ends: TextEnds,
}

impl Model for Nodes {
    ghost use Rattle.std.specs.Prelude.{◌≡◌, List, ℕ, None};
    ghost use Rattle.index_format.specs.Check.{index_fault};
    ghost use Rattle.index_nodes.specs.TextEnds.{AreTextEnds};

    ghost Value = { List ℕ };

    ghost view = { λ n. n.bytes };

    ghost invariant = { λ n. (index_fault n.bytes ≡ None) × AreTextEnds n.bytes n.ends };
}

impl Nodes {
    /// Takes the bytes of a file in kmod's index format 2.1. It is refused exactly for the first
    /// fault that the format's reader meets, or out of memory.
    pub fn adopt(alloc: Global, bytes: Blob) -> Result<Nodes, IndexFault>
        ensures bytes { IfOk result (λ nodes. nodes ≡ bytes) }
        ensures accepted { OnOk result (index_fault bytes ≡ None) }
        ensures fault { IfErr result (IsFirstFault (index_fault bytes)) }
    {
        let ends = TextEnds::new(alloc, bytes.as_bytes())?;
        check(alloc, bytes.as_bytes(), &ends)?;
        Ok(Nodes { bytes, ends })
    }

    /// Returns the name of the root.
    pub fn root(&self) -> NodeRef
        ensures root { result ≡ root self.now }
        ensures node { IsNode self.now result }
        ensures accepted { index_fault self.now ≡ None }
    {
        NodeRef {
            link: be_u32_at(self.bytes.as_bytes(), ROOT_PLACE),
        }
    }

    /// Reads the node of a name. It is one step.
    pub fn node<L: Ledger>(&self, at: &NodeRef, steps: &mut Steps<L>) -> Node
        requires { IsNode self.now at.now }
        ensures node { IsNodeOf self.now result }
        ensures name { link_of result ≡ at.now }
        ensures step { steps.new ≡ steps.old + 1 }
    {
        steps.tick();
        node_at(self.bytes.as_bytes(), &self.ends, at.link).unwrap()
    }

    /// Returns the prefix of a node, which may be empty.
    pub fn prefix(&self, node: &Node) -> &[u8]
        requires { IsNodeOf self.now node.now }
        ensures { result.now ≡ prefix self.now (link_of node.now) }
    {
        prefix_of(self.bytes.as_bytes(), node)
    }

    /// Returns where the prefix of a node begins in the file and where it ends.
    pub fn prefix_range(&self, node: &Node) -> (usize, usize)
        requires { IsNodeOf self.now node.now }
        ensures order { result.0 ≤ result.1 }
        ensures within { result.1 ≤ length self.now }
        ensures prefix { take (result.1 - result.0) (drop result.0 self.now)
            ≡ prefix self.now (link_of node.now) }
    {
        prefix_range(self.bytes.as_bytes(), node)
    }

    /// Returns the bytes of the file, in which the ranges of prefixes are.
    pub fn bytes(&self) -> &[u8]
        ensures { result.now ≡ self.now }
    {
        self.bytes.as_bytes()
    }

    /// Returns the name of the child of a node for a byte, or `None` exactly if that child is
    /// absent.
    pub fn child(&self, node: &Node, byte: u8) -> Option<NodeRef>
        requires { IsNodeOf self.now node.now }
        ensures none { IfNone result (child self.now (link_of node.now) byte ≡ None) }
        ensures some { IfSome result (λ next. child self.now (link_of node.now) byte ≡ Some next) }
        ensures node { IfSome result (IsNode self.now) }
    {
        let link = child_link(self.bytes.as_bytes(), node, byte)?;
        Some(NodeRef { link })
    }

    /// Returns the first child of a node for a byte from `from` on, by its byte and its name, or
    /// `None` exactly if there is no such child.
    pub fn next_child(&self, node: &Node, from: u8) -> Option<(u8, NodeRef)>
        requires { IsNodeOf self.now node.now }
        ensures none { IfNone result
            ((byte : ℕ) → from ≤ byte → child self.now (link_of node.now) byte ≡ None) }
        ensures some { IfSome result
            (λ next. child self.now (link_of node.now) next.0 ≡ Some next.1) }
        ensures from { IfSome result (λ next. from ≤ next.0) }
        ensures first { IfSome result
            (λ next. (byte : ℕ) → from ≤ byte → byte < next.0
            → child self.now (link_of node.now) byte ≡ None) }
        ensures top { IfSome result (λ next. next.0 ≤ 127) }
        ensures node { IfSome result (λ next. IsNode self.now next.1) }
    {
        let (byte, link) = next_link(self.bytes.as_bytes(), node, from)?;
        Some((byte, NodeRef { link }))
    }

    /// Returns the place of a node's first value, or `None` exactly if it has no value.
    pub fn first_value(&self, node: &Node) -> Option<Place>
        requires { IsNodeOf self.now node.now }
        ensures none { IfNone result (values self.now (link_of node.now) ≡ []) }
        ensures some { IfSome result
            (λ at. values_left self.now at ≡ values self.now (link_of node.now)) }
        ensures first { IfSome result
            (λ at. slice_get (values self.now (link_of node.now)) 0 ≡ Some (value_at self.now at)) }
        ensures place { IfSome result (IsPlaceOf self.now) }
    {
        first_place(self.bytes.as_bytes(), node)
    }

    /// Returns the place of the value after another one, or `None` exactly if that one is the last
    /// of its node.
    pub fn next_value(&self, at: &Place) -> Option<Place>
        requires { IsPlaceOf self.now at.now }
        ensures none { IfNone result (values_left self.now at.now ≡ value_at self.now at.now ∷ []) }
        ensures some { IfSome result
            (λ next. values_left self.now at.now
            ≡ value_at self.now at.now ∷ values_left self.now next) }
        ensures place { IfSome result (IsPlaceOf self.now) }
    {
        next_place(self.bytes.as_bytes(), at)
    }

    /// Returns the text of the value at a place.
    pub fn text(&self, at: &Place) -> &[u8]
        requires { IsPlaceOf self.now at.now }
        ensures { result.now ≡ (value_at self.now at.now).1 }
    {
        text_at(self.bytes.as_bytes(), at)
    }

    /// Returns the run of the value at a place.
    pub fn run(&self, at: &Place) -> Run
        requires { IsPlaceOf self.now at.now }
        ensures run { IsRunOf self.now result }
        ensures start { run_start result ≡ start_of at.now }
        ensures values { run_values self.now result ≡ value_at self.now at.now ∷ [] }
    {
        run_at(self.bytes.as_bytes(), at)
    }

    /// Returns the run of two, of which the second begins where the first one ends. Returns `None`
    /// if it begins elsewhere, or if they have too many values.
    pub fn join(&self, first: &Run, second: &Run) -> Option<Run>
        requires first { IsRunOf self.now first.now }
        requires second { IsRunOf self.now second.now }
        ensures run { IfSome result (IsRunOf self.now) }
        ensures start { IfSome result (λ run. run_start run ≡ run_start first.now) }
        ensures values { IfSome result
            (λ run. run_values self.now run
            ≡ run_values self.now first.now ++ run_values self.now second.now) }
    {
        joined(self.bytes.as_bytes(), first, second)
    }

    /// Returns the place of the value after a run that begins at a place. Returns `None` if the run
    /// has all values that are left of the place's node.
    pub fn value_after(&self, at: &Place, run: &Run) -> Option<Place>
        requires place { IsPlaceOf self.now at.now }
        requires run { IsRunOf self.now run.now }
        requires start { run_start run.now ≡ start_of at.now }
        ensures none { IfNone result ((more : List IndexValue)
            × (values_left self.now at.now ++ more ≡ run_values self.now run.now)) }
        ensures some { IfSome result
            (λ next. values_left self.now at.now
            ≡ run_values self.now run.now ++ values_left self.now next) }
        ensures place { IfSome result (IsPlaceOf self.now) }
    {
        place_after(self.bytes.as_bytes(), at, run)
    }
}
