// The first value of each key of an index.
ghost use Rattle.std.specs.Prelude.{◌≡◌, ◌<◌, [], ◌∷◌, None, IfOk, IfSome, OnOk, OnErr};
ghost use Rattle.std.specs.Prelude.{MatchOption};
ghost use Rattle.std.specs.FinMap.{entries};
ghost use Rattle.index_format.specs.Check.{index_fault};
ghost use Rattle.index_nodes.specs.Fields.{link_of, IsNodeOf};
ghost use Rattle.index_read.specs.Contents.{contents};
ghost use Rattle.index_read.specs.Firsts.{firsts_of};
ghost use Rattle.index_read.specs.FirstSteps.{IsOnWay, IsReached, first_items, reached, still};
ghost use Rattle.index_read.specs.Walks.{IsWalking};

use crate::index::Index;
use crate::walk::KeyWalk;
use index_nodes::{Node, Nodes, Steps};
use std::alloc::{AllocError, Global};
use std::marker::{Brand, Model};
use std::sync::ledger::{Blank, Ledger};

/// The first value of a key.
#[derive(Clone, Copy)]
pub struct FirstValue<'a> {
    /// Its priority.
    pub priority: u32,
    /// Its text, without a NUL.
    pub text: &'a [u8],
}

/// A walk over the keys of an index that have a value, by the bytes of the keys, each with its
/// first value. Each node is read at most once, no text is copied, and of the keys only the last
/// one is kept. Contracts see the key of the value that came last, and what is still to come.
#[derive(Drop)]
pub struct FirstWalk<'a> {
    nodes: &'a Nodes,
    walk: KeyWalk,
    /// The root, until it is looked at.
    root: Option<Node>,
}

impl<'a> Model for FirstWalk<'a> {
    ghost use Rattle.index_read.specs.Firsts.{FirstsLeft};
    ghost use Rattle.index_read.specs.FirstSteps.{IsOnWay, first_items, still};

    ghost Value = { FirstsLeft };

    ghost view = { λ w. record {
      key = w.walk.key.items;
      left = first_items w.nodes.now (still w.nodes.now w.walk w.root);
    } };

    ghost invariant = { λ w. IsOnWay w.nodes.now w.walk w.root };
}

impl<'a> FirstWalk<'a> {
    /// Begins before the first key of an index that has a value.
    ///
    /// # Errors
    ///
    /// Out of memory.
    pub fn start(alloc: Global, index: &'a Index) -> Result<FirstWalk<'a>, AllocError>
        ensures { IfOk result (λ walk. walk.left ≡ firsts_of (entries (contents index.now.nodes))) }
    {
        start_over::<Brand>(alloc, &index.nodes, Blank::new(1))
    }

    /// Goes on to the next key that has a value, and returns its first value. Returns `None`
    /// exactly if there is none left.
    ///
    /// # Errors
    ///
    /// Out of memory. Then nothing is left.
    pub fn next(&mut self) -> Result<Option<FirstValue<'a>>, AllocError>
        ensures next { IfOk result
            (λ found. MatchOption found (self.old.left ≡ [])
            (λ first. self.old.left
            ≡ (self.new.key, (first.priority, first.text.now)) ∷ self.new.left)) }
        ensures none { IfOk result
            (λ found. MatchOption found (self.new.left ≡ []) (λ first. Unit {0})) }
        ensures over { OnErr result (self.new.left ≡ []) }
    {
        let nodes = self.nodes;
        match next_over::<Brand>(nodes, &mut self.walk, &mut self.root, Blank::new(1)) {
            Ok(Some(first)) => Ok(Some(first)),
            Ok(None) => {
                self.walk.stop();
                self.root = None;
                Ok(None)
            }
            Err(error) => {
                self.walk.stop();
                self.root = None;
                Err(error)
            }
        }
    }

    /// Returns the key of the value that came last.
    pub fn key(&self) -> &[u8]
        ensures { result.now ≡ self.now.key }
    {
        self.walk.key.as_slice()
    }
}

fn start_over<'a, L: Ledger>(
    alloc: Global,
    nodes: &'a Nodes,
    blank: Blank,
) -> Result<FirstWalk<'a>, AllocError>
    requires ledger { blank.name ≡ L.name }
    requires parts { blank.parts ≡ L.parts }
    requires some { 0 < blank.parts }
    ensures { IfOk result (λ walk. walk.left ≡ firsts_of (entries (contents nodes.now))) }
{
    let mut steps = Steps::<L>::new(blank);
    let (walk, root) = KeyWalk::start(alloc, nodes, &mut steps)?;
    Ok(FirstWalk {
        nodes,
        walk,
        root: Some(root),
    })
}

/// Goes on to the next node that has a value, and writes its key.
fn next_over<'a, L: Ledger>(
    nodes: &'a Nodes,
    walk: &mut KeyWalk,
    root: &mut Option<Node>,
    blank: Blank,
) -> Result<Option<FirstValue<'a>>, AllocError>
    requires ledger { blank.name ≡ L.name }
    requires parts { blank.parts ≡ L.parts }
    requires some { 0 < blank.parts }
    requires way { IsOnWay nodes.now walk.old root.old }
    ensures next { IfOk result
        (λ found. MatchOption found (first_items nodes.now (still nodes.now walk.old root.old) ≡ [])
        (λ first. first_items nodes.now (still nodes.now walk.old root.old)
        ≡ (walk.new.key.items, (first.priority, first.text.now))
        ∷ first_items nodes.now (still nodes.now walk.new root.new))) }
    ensures way { IfOk result
        (λ found. IfSome found (λ first. IsOnWay nodes.now walk.new root.new)) }
{
    let mut steps = Steps::<L>::new(blank);
    while let Some(node) = go_on(nodes, walk, root, &mut steps)? {
        if let Some(place) = nodes.first_value(&node) {
            walk.write_key(nodes)?;
            return Ok(Some(FirstValue {
                priority: place.priority(),
                text: nodes.text(&place),
            }));
        }
    }
    Ok(None)
}

/// Goes on to the root if it is still to be looked at, or else to the next node. Returns `None` if
/// none is left.
fn go_on<L: Ledger>(
    nodes: &Nodes,
    walk: &mut KeyWalk,
    root: &mut Option<Node>,
    steps: &mut Steps<L>,
) -> Result<Option<Node>, AllocError>
    requires way { IsOnWay nodes.now walk.old root.old }
    ensures goes_on { IfOk result
        (λ found. reached nodes.now walk.new found ≡ still nodes.now walk.old root.old) }
    ensures way { IfOk result (IsReached nodes.now walk.new) }
    ensures root { OnOk result (root.new ≡ None) }
{
    if let Some(node) = root.take() {
        return Ok(Some(node));
    }
    walk.next(nodes, steps)
}
