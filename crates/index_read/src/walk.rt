// A walk over all nodes of an index, in the order of their keys.
ghost use Rattle.std.specs.Prelude.{◌≡◌, ℕ, List, ◌+◌, ◌≤◌, ◌<◌, ◌∷◌, ◌++◌, [], length, IfOk, OnOk};
ghost use Rattle.std.specs.Prelude.{Some, None, MatchOption};
ghost use Rattle.index_format.specs.Check.{index_fault};
ghost use Rattle.index_nodes.specs.Fields.{link_of, IsNodeOf};
ghost use Rattle.index_read.specs.Keys.{all_items, piece};
ghost use Rattle.index_read.specs.Walks.{walk_key, left, left_after, IsWritten, IsWalking, GoesOn};
ghost use Rattle.index_read.specs.Walks.{IsTop, after_byte, front, level_of};
ghost use Rattle.index_read.specs.declared.walk.Level.{Level};

use index_nodes::{Node, Nodes, Steps};
use std::alloc::{AllocError, Global};
use std::sync::ledger::Ledger;

/// A node whose children are visited: the byte that leads to it, unless it is the root, and the
/// byte from which on its children are still to come.
#[derive(Clone, Copy)]
pub(crate) struct Level {
    pub(crate) node: Node,
    pub(crate) byte: Option<u8>,
    pub(crate) next: u8,
}

/// A walk over all nodes in the order of their keys. It keeps the levels that it is on. The key of
/// a node is written only if it is asked for. What is written goes on from the levels that it has
/// in common with the key that was written before. Nodes on one way down that have children have
/// no bytes of their prefixes in common, so a key is no longer than thrice the file.
#[derive(Drop)]
pub(crate) struct KeyWalk {
    /// The key of the first levels, as many as are written.
    pub(crate) key: Vec<u8>,
    pub(crate) written: usize,
    pub(crate) levels: Vec<Level>,
}

impl KeyWalk {
    /// Begins a walk at the root, which is one step.
    pub(crate) fn start<L: Ledger>(
        alloc: Global,
        nodes: &Nodes,
        steps: &mut Steps<L>,
    ) -> Result<(KeyWalk, Node), AllocError>
        ensures cost { steps.new ≡ steps.old + 1 }
        ensures still { IfOk result
            (λ r. all_items nodes.now
            ≡ (walk_key nodes.now r.0, link_of r.1) ∷ left nodes.now r.0) }
        ensures node { IfOk result (λ r. IsNodeOf nodes.now r.1) }
        ensures walking { IfOk result (λ r. IsWalking nodes.now r.0) }
        ensures accepted { index_fault nodes.now ≡ None }
    {
        let node = nodes.node(&nodes.root(), steps);
        let mut levels = Vec::new(alloc);
        levels.push(Level {
            node,
            byte: None,
            next: 0,
        })?;
        let walk = KeyWalk {
            key: Vec::new(alloc),
            written: 0,
            levels,
        };
        Ok((walk, node))
    }

    /// Returns the level that the walk is on, if there is one.
    #[inline(always)]
    fn top(&self) -> Option<Level>
        ensures { MatchOption result (self.now.levels.items ≡ []) (IsTop self.now.levels.items) }
    {
        self.levels.last().copied()
    }

    /// Goes to the child of the level that the walk is on for a byte.
    #[inline(always)]
    fn enter(&mut self, byte: u8, node: &Node) -> Result<(), AllocError>
        requires byte { byte ≤ 127 }
        requires some { 0 < length self.old.levels.items }
        ensures key { OnOk result (self.new.key.items ≡ self.old.key.items) }
        ensures written { OnOk result (self.new.written ≡ self.old.written) }
        ensures levels { OnOk result ((level : Level) → IsTop self.old.levels.items level
            → self.new.levels.items
            ≡ (front self.old.levels.items ++ after_byte level byte ∷ [])
            ++ level_of node.now (Some byte) ∷ []) }
    {
        let top = self.levels.len() - 1;
        self.levels[top].next = byte + 1;
        self.levels.push(Level {
            node: *node,
            byte: Some(byte),
            next: 0,
        })?;
        Ok(())
    }

    /// Drops what is written of a level that the walk left.
    fn leave(&mut self, nodes: &Nodes, level: &Level)
        requires node { IsNodeOf nodes.now level.now.node }
        requires written { IsWritten nodes.now self.old.key.items self.old.written
            (self.old.levels.items ++ level.now ∷ []) }
        ensures levels { self.new.levels.items ≡ self.old.levels.items }
        ensures written { IsWritten nodes.now self.new.key.items self.new.written
            self.new.levels.items }
    {
        let count = self.levels.len();
        if self.written > count {
            let piece = nodes.prefix(&level.node).len() + usize::from(level.byte.is_some());
            self.key.truncate(self.key.len() - piece);
            self.written = count;
        }
    }

    /// Leaves the level that the walk is on.
    fn go_up(&mut self, nodes: &Nodes, level: &Level)
        requires top { IsTop self.old.levels.items level.now }
        requires node { IsNodeOf nodes.now level.now.node }
        requires written { IsWritten nodes.now self.old.key.items self.old.written
            self.old.levels.items }
        ensures levels { self.new.levels.items ≡ front self.old.levels.items }
        ensures written { IsWritten nodes.now self.new.key.items self.new.written
            self.new.levels.items }
    {
        self.levels.truncate(self.levels.len() - 1);
        self.leave(nodes, level);
    }

    /// Ends the walk, so that no node is left.
    pub(crate) fn stop(&mut self)
        ensures levels { self.new.levels.items ≡ [] }
        ensures walking { (b : List ℕ) → IsWalking b self.new }
    {
        self.key.clear();
        self.written = 0;
        self.levels.clear();
    }

    /// Goes on to the next node, which is one step. Returns `None` if none is left.
    pub(crate) fn next<L: Ledger>(
        &mut self,
        nodes: &Nodes,
        steps: &mut Steps<L>,
    ) -> Result<Option<Node>, AllocError>
        requires walking { IsWalking nodes.now self.old }
        requires accepted { index_fault nodes.now ≡ None }
        ensures goes_on { IfOk result (GoesOn nodes.now self.old self.new) }
        ensures cost { steps.new + length (left_after result nodes.now self.new)
            ≤ steps.old + length (left nodes.now self.old) }
    {
        while let Some(level) = self.top() {
            let Some((byte, at)) = nodes.next_child(&level.node, level.next) else {
                self.go_up(nodes, &level);
                continue;
            };
            let node = nodes.node(&at, steps);
            self.enter(byte, &node)?;
            return Ok(Some(node));
        }
        Ok(None)
    }

    /// Writes the bytes by which the key of a level goes on.
    fn write(&mut self, nodes: &Nodes, level: &Level) -> Result<(), AllocError>
        requires { IsNodeOf nodes.now level.now.node }
        ensures key { OnOk result
            (self.new.key.items ≡ self.old.key.items ++ piece nodes.now level.now) }
        ensures levels { OnOk result (self.new.levels ≡ self.old.levels) }
    {
        let prefix = nodes.prefix(&level.node);
        if let Some(byte) = level.byte {
            self.key.push(byte)?;
        }
        self.key.extend_from_slice(prefix)?;
        Ok(())
    }

    /// Writes the key of the node that the walk reached last.
    pub(crate) fn write_key(&mut self, nodes: &Nodes) -> Result<(), AllocError>
        requires { IsWalking nodes.now self.old }
        ensures walking { OnOk result (IsWalking nodes.now self.new) }
        ensures levels { OnOk result (self.new.levels.items ≡ self.old.levels.items) }
        ensures key { OnOk result (self.new.key.items ≡ walk_key nodes.now self.old) }
    {
        for at in self.written..self.levels.len() {
            let level = self.levels[at];
            self.write(nodes, &level)?;
        }
        self.written = self.levels.len();
        Ok(())
    }
}
