// A search for the keys of an index that match a text as patterns.
ghost use Rattle.std.specs.Prelude.{◌≡◌, ℕ, ◌+◌, ◌-◌, ◌≤◌, ◌∷◌, ◌++◌, List, [], length, take, drop};
ghost use Rattle.std.specs.Prelude.{IfOk, OnOk, IsTrue, ◌↔◌, None, true, false};
ghost use Rattle.index_format.specs.Check.{index_fault};
ghost use Rattle.index_format.specs.Node.{prefix};
ghost use Rattle.index_format.specs.Nodes.{IsNode};
ghost use Rattle.index_nodes.specs.Fields.{link_of, IsNodeOf};
ghost use Rattle.glob_pattern.specs.Pattern.{Matches};
ghost use Rattle.glob_match.specs.Progress.{IsWhole, IsOver, HasRead};
ghost use Rattle.glob_match.specs.Ends.{AreEnds};
ghost use Rattle.glob_match.specs.Runs.{AreRuns};
ghost use Rattle.index_read.specs.Keys.{Item, all_items};
ghost use Rattle.index_read.specs.Searches.{IsReady, IsSearching, Finds, Descends, Enters, Reads};
ghost use Rattle.index_read.specs.Searches.{count_left, count_after};

use crate::key_tables::KeyTables;
use glob_match::{Ends, Progress, Runs, Saved};
use index_nodes::{Node, NodeRef, Nodes, Steps};
use std::alloc::{AllocError, Global};
use std::sync::ledger::Ledger;

/// A node that was reached.
#[derive(Clone, Copy)]
pub(crate) struct FoundNode {
    pub(crate) node: Node,
    /// Whether its key matches the text.
    pub(crate) is_match: bool,
    /// Whether it has no children.
    pub(crate) is_leaf: bool,
}

/// A node whose children are visited: the byte from which on they are still to come, and how far
/// its key can match.
#[derive(Clone, Copy)]
pub(crate) struct Branch {
    pub(crate) node: Node,
    pub(crate) next: u8,
    pub(crate) key: Saved,
}

/// A search for the nodes whose keys, as patterns, match a text, in the order of their keys. What
/// is below a key that reaches no place of the text is left out.
#[derive(Drop)]
pub(crate) struct Search {
    /// How far the key that was read last can match.
    pub(crate) progress: Progress,
    pub(crate) known: KeyTables,
    pub(crate) levels: Vec<Branch>,
    /// The words of the keys of the levels, in their order.
    pub(crate) saved: Vec<u64>,
}

/// Reads one more byte of a key. Returns whether the text can still match.
fn read_byte(progress: &mut Progress, byte: u8) -> Result<bool, AllocError>
    requires { IsWhole progress.old }
    ensures whole { OnOk result (IsWhole progress.new) }
    ensures over { OnOk result
        ((text : List ℕ) → IsOver progress.old text → IsOver progress.new text) }
    ensures read { IfOk result
        (λ alive. (text pattern : List ℕ) → IsOver progress.old text
        → HasRead progress.old text pattern
        → Reads text (pattern ++ byte ∷ []) progress.new alive) }
{
    progress.push(byte)?;
    Ok(!progress.is_lost())
}

/// Reads bytes of the file, from a place up to another, as long as the text can match. Returns
/// whether it still can.
fn read_range(
    progress: &mut Progress,
    file: &[u8],
    range: (usize, usize),
    runs: &Runs,
    read: &mut usize,
) -> Result<bool, AllocError>
    requires whole { IsWhole progress.old }
    requires runs { AreRuns file.now runs.now }
    requires order { range.0 ≤ range.1 }
    requires within { range.1 ≤ length file.now }
    ensures whole { OnOk result (IsWhole progress.new) }
    ensures over { OnOk result
        ((text : List ℕ) → IsOver progress.old text → IsOver progress.new text) }
    ensures read { IfOk result
        (λ alive. (text pattern : List ℕ) → IsOver progress.old text
        → HasRead progress.old text pattern
        → Reads text (pattern ++ take (range.1 - range.0) (drop range.0 file.now)) progress.new
        alive) }
{
    let (start, end) = range;
    let mut at = start;
    while at < end {
        let from = at;
        at = progress.push_next(file, from, end, runs)?;
        *read = read.saturating_add(at - from);
        if progress.is_lost() {
            return Ok(false);
        }
    }
    Ok(true)
}

/// Reads the last bytes of a key, from a place of the file up to another, until it is known whether
/// the key matches. Returns that.
fn read_end(
    progress: &mut Progress,
    file: &[u8],
    range: (usize, usize),
    runs: &Runs,
    ends: &Ends,
    read: &mut usize,
) -> Result<bool, AllocError>
    requires whole { IsWhole progress.old }
    requires runs { AreRuns file.now runs.now }
    requires ends { (text : List ℕ) → IsOver progress.old text → AreEnds file.now text ends.now }
    requires order { range.0 ≤ range.1 }
    requires within { range.1 ≤ length file.now }
    ensures whole { OnOk result (IsWhole progress.new) }
    ensures over { OnOk result
        ((text : List ℕ) → IsOver progress.old text → IsOver progress.new text) }
    ensures decides { IfOk result
        (λ r. (text pattern : List ℕ) → IsOver progress.old text → HasRead progress.old text pattern
        → (IsTrue r
        ↔ Matches (pattern ++ take (range.1 - range.0) (drop range.0 file.now)) text)) }
{
    let (start, end) = range;
    let mut at = start;
    while at < end {
        if let Some(is_match) = progress.is_match_with(ends, at, end) {
            return Ok(is_match);
        }
        let from = at;
        at = progress.push_next(file, from, end, runs)?;
        *read = read.saturating_add(at - from);
        if progress.is_lost() {
            return Ok(false);
        }
    }
    Ok(progress.is_match())
}

/// Reads the prefix of a node. Returns `None` if neither its key nor one below it can match the
/// text. A node without children is returned also if it doesn't match.
fn read_prefix(
    progress: &mut Progress,
    nodes: &Nodes,
    node: &Node,
    known: &mut KeyTables,
) -> Result<Option<FoundNode>, AllocError>
    requires node { IsNodeOf nodes.now node.now }
    requires whole { IsWhole progress.old }
    requires ready { IsReady nodes.now progress.old known.old }
    ensures whole { OnOk result (IsWhole progress.new) }
    ensures ready { OnOk result (IsReady nodes.now progress.new known.new) }
    ensures over { OnOk result
        ((text : List ℕ) → IsOver progress.old text → IsOver progress.new text) }
    ensures enters { IfOk result
        (λ o. (text pattern : List ℕ) → IsOver progress.old text → HasRead progress.old text pattern
        → Enters nodes.now text (pattern ++ prefix nodes.now (link_of node.now))
        (link_of node.now) progress.new o) }
{
    let range = nodes.prefix_range(node);
    let file = nodes.bytes();
    let is_leaf = nodes.next_child(node, 0).is_none();
    known.find(file, progress, range.1 - range.0, is_leaf)?;
    if is_leaf {
        let read = &mut known.read;
        let is_match = read_end(progress, file, range, &known.runs, &known.ends, read)?;
        return Ok(Some(FoundNode {
            node: *node,
            is_match,
            is_leaf,
        }));
    }
    if !read_range(progress, file, range, &known.runs, &mut known.read)? {
        return Ok(None);
    }
    Ok(Some(FoundNode {
        node: *node,
        is_match: progress.is_match(),
        is_leaf,
    }))
}

/// Reads the byte that leads to a node, and its prefix. Returns `None` if neither its key nor one
/// below it can match the text. A node without children may be returned also if it doesn't match.
fn enter<L: Ledger>(
    progress: &mut Progress,
    nodes: &Nodes,
    child: (u8, NodeRef),
    known: &mut KeyTables,
    steps: &mut Steps<L>,
) -> Result<Option<FoundNode>, AllocError>
    requires node { IsNode nodes.now child.1 }
    requires whole { IsWhole progress.old }
    requires ready { IsReady nodes.now progress.old known.old }
    ensures cost { steps.new ≤ steps.old + 1 }
    ensures whole { OnOk result (IsWhole progress.new) }
    ensures ready { OnOk result (IsReady nodes.now progress.new known.new) }
    ensures over { OnOk result
        ((text : List ℕ) → IsOver progress.old text → IsOver progress.new text) }
    ensures enters { IfOk result
        (λ o. (text pattern : List ℕ) → IsOver progress.old text → HasRead progress.old text pattern
        → Enters nodes.now text ((pattern ++ child.0 ∷ []) ++ prefix nodes.now child.1) child.1
        progress.new o) }
{
    let (byte, at) = child;
    if !read_byte(progress, byte)? {
        return Ok(None);
    }
    let node = nodes.node(&at, steps);
    read_prefix(progress, nodes, &node, known)
}

impl Search {
    /// Begins a search at the root, which is one step. Returns the root, or `None` if no key can
    /// match.
    pub(crate) fn start<L: Ledger>(
        alloc: Global,
        nodes: &Nodes,
        text: &[u8],
        steps: &mut Steps<L>,
    ) -> Result<(Search, Option<FoundNode>), AllocError>
        ensures cost { steps.new ≤ steps.old + 1 }
        ensures finds { IfOk result (λ r. Finds nodes.now text.now (all_items nodes.now) r.0 r.1) }
        ensures accepted { index_fault nodes.now ≡ None }
    {
        let node = nodes.node(&nodes.root(), steps);
        let mut progress = Progress::new(alloc, text)?;
        let mut known = KeyTables::new(alloc);
        let reached = read_prefix(&mut progress, nodes, &node, &mut known)?;
        let mut search = Search {
            progress,
            known,
            levels: Vec::new(alloc),
            saved: Vec::new(alloc),
        };
        let Some(root) = reached else {
            return Ok((search, None));
        };
        search.descend(&root)?;
        Ok((search, Some(root)))
    }

    /// Adds the level of the node that was reached, if it has children.
    fn descend(&mut self, found: &FoundNode) -> Result<(), AllocError>
        requires { IsWhole self.old.progress }
        ensures { OnOk result (Descends self.old self.new found.now) }
    {
        if found.is_leaf {
            return Ok(());
        }
        let key = self.progress.save(&mut self.saved)?;
        self.levels.push(Branch {
            node: found.node,
            next: 0,
            key,
        })?;
        Ok(())
    }

    /// Goes on to the next node, and leaves out those that can't match. A node that is read is one
    /// step. Returns `None` if none is left.
    pub(crate) fn next<L: Ledger>(
        &mut self,
        nodes: &Nodes,
        steps: &mut Steps<L>,
    ) -> Result<Option<FoundNode>, AllocError>
        requires accepted { index_fault nodes.now ≡ None }
        requires searching { (text : List ℕ)
            × ((is : List Item) × IsSearching nodes.now text self.old is) }
        ensures finds { IfOk result
            (λ o. (text : List ℕ) (is : List Item) → IsSearching nodes.now text self.old is
            → Finds nodes.now text is self.new o) }
        ensures cost { steps.new + count_after result nodes.now self.new.levels.items
            ≤ steps.old + count_left nodes.now self.old.levels.items }
    {
        while let Some(level) = self.levels.pop() {
            let top = self.saved.len() - level.key.words();
            let Some(child) = nodes.next_child(&level.node, level.next) else {
                self.saved.truncate(top);
                continue;
            };
            self.progress.restore(&level.key, &self.saved[top..])?;
            self.levels.push(Branch {
                node: level.node,
                next: child.0 + 1,
                key: level.key,
            })?;
            let known = &mut self.known;
            if let Some(found) = enter(&mut self.progress, nodes, child, known, steps)? {
                self.descend(&found)?;
                return Ok(Some(found));
            }
        }
        Ok(None)
    }
}
