// The values that a lookup met, each place of the file once.
ghost use Rattle.std.specs.Prelude.{◌≡◌, ◌++◌, ◌∷◌, [], ℕ, List, IfOk, IfNone, IfSome, OnOk};
ghost use Rattle.index_format.specs.Node.{values};
ghost use Rattle.index_nodes.specs.Fields.{link_of, IsNodeOf};
ghost use Rattle.index_nodes.specs.Places.{IsPlaceOf, values_left, value_at};
ghost use Rattle.index_nodes.specs.Runs.{run_start, start_of};
ghost use Rattle.index_read.specs.Met.{HasRuns, IsMetRun, StandFor, kept};

use index_nodes::{Node, Nodes, Place, Run};
use std::alloc::{AllocError, Global};
use std::collections::HashMap;
use std::hash::{BuildHasherDefault, DefaultHasher};

/// A value that was met, with its text in place.
#[derive(Clone, Copy)]
pub(crate) struct MetValue<'a> {
    pub(crate) priority: u32,
    pub(crate) text: &'a [u8],
}

/// The values that were met, in their order. Nodes may share the bytes of their values. So a value
/// is kept once for each place of the file, and values that were met are passed over together, in
/// runs.
#[derive(Drop)]
pub(crate) struct MetValues<'a> {
    pub(crate) found: Vec<MetValue<'a>>,
    /// The runs that were met, each under the place where it begins.
    pub(crate) runs: HashMap<usize, Run, BuildHasherDefault<DefaultHasher>>,
}

impl<'a> MetValues<'a> {
    /// Begins without values. It takes no memory.
    pub(crate) fn new(alloc: Global) -> Self
        ensures empty { kept result ≡ [] }
        ensures runs { (b : List ℕ) → HasRuns b result }
    {
        MetValues {
            found: Vec::new(alloc),
            runs: HashMap::with_hasher(alloc, BuildHasherDefault::new()),
        }
    }

    /// Adds the values of a node that weren't met before.
    pub(crate) fn add(&mut self, nodes: &'a Nodes, node: &Node) -> Result<(), AllocError>
        requires node { IsNodeOf nodes.now node.now }
        requires runs { HasRuns nodes.now self.old }
        ensures runs { OnOk result (HasRuns nodes.now self.new) }
        ensures stand { OnOk result
            (StandFor (kept self.new) (kept self.old ++ values nodes.now (link_of node.now))) }
    {
        let mut next = nodes.first_value(node);
        while let Some(at) = next {
            next = match self.run_from(nodes, &at)? {
                Some(run) => nodes.value_after(&at, &run),
                None => self.take(nodes, &at)?,
            };
        }
        Ok(())
    }

    /// Returns a run from a place on that was met, if there is one. It is put together with the one
    /// that follows it, so that the next time both are passed over at once.
    fn run_from(&mut self, nodes: &Nodes, at: &Place) -> Result<Option<Run>, AllocError>
        requires runs { HasRuns nodes.now self.old }
        ensures runs { OnOk result (HasRuns nodes.now self.new) }
        ensures kept { OnOk result (kept self.new ≡ kept self.old) }
        ensures run { IfOk result
            (λ found. IfSome found (IsMetRun nodes.now (kept self.old))) }
        ensures start { IfOk result
            (λ found. IfSome found (λ run. run_start run ≡ start_of at.now)) }
    {
        let Some(run) = self.met(at.start()) else {
            return Ok(None);
        };
        let Some(next) = self.met(run.end()) else {
            return Ok(Some(run));
        };
        let Some(both) = nodes.join(&run, &next) else {
            return Ok(Some(run));
        };
        self.runs.insert(at.start(), both)?;
        Ok(Some(both))
    }

    /// Returns the run that was met under a place.
    fn met(&self, start: usize) -> Option<Run>
        ensures run { (b : List ℕ) → HasRuns b self.now
            → IfSome result (IsMetRun b (kept self.now)) }
        ensures start { IfSome result (λ run. run_start run ≡ start) }
    {
        let run = self.runs.get(&start)?;
        if run.start() == start {
            Some(*run)
        } else {
            None
        }
    }

    /// Keeps the value at a place, and returns the place of the one after it.
    fn take(&mut self, nodes: &'a Nodes, at: &Place) -> Result<Option<Place>, AllocError>
        requires place { IsPlaceOf nodes.now at.now }
        requires runs { HasRuns nodes.now self.old }
        ensures runs { OnOk result (HasRuns nodes.now self.new) }
        ensures kept { OnOk result
            (kept self.new ≡ kept self.old ++ value_at nodes.now at.now ∷ []) }
        ensures none { IfOk result (λ found. IfNone found
            (values_left nodes.now at.now ≡ value_at nodes.now at.now ∷ [])) }
        ensures some { IfOk result (λ found. IfSome found
            (λ next. values_left nodes.now at.now
            ≡ value_at nodes.now at.now ∷ values_left nodes.now next)) }
        ensures place { IfOk result (λ found. IfSome found (IsPlaceOf nodes.now)) }
    {
        self.found.push(MetValue {
            priority: at.priority(),
            text: nodes.text(at),
        })?;
        let run = nodes.run(at);
        self.runs.insert(at.start(), run)?;
        Ok(nodes.next_value(at))
    }
}
