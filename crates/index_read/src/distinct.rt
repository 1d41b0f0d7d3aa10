// The names that the keys which match a text have as values, each once.
ghost use Rattle.std.specs.Prelude.{◌≡◌, ◌<◌, IfOk, map};
ghost use Rattle.std.specs.FinMap.{entries};
ghost use Rattle.name_table.specs.FirstSeen.{first_seen};
ghost use Rattle.index_read.specs.Contents.{contents, values_matching, wild_values};
ghost use Rattle.index_read.specs.Met.{StandFor, met_values, kept};

use crate::index::Index;
use crate::met::{MetValue, MetValues};
use crate::search::Search;
use index_nodes::Steps;
use name_table::NameSet;
use std::alloc::{AllocError, Global};
use std::marker::Brand;
use std::sync::ledger::{Blank, Ledger};

/// Finds the texts of the values of every key that as a pattern matches the text, each once: by
/// rising priority, then by the bytes of the key, then by place. They stay in the file. Nodes may
/// share the bytes of their values, and each place of the file is read once. So the time is in
/// proportion to the file for each 64 bytes of the text, and what it takes to sort.
///
/// # Errors
///
/// Out of memory.
pub fn distinct_texts<'a>(
    alloc: Global,
    index: &'a Index,
    text: &[u8],
) -> Result<NameSet<'a>, AllocError>
    ensures { IfOk result (λ set. set
        ≡ first_seen (map (λ v. v.1) (wild_values (contents index.now.nodes) text.now))) }
{
    let mut met = met_matching::<Brand>(alloc, index, text, Blank::new(1))?;
    met.found.sort_by_key(|value| value.priority)?;
    set_of(alloc, &met.found)
}

/// Collects the texts of values without repeats.
fn set_of<'a>(alloc: Global, values: &[MetValue<'a>]) -> Result<NameSet<'a>, AllocError>
    ensures { IfOk result
        (λ set. set ≡ first_seen (map (λ v. v.1) (met_values values.now))) }
{
    let mut set = NameSet::new(alloc);
    for value in values {
        set.insert(value.text)?;
    }
    Ok(set)
}

/// Returns values that stand for those of every key that matches the text, by the bytes of the key
/// and then by place.
fn met_matching<'a, L: Ledger>(
    alloc: Global,
    index: &'a Index,
    text: &[u8],
    blank: Blank,
) -> Result<MetValues<'a>, AllocError>
    requires ledger { blank.name ≡ L.name }
    requires parts { blank.parts ≡ L.parts }
    requires some { 0 < blank.parts }
    ensures { IfOk result (λ met. StandFor (kept met)
        (values_matching (entries (contents index.now.nodes)) text.now)) }
{
    let mut steps = Steps::<L>::new(blank);
    let nodes = &index.nodes;
    let mut met = MetValues::new(alloc);
    let (mut search, first) = Search::start(alloc, nodes, text, &mut steps)?;
    let mut next = first;
    while let Some(reached) = next {
        if reached.is_match {
            met.add(nodes, &reached.node)?;
        }
        next = search.next(nodes, &mut steps)?;
    }
    Ok(met)
}
