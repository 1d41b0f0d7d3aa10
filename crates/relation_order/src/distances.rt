//! How far each member is from one member: a breadth-first search back from that one.
ghost use Rattle.std.specs.Prelude.{◌≡◌, ◌≢◌, ◌<◌, ◌&&◌, ◌||◌, ◌==◌, [], ℕ, true, length, All};
ghost use Rattle.std.specs.Prelude.{IfOk, OnOk};
ghost use Rattle.std.specs.List.{list_any};
ghost use Rattle.std.proofs.Common.{replicate};
ghost use Rattle.relation_order.specs.Sets.{goes, has};
ghost use Rattle.relation_order.specs.Graphs.{goes_in, members_of};
ghost use Rattle.relation_order.specs.Search.{Inside};
ghost use Rattle.relation_order.specs.Nearest.{IsFar};
ghost use Rattle.relation_order.specs.Rounds.{Finds};

use crate::graph::Graph;
use crate::order::{add_at, empty_lists};
use crate::reach::marked;
use std::alloc::{AllocError, Global};

/// Finds the least number of steps within the members that lead from each of them to one of them.
/// If no steps lead there, the number is how many members there are.
pub(crate) fn distances_to(
    alloc: Global,
    graph: &Graph<'_>,
    goal: usize,
) -> Result<Vec<usize>, AllocError>
    requires goal { has (members_of graph.now) goal ≡ true }
    ensures long { IfOk result (λ far. length far.items ≡ length graph.now.members.now) }
    ensures far { IfOk result
        (λ far. IsFar (goes_in graph.now) (members_of graph.now) goal far.items) }
{
    let all = marked(alloc, graph.members)?;
    let sources = reversed(alloc, graph, &all)?;
    let mut far = filled(alloc, graph.members.len(), all.len())?;
    far[goal] = 0;
    let mut last = Vec::new(alloc);
    last.push(goal)?;
    for round in 1..all.len() {
        last = find_round(alloc, &sources, &mut far, &last, round, all.len())?;
    }
    Ok(far)
}

/// Lists for each item the items among some that go to it.
fn reversed(
    alloc: Global,
    graph: &Graph<'_>,
    items: &[usize],
) -> Result<Vec<Vec<usize>>, AllocError>
    requires items { All (λ x. x < length graph.now.lists.now) items.now }
    ensures long { IfOk result (λ sources. length sources.items ≡ length graph.now.lists.now) }
    ensures goes { IfOk result (λ sources. (y x : ℕ) → goes sources.items y x
        ≡ (has items.now x && goes_in graph.now x y)) }
{
    let mut sources = empty_lists(alloc, graph.lists.len())?;
    for x in items {
        add_source(&mut sources, &graph.lists[*x], *x)?;
    }
    Ok(sources)
}

/// Adds an item to the lists of all that it goes to.
fn add_source(
    sources: &mut Vec<Vec<usize>>,
    targets: &[usize],
    item: usize,
) -> Result<(), AllocError>
    requires { All (λ y. y < length sources.old.items) targets.now }
    ensures long { OnOk result (length sources.new.items ≡ length sources.old.items) }
    ensures goes { OnOk result ((y x : ℕ) → goes sources.new.items y x
        ≡ (goes sources.old.items y x || (has targets.now y && x == item))) }
{
    for y in targets {
        add_at(sources, *y, item)?;
    }
    Ok(())
}

/// Makes a list of a value, a number of times.
fn filled(alloc: Global, count: usize, value: usize) -> Result<Vec<usize>, AllocError>
    ensures { IfOk result (λ list. list.items ≡ replicate count value) }
{
    vec![in alloc; value; count]
}

/// Does one round: each item without a distance that goes to one found last gets the round's
/// number. Returns what was found.
fn find_round(
    alloc: Global,
    sources: &[Vec<usize>],
    far: &mut Vec<usize>,
    last: &[usize],
    round: usize,
    none: usize,
) -> Result<Vec<usize>, AllocError>
    requires long { length far.old.items ≡ length sources.now }
    requires inside { Inside (length sources.now) sources.now }
    requires last { All (λ y. y < length sources.now) last.now }
    requires round { round ≢ none }
    ensures long { OnOk result (length far.new.items ≡ length far.old.items) }
    ensures finds { IfOk result (λ found. Finds (λ x. list_any (λ y. goes sources.now y x) last.now)
        round none far.old.items far.new.items [] found.items) }
{
    let mut found = Vec::new(alloc);
    for y in last {
        find_all(&sources[*y], far, &mut found, round, none)?;
    }
    Ok(found)
}

/// Gives each of some items without a distance the round's number, and adds it to what was found.
fn find_all(
    items: &[usize],
    far: &mut Vec<usize>,
    found: &mut Vec<usize>,
    round: usize,
    none: usize,
) -> Result<(), AllocError>
    requires inside { All (λ x. x < length far.old.items) items.now }
    requires round { round ≢ none }
    ensures long { OnOk result (length far.new.items ≡ length far.old.items) }
    ensures finds { OnOk result (Finds (has items.now) round none far.old.items far.new.items
        found.old.items found.new.items) }
{
    for x in items {
        if far[*x] == none {
            far[*x] = round;
            found.push(*x)?;
        }
    }
    Ok(())
}
