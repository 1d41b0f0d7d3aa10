ghost use Rattle.std.specs.Prelude.{◌≡◌, ◌||◌, ◌&&◌, ◌==◌, ◌<◌, ◌≤◌, ◌∷◌, [], not, ℕ, List, Bool};
ghost use Rattle.std.specs.Prelude.{true, false, length, take, All, IfOk, OnOk, slice_index};
ghost use Rattle.std.specs.Prelude.{slice_index_or};
ghost use Rattle.relation_order.specs.Sets.{goes, marked, has};
ghost use Rattle.relation_order.specs.Graphs.{goes_in, members_of};
ghost use Rattle.relation_order.specs.Least.{least_order, with_next};
ghost use Rattle.relation_order.specs.Search.{Inside};
ghost use Rattle.relation_order.specs.Builder.{AllListed, Fits};
ghost use Rattle.std.specs.Global.{Vec};
ghost use Rattle.std.proofs.Common.{replicate};
ghost use Rattle.relation_order.specs.Placing.{Placing};

use crate::graph::Graph;
use crate::reach::{marked, unmarked};
use std::alloc::{AllocError, Global};
use std::collections::BTreeSet;
use std::mem;

/// An order as it is made: what is listed, which members are ready to be, and which wait for each
/// place. It keeps how many of the items that each goes to were found listed, so that none is
/// looked at twice.
#[derive(Drop)]
pub struct OrderBuilder {
    pub order: Vec<usize>,
    pub listed: Vec<bool>,
    pub ready: BTreeSet<usize>,
    pub waits: Vec<Vec<usize>>,
    pub looked: Vec<usize>,
}

impl OrderBuilder {
    /// Begins an order with nothing listed yet.
    pub fn new(alloc: Global, count: usize) -> Result<OrderBuilder, AllocError>
        ensures order { IfOk result (λ builder. builder.order.items ≡ []) }
        ensures ready { IfOk result (λ builder. builder.ready.keys ≡ []) }
        ensures waits { IfOk result (λ builder. (z y : ℕ) → goes builder.waits.items z y ≡ false) }
        ensures fits { IfOk result (λ builder. (lists : List (Vec ℕ)) (members : List Bool)
            → length members ≡ count → Fits lists members builder) }
    {
        Ok(OrderBuilder {
            order: Vec::new(alloc),
            listed: unmarked(alloc, count)?,
            ready: BTreeSet::new(alloc),
            waits: empty_lists(alloc, count)?,
            looked: zeros(alloc, count)?,
        })
    }

    /// Lists the least of what is ready, if anything is.
    pub fn step(
        &mut self,
        alloc: Global,
        lists: &[Vec<usize>],
        members: &[bool],
    ) -> Result<(), AllocError>
        requires long { length members.now ≡ length lists.now }
        requires inside { Inside (length members.now) lists.now }
        requires fits { Fits lists.now members.now self.old }
        requires placing { Placing (goes lists.now) (marked members.now) self.old.order.items
            self.old.ready.keys (goes self.old.waits.items) [] }
        ensures fits { OnOk result (Fits lists.now members.now self.new) }
        ensures placing { OnOk result
            (Placing (goes lists.now) (marked members.now) self.new.order.items
            self.new.ready.keys (goes self.new.waits.items) []) }
        ensures order { OnOk result (self.new.order.items
            ≡ with_next (goes lists.now) (marked members.now) self.old.order.items) }
    {
        if let Some(next) = self.ready.pop_first() {
            self.listed[next] = true;
            self.order.push(next)?;
            let freed = take_at(alloc, &mut self.waits, next);
            self.place_all(lists, members, &freed)?;
        }
        Ok(())
    }

    /// Finds for each of some items whether it is ready or for which place it waits.
    pub fn place_all(
        &mut self,
        lists: &[Vec<usize>],
        members: &[bool],
        items: &[usize],
    ) -> Result<(), AllocError>
        requires long { length members.now ≡ length lists.now }
        requires inside { Inside (length members.now) lists.now }
        requires within { All (λ y. y < length members.now) items.now }
        requires fits { Fits lists.now members.now self.old }
        ensures fits { OnOk result (Fits lists.now members.now self.new) }
        ensures order { OnOk result (self.new.order.items ≡ self.old.order.items) }
        ensures placing { OnOk result
            (Placing (goes lists.now) (marked members.now) self.old.order.items
            self.old.ready.keys (goes self.old.waits.items) items.now
            → Placing (goes lists.now) (marked members.now) self.new.order.items
            self.new.ready.keys (goes self.new.waits.items) []) }
    {
        let graph = Graph { lists, members };
        for item in items {
            self.place(&graph, *item)?;
        }
        Ok(())
    }

    /// Finds for an item whether it is ready or for which place it waits.
    fn place(&mut self, graph: &Graph<'_>, item: usize) -> Result<(), AllocError>
        requires within { item < length graph.now.members.now }
        requires fits { Fits graph.now.lists.now graph.now.members.now self.old }
        ensures fits { OnOk result (Fits graph.now.lists.now graph.now.members.now self.new) }
        ensures order { OnOk result (self.new.order.items ≡ self.old.order.items) }
        ensures placing { OnOk result ((left : List ℕ)
            → Placing (goes_in graph.now) (members_of graph.now) self.old.order.items
            self.old.ready.keys (goes self.old.waits.items) (item ∷ left)
            → Placing (goes_in graph.now) (members_of graph.now) self.new.order.items
            self.new.ready.keys (goes self.new.waits.items) left) }
    {
        let lists = graph.lists;
        let items = &lists[item];
        let at = first_open(items, self.looked[item], graph.members, &self.listed);
        self.looked[item] = at;
        if at < items.len() {
            add_at(&mut self.waits, items[at], item)?;
        } else {
            self.ready.insert(item)?;
        }
        Ok(())
    }
}

/// Adds an item to the list at a place.
pub(crate) fn add_at(
    lists: &mut Vec<Vec<usize>>,
    place: usize,
    item: usize,
) -> Result<(), AllocError>
    requires { place < length lists.old.items }
    ensures long { OnOk result (length lists.new.items ≡ length lists.old.items) }
    ensures added { OnOk result ((z y : ℕ) → goes lists.new.items z y
        ≡ (goes lists.old.items z y || (z == place && y == item))) }
{
    lists[place].push(item)?;
    Ok(())
}

/// Finds the least order of the marked members, as many as can be listed. In it each member comes
/// after those that it goes to.
pub fn least(
    alloc: Global,
    lists: &[Vec<usize>],
    members: &[bool],
) -> Result<Vec<usize>, AllocError>
    requires long { length members.now ≡ length lists.now }
    requires inside { Inside (length lists.now) lists.now }
    ensures { IfOk result (λ order. order.items
        ≡ least_order (goes lists.now) (marked members.now)) }
{
    let mut builder = OrderBuilder::new(alloc, members.len())?;
    let all = marked(alloc, members)?;
    builder.place_all(lists, members, &all)?;
    for round in 0..members.len() {
        builder.step(alloc, lists, members)?;
    }
    Ok(builder.order)
}

/// Makes a list of `count` zeros.
pub(crate) fn zeros(alloc: Global, count: usize) -> Result<Vec<usize>, AllocError>
    ensures { IfOk result (λ zeros. zeros.items ≡ replicate count 0) }
{
    vec![in alloc; 0; count]
}

/// Makes a number of empty lists.
pub(crate) fn empty_lists(alloc: Global, count: usize) -> Result<Vec<Vec<usize>>, AllocError>
    ensures long { IfOk result (λ lists. length lists.items ≡ count) }
    ensures empty { IfOk result (λ lists. (z y : ℕ) → goes lists.items z y ≡ false) }
{
    let mut lists = Vec::new(alloc);
    for _ in 0..count {
        lists.push(Vec::new(alloc))?;
    }
    Ok(lists)
}

/// Takes the list at a place.
fn take_at(alloc: Global, lists: &mut Vec<Vec<usize>>, place: usize) -> Vec<usize>
    requires { place < length lists.old.items }
    ensures long { length lists.new.items ≡ length lists.old.items }
    ensures taken { (y : ℕ) → has result.items y ≡ goes lists.old.items place y }
    ensures rest { (z y : ℕ) → goes lists.new.items z y
        ≡ (not (z == place) && goes lists.old.items z y) }
{
    mem::replace(&mut lists[place], Vec::new(alloc))
}

/// Finds the place of the first of some items that is a member and isn't listed, or how many items
/// there are. It looks from a place on, and there is none before that.
fn first_open(items: &[usize], from: usize, members: &[bool], listed: &[bool]) -> usize
    requires in_members { All (λ y. y < length members.now) items.now }
    requires in_listed { All (λ y. y < length listed.now) items.now }
    requires from { from ≤ length items.now }
    requires front { AllListed members.now listed.now (take from items.now) }
    ensures within { result ≤ length items.now }
    ensures front { AllListed members.now listed.now (take result items.now) }
    ensures open { result < length items.now
        → (slice_index_or members.now (slice_index items.now result) false ≡ true)
        × (slice_index_or listed.now (slice_index items.now result) false ≡ false) }
{
    let mut at = from;
    while at < items.len() && !is_open(members, listed, items[at]) {
        at += 1;
    }
    at
}

/// Returns whether an item is marked as a member and not as listed.
fn is_open(members: &[bool], listed: &[bool], item: usize) -> bool
    requires member { item < length members.now }
    requires listed { item < length listed.now }
    ensures { result ≡ (slice_index_or members.now item false
        && not (slice_index_or listed.now item false)) }
{
    members[item] && !listed[item]
}
