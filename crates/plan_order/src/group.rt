// The least order of a few modules, in time in proportion to what they need.
ghost use Rattle.std.specs.Prelude.{◌≡◌, ◌<◌, ℕ, length, map, All, IfOk, slice_index};
ghost use Rattle.relation_order.specs.Sets.{has, goes};
ghost use Rattle.relation_order.specs.Least.{least_order};
ghost use Rattle.relation_order.specs.Search.{Inside};
ghost use Rattle.plan_order.specs.Finding.{Rises};
ghost use Rattle.plan_order.specs.Places.{IsPlaceIn, GoLike};

use crate::need_lists::NeedLists;
use relation_order::{all_members, least};
use std::alloc::{AllocError, Global};
use std::collections::BTreeSet;

/// Finds the least order of some modules. In it each comes after the modules among them that it
/// goes to.
pub(crate) fn order_among(
    alloc: Global,
    lists: &NeedLists,
    members: &[usize],
) -> Result<Vec<usize>, AllocError>
    requires rises { Rises members.now }
    requires inside { All (λ y. y < length lists.now) members.now }
    ensures { IfOk result (λ order. order.items ≡ least_order (goes lists.now) members.now) }
{
    let inner = lists_among(alloc, lists, members)?;
    let all = all_members(alloc, members.len())?;
    let order = least(alloc, &inner, &all)?;
    at_places(alloc, members, &order)
}

/// Lists some items in rising order, each once.
pub(crate) fn rising(alloc: Global, items: &[usize]) -> Result<Vec<usize>, AllocError>
    ensures rises { IfOk result (λ sorted. Rises sorted.items) }
    ensures items { IfOk result (λ sorted. (y : ℕ) → has sorted.items y ≡ has items.now y) }
{
    let sorted = sorted_set(alloc, items)?;
    sorted.iter().copied().collect(alloc)
}

/// Finds for each member the places, among the members, of the members that it goes to.
fn lists_among(
    alloc: Global,
    lists: &NeedLists,
    members: &[usize],
) -> Result<Vec<Vec<usize>>, AllocError>
    requires rises { Rises members.now }
    requires inside { All (λ y. y < length lists.now) members.now }
    ensures long { IfOk result (λ inner. length inner.items ≡ length members.now) }
    ensures inside { IfOk result (λ inner. Inside (length members.now) inner.items) }
    ensures same { IfOk result (λ inner. GoLike (goes lists.now) members.now inner.items) }
{
    let mut inner = Vec::new(alloc);
    for member in members {
        inner.push(places_of(alloc, members, lists.get(*member))?)?;
    }
    Ok(inner)
}

/// Returns the items at some places.
fn at_places(alloc: Global, items: &[usize], places: &[usize]) -> Result<Vec<usize>, AllocError>
    requires { All (λ i. i < length items.now) places.now }
    ensures { IfOk result (λ found. found.items ≡ map (slice_index items.now) places.now) }
{
    places.iter().map(|i| items[*i]).collect(alloc)
}

fn sorted_set(alloc: Global, items: &[usize]) -> Result<BTreeSet<usize>, AllocError>
    ensures rises { IfOk result (λ sorted. Rises sorted.keys) }
    ensures items { IfOk result (λ sorted. (y : ℕ) → has sorted.keys y ≡ has items.now y) }
{
    let mut sorted = BTreeSet::new(alloc);
    for item in items {
        sorted.insert(*item)?;
    }
    Ok(sorted)
}

/// Finds the places, among the members, of the items that are members.
fn places_of(alloc: Global, members: &[usize], items: &[usize]) -> Result<Vec<usize>, AllocError>
    requires { Rises members.now }
    ensures inside { IfOk result (λ places. All (λ i. i < length members.now) places.items) }
    ensures places { IfOk result
        (λ places. (i : ℕ) → i < length members.now
        → has places.items i ≡ has items.now (slice_index members.now i)) }
{
    let mut places = Vec::new(alloc);
    for item in items {
        if let Some(place) = place_of(members, *item) {
            places.push(place)?;
        }
    }
    Ok(places)
}

/// Finds the place of an item among rising members.
fn place_of(members: &[usize], item: usize) -> Option<usize>
    requires { Rises members.now }
    ensures { IsPlaceIn members.now item result }
{
    members.binary_search(&item).ok()
}
