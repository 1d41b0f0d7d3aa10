//! Lookups that count nothing: each reads its nodes on a ledger of its own, which is dropped with
//! it.
ghost use Rattle.std.specs.Prelude.{◌≡◌, ◌<◌, IfOk, option_copied};
ghost use Rattle.index_format.specs.Map.{values_of};
ghost use Rattle.index_format.specs.Node.{root};
ghost use Rattle.index_format.specs.Walk.{at};
ghost use Rattle.index_format.specs.Listing.{IsListing};
ghost use Rattle.index_read.specs.Contents.{contents};
ghost use Rattle.index_read.specs.Lookups.{has_value, text_of_first};
ghost use Rattle.index_read.specs.Values.{found_values, shown_pairs};

use crate::index::Index;
use crate::value::{Pairs, Values};
use index_nodes::Steps;
use std::alloc::{AllocError, Global};
use std::marker::Brand;
use std::sync::ledger::{Blank, Ledger};

/// Returns whether the index has a value of the key.
pub fn has_value(index: &Index, key: &[u8]) -> bool
    ensures { result ≡ has_value (contents index.now.nodes) key.now }
{
    has_value_over::<Brand>(index, key, Blank::new(1))
}

/// Finds the text of the first value of the key, or `None` exactly if the key has no value.
pub fn first_text<'a>(index: &'a Index, key: &[u8]) -> Option<&'a [u8]>
    ensures reached { option_copied result
        ≡ text_of_first (at index.now.nodes (root index.now.nodes) key.now) }
    ensures held { option_copied result
        ≡ text_of_first (values_of (contents index.now.nodes) key.now) }
{
    first_text_over::<Brand>(index, key, Blank::new(1))
}

/// Finds all values of the key, in their order.
///
/// # Errors
///
/// Out of memory.
pub fn values(alloc: Global, index: &Index, key: &[u8]) -> Result<Values, AllocError>
    ensures { IfOk result
        (λ found. found_values found ≡ values_of (contents index.now.nodes) key.now) }
{
    values_over::<Brand>(alloc, index, key, Blank::new(1))
}

/// Lists all keys, each with its values, by the bytes of the keys and then by place.
///
/// # Errors
///
/// Out of memory, as by [`Index::all`].
pub fn all_pairs(alloc: Global, index: &Index) -> Result<Pairs, AllocError>
    ensures { IfOk result
        (λ pairs. IsListing (values_of (contents index.now.nodes)) (shown_pairs pairs)) }
{
    all_pairs_over::<Brand>(alloc, index, Blank::new(1))
}

fn has_value_over<L: Ledger>(index: &Index, key: &[u8], blank: Blank) -> bool
    requires ledger { blank.name ≡ L.name }
    requires parts { blank.parts ≡ L.parts }
    requires some { 0 < blank.parts }
    ensures { result ≡ has_value (contents index.now.nodes) key.now }
{
    let mut steps = Steps::<L>::new(blank);
    index.find_one(key, &mut steps).is_some()
}

fn first_text_over<'a, L: Ledger>(index: &'a Index, key: &[u8], blank: Blank) -> Option<&'a [u8]>
    requires ledger { blank.name ≡ L.name }
    requires parts { blank.parts ≡ L.parts }
    requires some { 0 < blank.parts }
    ensures reached { option_copied result
        ≡ text_of_first (at index.now.nodes (root index.now.nodes) key.now) }
    ensures held { option_copied result
        ≡ text_of_first (values_of (contents index.now.nodes) key.now) }
{
    let mut steps = Steps::<L>::new(blank);
    let place = index.find_one(key, &mut steps)?;
    Some(index.text(&place))
}

fn values_over<L: Ledger>(
    alloc: Global,
    index: &Index,
    key: &[u8],
    blank: Blank,
) -> Result<Values, AllocError>
    requires ledger { blank.name ≡ L.name }
    requires parts { blank.parts ≡ L.parts }
    requires some { 0 < blank.parts }
    ensures { IfOk result
        (λ found. found_values found ≡ values_of (contents index.now.nodes) key.now) }
{
    let mut steps = Steps::<L>::new(blank);
    index.find(alloc, key, &mut steps)
}

fn all_pairs_over<L: Ledger>(
    alloc: Global,
    index: &Index,
    blank: Blank,
) -> Result<Pairs, AllocError>
    requires ledger { blank.name ≡ L.name }
    requires parts { blank.parts ≡ L.parts }
    requires some { 0 < blank.parts }
    ensures { IfOk result
        (λ pairs. IsListing (values_of (contents index.now.nodes)) (shown_pairs pairs)) }
{
    let mut steps = Steps::<L>::new(blank);
    index.all(alloc, &mut steps)
}
