// The lines of modules.unmet on names that have more than one export.
ghost use Rattle.std.specs.Prelude.{◌≡◌, ◌<◌, ◌^◌, ◌+◌, ◌++◌, ◌∷◌, [], ℕ, List, length, map, take};
ghost use Rattle.std.specs.Prelude.{All, Some, OnOk, IfOk, slice_index_or};
ghost use Rattle.std.proofs.Common.{replicate};
ghost use Rattle.name_table.specs.NameTable.{IsTableOf, place_of};
ghost use Rattle.symbol_binding.specs.declared.unbound.Unbound.{Unbound};
ghost use Rattle.symbol_binding.specs.declared.unbound.Unbound.TheVariants.{Double};
ghost use Rattle.provider_rel.specs.Items.{item_name, item_doubles};
ghost use Rattle.provider_rel.specs.Sharing.{AreLinked, IsChain, last_of};

use crate::items::ExportItem;
use km_names::{Name, PathText};
use name_table::OwnedNameTable;
use std::alloc::{AllocError, Global};
use symbol_binding::{Obstacles, Unbound};

/// Counts the double lines: for each export as many as there are exports of its name before it.
pub(crate) fn count_doubles(
    alloc: Global,
    names: &OwnedNameTable,
    items: &[ExportItem],
) -> Result<u64, AllocError>
    requires names { IsTableOf names.now (map item_name items.now) }
    requires few { length items.now < 2 ^ 32 }
    ensures count { IfOk result (λ count. count ≡ length (item_doubles [] items.now)) }
{
    let mut counts = zeros(alloc, items.len())?;
    let mut count = 0;
    for k in 0..items.len() {
        let place = first_at(names, items, k, &items[k]);
        count += u64::from(counts[place]);
        counts[place] += 1;
    }
    Ok(count)
}

/// Adds the double lines.
pub(crate) fn push_doubles(
    alloc: Global,
    lines: &mut Obstacles,
    names: &OwnedNameTable,
    items: &[ExportItem],
) -> Result<(), AllocError>
    requires names { IsTableOf names.now (map item_name items.now) }
    requires few { length items.now < 2 ^ 32 }
    ensures { OnOk result (lines.new ≡ lines.old ++ item_doubles [] items.now) }
{
    let mut next = zeros(alloc, items.len())?;
    for k in 0..items.len() {
        push_item(alloc, lines, &mut next, names, items, k)?;
    }
    Ok(())
}

/// Makes a number of zeros.
fn zeros(alloc: Global, count: usize) -> Result<Vec<u32>, AllocError>
    ensures { IfOk result (λ list. list.items ≡ replicate count 0) }
{
    vec![in alloc; 0; count]
}

/// Finds the place of the first export that has the name of the one at `k`.
fn first_at(names: &OwnedNameTable, items: &[ExportItem], k: usize, item: &ExportItem) -> usize
    requires names { IsTableOf names.now (map item_name items.now) }
    requires place { k < length items.now }
    requires item { item.now ≡ slice_index_or items.now k item.now }
    ensures first { place_of names.now item.now.export.name ≡ Some result }
    ensures within { result < length items.now }
{
    match names.place(item.name()) {
        Some(place) => place as usize,
        None => k,
    }
}

/// Adds the double lines of the export at a place, and links it behind the exports of its name.
fn push_item(
    alloc: Global,
    lines: &mut Obstacles,
    next: &mut Vec<u32>,
    names: &OwnedNameTable,
    items: &[ExportItem],
    k: usize,
) -> Result<(), AllocError>
    requires names { IsTableOf names.now (map item_name items.now) }
    requires few { length items.now < 2 ^ 32 }
    requires place { k < length items.now }
    requires linked { AreLinked items.now names.now k next.old.items }
    ensures linked { OnOk result (AreLinked items.now names.now (k + 1) next.new.items) }
    ensures lines { OnOk result ((before : List Unbound)
        → lines.old ≡ before ++ item_doubles [] (take k items.now)
        → lines.new ≡ before ++ item_doubles [] (take (k + 1) items.now)) }
{
    let item = &items[k];
    let first = first_at(names, items, k, item);
    if first < k {
        let last = push_chain(alloc, lines, items, next.as_slice(), first, item)?;
        next[last] = k as u32;
    }
    Ok(())
}

/// Adds the double lines of an export with the one at a place, and with those linked after that.
/// Returns the place of the last of these.
fn push_chain(
    alloc: Global,
    lines: &mut Obstacles,
    items: &[ExportItem],
    next: &[u32],
    from: usize,
    item: &ExportItem,
) -> Result<usize, AllocError>
    requires long { length next.now ≡ length items.now }
    requires inside { All (λ j. j < length items.now) next.now }
    requires from { from < length items.now }
    ensures within { IfOk result (λ last. last < length items.now) }
    ensures last { IfOk result
        (λ last. (js : List ℕ) → IsChain next.now from js → last ≡ last_of from js) }
    ensures lines { OnOk result ((js : List ℕ) → IsChain next.now from js → lines.new
        ≡ lines.old
        ++ map (λ j. Double item.now.export.name (slice_index_or items.now j item.now).path
        item.now.path) (from ∷ js)) }
{
    let mut at = from;
    'chain: loop {
        lines.push(double(alloc, &items[at], item)?)?;
        let after = next[at] as usize;
        if after <= at {
            return Ok(at);
        }
        at = after;
    }
}

/// Makes the double line of an export and one before it.
fn double(alloc: Global, before: &ExportItem, item: &ExportItem) -> Result<Unbound, AllocError>
    ensures { IfOk result
        (λ line. line ≡ Double item.now.export.name before.now.path item.now.path) }
{
    Ok(Unbound::Double {
        symbol: Name::from_slice(alloc, item.name())?,
        first: PathText::from_slice(alloc, before.path())?,
        second: PathText::from_slice(alloc, item.path())?,
    })
}
