// Which modules in a machine use which. The table of exported names has the exporter of each need,
// so each need is looked up once.

ghost use Rattle.std.specs.Prelude.{◌≡◌, ◌&&◌, ℕ, IfOk, map, nat_eq, nat_lt};
ghost use Rattle.std.specs.List.{list_any};
ghost use Rattle.name_table.specs.NameTable.{IsTableOf};
ghost use Rattle.model_loader.specs.Uses.{AreBoundPlaces, bound_place, is_bound_at, is_met_named};
ghost use Rattle.model_loader.specs.Uses.{is_owner, met_place, owner_place, stated_names};

use crate::entry::{BoundNeed, Entry};
use export_table::{ExportTable, Standing};
use name_table::NameTable;
use std::alloc::{AllocError, Global};
use symbol_binding::sees;

/// Returns whether the module at the place `k` binds to the one at the place `j`.
pub(crate) fn binds_to(table: &ExportTable, user: &Entry, k: usize, other: &Entry, j: usize) -> bool
    ensures { result
        ≡ (nat_lt j k
        && list_any (is_met_named table.now user.now.free other.now.loaded.name)
        user.now.needs) }
{
    j < k && uses_named(table, user, other.loaded.name.as_bytes())
}

/// Returns the place of each module by its name.
pub(crate) fn places_of<'a>(
    alloc: Global,
    entries: &'a [Entry],
) -> Result<NameTable<'a>, AllocError>
    ensures { IfOk result (λ t. IsTableOf t (stated_names entries.now)) }
{
    if entries.len() >= u32::MAX as usize {
        return Err(AllocError);
    }
    let mut places = NameTable::with_capacity(alloc, entries.len())?;
    for entry in entries {
        places.push(Some(entry.loaded.name.as_bytes()))?;
    }
    Ok(places)
}

/// Returns for each module the places of the modules that it binds to.
pub(crate) fn all_bound_places(
    alloc: Global,
    table: &ExportTable,
    places: &NameTable,
    entries: &[Entry],
) -> Result<Vec<Vec<usize>>, AllocError>
    ensures { IfOk result
        (λ v. AreBoundPlaces table.now places.now entries.now (map (λ u. u.items) v.items)) }
{
    let mut all = Vec::with_capacity(alloc, entries.len())?;
    for k in 0..entries.len() {
        all.push(bound_places(alloc, table, places, &entries[k], k)?)?;
    }
    Ok(all)
}

/// Returns whether the module of this name exports any need of the user, with an export that the
/// user sees.
fn uses_named(table: &ExportTable, user: &Entry, name: &[u8]) -> bool
    ensures { result ≡ list_any (is_met_named table.now user.now.free name.now) user.now.needs }
{
    user.needs
        .as_slice()
        .iter()
        .any(|need| is_met_by(table, user.free, name, need))
}

/// Returns the places of the modules that the module at a place binds to.
fn bound_places(
    alloc: Global,
    table: &ExportTable,
    places: &NameTable,
    entry: &Entry,
    k: usize,
) -> Result<Vec<usize>, AllocError>
    ensures { IfOk result
        (λ v. (j : ℕ)
        → list_any (nat_eq j) v.items
        ≡ list_any (is_bound_at table.now places.now entry.now.free k j) entry.now.needs) }
{
    let mut bound = Vec::new(alloc);
    for need in entry.needs.as_slice() {
        if let Some(place) = bound_place(table, places, entry.free, k, need) {
            bound.push(place)?;
        }
    }
    Ok(bound)
}

/// Returns whether the module of this name exports a need of another, with an export that the other
/// sees.
fn is_met_by(table: &ExportTable, free: bool, name: &[u8], need: &BoundNeed) -> bool
    ensures { result ≡ is_met_named table.now free name.now need.now }
{
    match table.get(need.name.as_bytes()) {
        Some(standing) => is_owner(standing, name) && sees(free, standing.gpl),
        None => false,
    }
}

/// Returns the place of the module that exports a need, with an export that is seen, if it is below
/// `k`.
fn bound_place(
    table: &ExportTable,
    places: &NameTable,
    free: bool,
    k: usize,
    need: &BoundNeed,
) -> Option<usize>
    ensures { result ≡ bound_place table.now places.now free k need.now }
{
    let place = met_place(table, places, free, need)? as usize;
    if place < k { Some(place) } else { None }
}

/// Returns whether the owner of an export is the module of this name.
fn is_owner(standing: &Standing, name: &[u8]) -> bool
    ensures { result ≡ is_owner name.now standing.now }
{
    match &standing.owner {
        Some(owner) => owner.as_bytes() == name,
        None => false,
    }
}

/// Returns the place of the module that exports a need, with an export that is seen.
fn met_place(table: &ExportTable, places: &NameTable, free: bool, need: &BoundNeed) -> Option<u32>
    ensures { result ≡ met_place table.now places.now free need.now }
{
    match table.get(need.name.as_bytes()) {
        Some(standing) => owner_place(places, free, standing),
        None => None,
    }
}

/// Returns the place of the owner of an export, if the export is seen and the owner is a module.
fn owner_place(places: &NameTable, free: bool, standing: &Standing) -> Option<u32>
    ensures { result ≡ owner_place places.now free standing.now }
{
    if !sees(free, standing.gpl) {
        return None;
    }
    match &standing.owner {
        Some(owner) => places.place(owner.as_bytes()),
        None => None,
    }
}
