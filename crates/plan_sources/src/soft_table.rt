// What the names of soft dependencies stand for.
ghost use Rattle.std.specs.Prelude.{◌≡◌, ◌==◌, [], not, filter, unwrap_or, Some, IfOk, IfSome};
ghost use Rattle.std.specs.Prelude.{OnOk};
ghost use Rattle.std.specs.List.{flat_map};
ghost use Rattle.relation_order.specs.Search.{with_items};
ghost use Rattle.plan_sources.specs.Sources.{soft_places};
ghost use Rattle.plan_sources.specs.Planner.{sources_of};
ghost use Rattle.plan_sources.specs.Kept.{texts};
ghost use Rattle.plan_sources.specs.Softdeps.{kept_places, once};

use crate::planner::Planner;
use crate::softdeps::{SoftLists, add_names, nothing_known};
use indexmap::IndexSet;
use km_names::Name;
use name_table::{NameHash, NameKey, NameSet};
use std::alloc::{AllocError, Global};
use std::hash::BuildHasherDefault;
use std::marker::Model;

/// What names of soft dependencies stand for. A name is looked up when it is first asked for, and
/// a module is asked once whether it can be loaded. Contracts see what plans are made from.
#[derive(Drop)]
pub struct SoftTable<'p, 'a> {
    planner: &'p Planner<'a>,
    /// For each module whether it can be loaded, if that was asked.
    known: Vec<Option<bool>>,
    /// For each name that was asked for, the modules that can be loaded.
    lists: SoftLists<'a>,
}

impl<'p, 'a> Model for SoftTable<'p, 'a> {
    ghost use Rattle.plan_sources.specs.Planner.{Held, sources_of};
    ghost use Rattle.plan_sources.specs.Softdeps.{HasSoftTable, KnowsAvailable};

    ghost Value = { Held };

    ghost view = { λ t. t.planner.now };

    ghost invariant = { λ t. KnowsAvailable (sources_of t.planner.now) t.known.items
        × HasSoftTable (sources_of t.planner.now) t.lists.entries };
}

impl<'p, 'a> SoftTable<'p, 'a> {
    /// Makes a table for a planner's soft dependencies. No name was asked for.
    pub fn new(alloc: Global, planner: &'p Planner<'a>) -> Result<SoftTable<'p, 'a>, AllocError>
        ensures { IfOk result (λ table. table ≡ planner.now) }
    {
        let known = nothing_known(alloc, planner.modules().len())?;
        let lists = SoftLists::with_hasher(alloc, BuildHasherDefault::new());
        Ok(SoftTable {
            planner,
            known,
            lists,
        })
    }

    /// Returns what plans are made from.
    pub fn planner(&self) -> &'p Planner<'a>
        ensures { result.now ≡ self.now }
    {
        self.planner
    }

    /// Finds the modules that names of soft dependencies stand for, that can be loaded and that
    /// aren't this one, each once.
    pub fn places(
        &mut self,
        alloc: Global,
        place: usize,
        names: &[&'a Name],
    ) -> Result<Vec<usize>, AllocError>
        ensures stays { self.new ≡ self.old }
        ensures places { IfOk result
            (λ places. places.items
            ≡ once (soft_places (sources_of self.old) place (texts names.now))) }
    {
        add_names(alloc, self.planner, &mut self.known, &mut self.lists, names)?;
        find_named(alloc, &self.lists, place, names)
    }
}

/// Places of modules, each once, in the order in which they were found.
type PlaceSet = IndexSet<usize, NameHash>;

/// Finds the modules that are kept under names and that aren't this one, each once.
fn find_named<'a>(
    alloc: Global,
    lists: &SoftLists<'a>,
    place: usize,
    names: &[&'a Name],
) -> Result<Vec<usize>, AllocError>
    ensures { IfOk result
        (λ found. found.items
        ≡ once (filter (λ y. not (y == place))
        (flat_map (λ name. unwrap_or (kept_places lists.now.entries name) [])
        (texts names.now)))) }
{
    if names.is_empty() {
        return Ok(Vec::new(alloc));
    }
    let mut found = PlaceSet::with_hasher(alloc, BuildHasherDefault::new());
    let mut looked_up = NameSet::new(alloc);
    find_all(alloc, &mut found, &mut looked_up, lists, place, names)
}

/// Finds the modules that are kept under names, over empty sets. A repeated name is skipped, unless
/// it has so few modules that they are found again as fast.
fn find_all<'a>(
    alloc: Global,
    found: &mut PlaceSet,
    looked_up: &mut NameSet<'a>,
    lists: &SoftLists<'a>,
    place: usize,
    names: &[&'a Name],
) -> Result<Vec<usize>, AllocError>
    requires found { found.old.keys ≡ [] }
    requires looked_up { looked_up.old ≡ [] }
    ensures { IfOk result
        (λ places. places.items
        ≡ once (filter (λ y. not (y == place))
        (flat_map (λ name. unwrap_or (kept_places lists.now.entries name) [])
        (texts names.now)))) }
{
    let mut next = 0;
    for name in names {
        let name = name.as_bytes();
        let (places, after) = places_under(lists, next, name);
        next = after;
        if places.len() < 2 {
            find_others(found, place, places)?;
        } else if !looked_up.contains(name) {
            looked_up.insert(name)?;
            find_others(found, place, places)?;
        }
    }
    Vec::from_slice(alloc, found.as_slice())
}

/// Returns the modules under a name, none if the lists don't have it, and where they go on after
/// the name. The names of a rule are mostly one after the other in them. So the name is first
/// compared with the next one, for which no hash is computed.
fn places_under<'t, 'a>(
    lists: &'t SoftLists<'a>,
    next: usize,
    name: &'a [u8],
) -> (&'t [usize], usize)
    ensures { result.0.now ≡ unwrap_or (kept_places lists.now.entries name.now) [] }
{
    if let Some(places) = places_at(lists, next, name) {
        return (places, next.wrapping_add(1));
    }
    match lists.get_full(&NameKey::new(name)) {
        Some((at, _, places)) => (places.as_slice(), at.wrapping_add(1)),
        None => (&[], next),
    }
}

/// Returns the modules at a place of the lists, if they are kept under this name.
fn places_at<'t>(lists: &'t SoftLists<'_>, at: usize, name: &[u8]) -> Option<&'t [usize]>
    ensures { IfSome result (λ places. kept_places lists.now.entries name.now ≡ Some places.now) }
{
    let (key, places) = lists.get_index(at)?;
    if key.bytes == name {
        return Some(places.as_slice());
    }
    None
}

/// Finds the modules among some that aren't this one, unless they were found before.
fn find_others(found: &mut PlaceSet, place: usize, places: &[usize]) -> Result<(), AllocError>
    ensures { OnOk result
        (found.new.keys ≡ with_items found.old.keys (filter (λ y. not (y == place)) places.now)) }
{
    for y in places {
        if *y != place {
            found.insert(*y)?;
        }
    }
    Ok(())
}
