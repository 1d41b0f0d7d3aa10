// The modules that the names of soft dependencies stand for and that can be loaded.
ghost use Rattle.std.specs.Prelude.{◌≡◌, ◌<◌, ◌++◌, ◌∷◌, [], ℕ, List, length, filter, replicate};
ghost use Rattle.std.specs.Prelude.{None, All, IfOk, OnErr, OnOk};
ghost use Rattle.plan_sources.specs.Sources.{modules, is_available};
ghost use Rattle.plan_sources.specs.Planner.{sources_of};
ghost use Rattle.plan_sources.specs.Kept.{texts};
ghost use Rattle.plan_sources.specs.Softdeps.{HasSoftTable, IsSoftTable, KnowsAvailable};
ghost use Rattle.plan_sources.specs.Softdeps.{loadable_places};

use crate::planner::Planner;
use indexmap::IndexMap;
use km_names::Name;
use name_table::{NameHash, NameKey};
use std::alloc::{AllocError, Global};

/// For each of some names the modules that it stands for and that can be loaded.
pub(crate) type SoftLists<'a> = IndexMap<NameKey<'a>, Vec<usize>, NameHash>;

/// Makes, for each of some modules, the mark that it isn't known yet whether it can be loaded.
pub(crate) fn nothing_known(alloc: Global, count: usize) -> Result<Vec<Option<bool>>, AllocError>
    ensures { IfOk result (λ known. known.items ≡ replicate count None) }
{
    vec![in alloc; None; count]
}

/// Adds names. There is room for all of them before the first one is added.
pub(crate) fn add_names<'a>(
    alloc: Global,
    planner: &Planner<'_>,
    known: &mut Vec<Option<bool>>,
    lists: &mut SoftLists<'a>,
    more: &[&'a Name],
) -> Result<(), AllocError>
    requires { KnowsAvailable (sources_of planner.now) known.old.items }
    ensures known { KnowsAvailable (sources_of planner.now) known.new.items }
    ensures lists { OnOk result ((names : List (List ℕ))
        → IsSoftTable (sources_of planner.now) names lists.old.entries
        → IsSoftTable (sources_of planner.now) (names ++ texts more.now) lists.new.entries) }
    ensures some { OnErr result (HasSoftTable (sources_of planner.now) lists.old.entries
        → HasSoftTable (sources_of planner.now) lists.new.entries) }
{
    lists.reserve(more.len())?;
    for name in more {
        add_name(alloc, planner, known, lists, *name)?;
    }
    Ok(())
}

/// Adds a name, unless it was added before.
fn add_name<'a>(
    alloc: Global,
    planner: &Planner<'_>,
    known: &mut Vec<Option<bool>>,
    lists: &mut SoftLists<'a>,
    name: &'a Name,
) -> Result<(), AllocError>
    requires { KnowsAvailable (sources_of planner.now) known.old.items }
    ensures known { KnowsAvailable (sources_of planner.now) known.new.items }
    ensures lists { OnOk result ((names : List (List ℕ))
        → IsSoftTable (sources_of planner.now) names lists.old.entries
        → IsSoftTable (sources_of planner.now) (names ++ name.now ∷ []) lists.new.entries) }
    ensures err { OnErr result (lists.new.entries ≡ lists.old.entries) }
{
    let key = NameKey::new(name.as_bytes());
    match lists.get(&key) {
        Some(_) => Ok(()),
        None => {
            let places = loadable_places(alloc, planner, known, name)?;
            lists.insert(key, places)?;
            Ok(())
        }
    }
}

/// Finds the modules that a name stands for and that can be loaded. If modules.unmet has no line,
/// each can.
fn loadable_places(
    alloc: Global,
    planner: &Planner<'_>,
    known: &mut Vec<Option<bool>>,
    name: &Name,
) -> Result<Vec<usize>, AllocError>
    requires { KnowsAvailable (sources_of planner.now) known.old.items }
    ensures known { KnowsAvailable (sources_of planner.now) known.new.items }
    ensures places { IfOk result
        (λ places. places.items ≡ loadable_places (sources_of planner.now) name.now) }
{
    let found = planner.found(alloc, name)?;
    let places = planner.modules().places_of(alloc, found.names.as_slice())?;
    if planner.unmet().is_empty() {
        return Ok(places);
    }
    only_loadable(alloc, planner, known, &places)
}

/// Returns the modules among some that can be loaded.
fn only_loadable(
    alloc: Global,
    planner: &Planner<'_>,
    known: &mut Vec<Option<bool>>,
    places: &[usize],
) -> Result<Vec<usize>, AllocError>
    requires known { KnowsAvailable (sources_of planner.now) known.old.items }
    requires places { All (λ y. y < length (modules (sources_of planner.now))) places.now }
    ensures known { KnowsAvailable (sources_of planner.now) known.new.items }
    ensures places { IfOk result
        (λ kept. kept.items
        ≡ filter
        (is_available (modules (sources_of planner.now)) (sources_of planner.now).unmet)
        places.now) }
{
    let mut kept = Vec::new(alloc);
    for y in places {
        if is_loadable(alloc, planner, known, *y)? {
            kept.push(*y)?;
        }
    }
    Ok(kept)
}

/// Returns whether a module can be loaded, as it is known, or else as the planner says.
fn is_loadable(
    alloc: Global,
    planner: &Planner<'_>,
    known: &mut Vec<Option<bool>>,
    place: usize,
) -> Result<bool, AllocError>
    requires known { KnowsAvailable (sources_of planner.now) known.old.items }
    requires place { place < length (modules (sources_of planner.now)) }
    ensures known { KnowsAvailable (sources_of planner.now) known.new.items }
    ensures answer { IfOk result
        (λ loadable. loadable
        ≡ is_available (modules (sources_of planner.now)) (sources_of planner.now).unmet
        place) }
{
    match known[place] {
        Some(loadable) => Ok(loadable),
        None => {
            let loadable = planner.is_available(alloc, place)?;
            known[place] = Some(loadable);
            Ok(loadable)
        }
    }
}
