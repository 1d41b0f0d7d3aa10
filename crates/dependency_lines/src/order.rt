// Modules by their numbers in the tree.
ghost use Rattle.std.specs.Prelude.{◌≡◌, ◌<◌, true, All, IfOk, IfSome, length};
ghost use Rattle.dependency_lines.specs.Modules.{by_number};
ghost use Rattle.dependency_lines.specs.Places.{AreFirst, ArePlaces, IsNumberOf};
ghost use Rattle.dependency_lines.specs.Tables.{NamesRise, at_places};

use crate::named_lines::Lines;
use std::alloc::{AllocError, Global};
use std::cmp::Ordering;

/// Sorts the places of modules by the modules' numbers.
pub(crate) fn sorted_places(alloc: Global, lines: &Lines<'_>) -> Result<Vec<usize>, AllocError>
    ensures order { IfOk result (λ places. at_places lines.now places.items ≡ by_number lines.now) }
    ensures inside { IfOk result (λ places. All (λ place. place < length lines.now) places.items) }
{
    let mut places = first_places(alloc, lines.len())?;
    places.sort_by_key(|place| lines.number(*place))?;
    Ok(places)
}

/// Finds where the module of each number is. Returns `None` unless the modules have the numbers
/// from 0 on, each once, as depmod gives them.
pub(crate) fn places_by_number(
    alloc: Global,
    lines: &Lines<'_>,
) -> Result<Option<Vec<usize>>, AllocError>
    ensures are { IfOk result
        (λ found. IfSome found (λ places. ArePlaces lines.now places.items (length lines.now))) }
    ensures inside { IfOk result
        (λ found. IfSome found (λ places. All (λ place. place < length lines.now) places.items)) }
{
    let Some(places) = places_or_count(alloc, lines)? else {
        return Ok(None);
    };
    if are_inside(&places, lines.len()) {
        Ok(Some(places))
    } else {
        Ok(None)
    }
}

/// Finds the number of the module of this name, among modules whose names rise.
pub(crate) fn number_of(lines: &Lines<'_>, name: &[u8]) -> Option<usize>
    requires { NamesRise lines.now }
    ensures { IsNumberOf lines.now name.now result }
{
    let mut low = 0;
    let mut high = lines.len();
    while low < high {
        let middle = low + (high - low) / 2;
        match lines.name(middle).cmp(name) {
            Ordering::Less => low = middle + 1,
            Ordering::Greater => high = middle,
            Ordering::Equal => return Some(lines.number(middle) as usize),
        }
    }
    None
}

/// Lists the places below a count, in order.
fn first_places(alloc: Global, count: usize) -> Result<Vec<usize>, AllocError>
    ensures { IfOk result (λ places. AreFirst count places.items) }
{
    let mut places = Vec::with_capacity(alloc, count)?;
    for place in 0..count {
        places.push(place)?;
    }
    Ok(places)
}

/// Finds for each number the place of its module, or the count of modules if no module has it. The
/// result is `None` if a number isn't below the count, or if two modules have it.
fn places_or_count(alloc: Global, lines: &Lines<'_>) -> Result<Option<Vec<usize>>, AllocError>
    ensures { IfOk result
        (λ found. IfSome found (λ places. ArePlaces lines.now places.items (length lines.now))) }
{
    let count = lines.len();
    let mut places = vec![in alloc; count; count]?;
    for place in 0..count {
        let number = lines.number(place) as usize;
        if number >= count || places[number] < count {
            return Ok(None);
        }
        places[number] = place;
    }
    Ok(Some(places))
}

/// Returns whether all places are below a count.
fn are_inside(places: &[usize], count: usize) -> bool
    ensures { result ≡ true → All (λ place. place < count) places.now }
{
    for place in places {
        if *place >= count {
            return false;
        }
    }
    true
}
