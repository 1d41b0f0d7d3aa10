// The order of the modules of a tree, by modules.order.

ghost use Rattle.std.specs.Prelude.{◌≡◌, ◌<◌, ℕ, List, map, All, IfOk};
ghost use Rattle.km_names.specs.Lines.{lines_of};
ghost use Rattle.mod_tree.specs.Tree.{tree_paths};
ghost use Rattle.mod_tree.specs.Shown.{referents};
ghost use Rattle.mod_tree.specs.Places.{IsPlacesOf};
ghost use Rattle.mod_tree.specs.Listing.{IsListing, listed_path};
ghost use Rattle.mod_tree.specs.Chosen.{HasChosen};

use crate::places::Places;
use km_names::{PathText, Paths, first_line};
use std::alloc::{AllocError, Global};

/// A path with its sort key: the place of its first line in modules.order, or the number of lines
/// if it has none, and then the path.
#[derive(PartialEq, Eq, PartialOrd, Ord, Drop)]
pub(crate) struct Listing<'a> {
    place: usize,
    path: &'a [u8],
}

/// Returns the chosen paths in the order of the tree.
pub(crate) fn tree_in_order(
    alloc: Global,
    chosen: &[&[u8]],
    order_file: &[u8],
) -> Result<Paths, AllocError>
    ensures { IfOk result (λ tree. (search paths : List (List ℕ))
        → HasChosen search paths (referents chosen.now)
        → tree ≡ tree_paths search (lines_of order_file.now) paths) }
{
    let places = line_places(alloc, order_file)?;
    let mut list = listings(alloc, chosen, &places)?;
    list.sort()?;
    listed_paths(alloc, list.as_slice())
}

/// Returns the first place of each line of a text.
fn line_places(alloc: Global, text: &[u8]) -> Result<Places<'_>, AllocError>
    ensures { IfOk result (λ places. IsPlacesOf (lines_of text.now) places) }
{
    let mut places = Places::new(alloc);
    let mut rest = text;
    while !rest.is_empty() {
        let (line, next) = first_line(rest);
        places.add(line)?;
        rest = next;
    }
    Ok(places)
}

/// Returns the paths with their sort keys, in order.
fn listings<'a>(
    alloc: Global,
    chosen: &[&'a [u8]],
    places: &Places<'_>,
) -> Result<Vec<Listing<'a>>, AllocError>
    ensures paths { IfOk result (λ list. map listed_path list.items ≡ referents chosen.now) }
    ensures each { IfOk result
        (λ list. (lines : List (List ℕ)) → IsPlacesOf lines places.now
        → All (IsListing lines) list.items) }
{
    let mut list = Vec::new(alloc);
    for path in chosen {
        list.push(Listing {
            place: places.first_place(path),
            path: *path,
        })?;
    }
    Ok(list)
}

/// Returns the paths of a sorted list, in its order.
fn listed_paths(alloc: Global, list: &[Listing<'_>]) -> Result<Paths, AllocError>
    ensures { IfOk result (λ paths. paths ≡ map listed_path list.now) }
{
    let mut paths = Paths::new(alloc);
    for listing in list {
        paths.push(PathText::from_slice(alloc, listing.path)?)?;
    }
    Ok(paths)
}
