// The modules of a tree: of the paths of one module name the one that the search order prefers.

ghost use Rattle.std.specs.Prelude.{◌≡◌, ◌<◌, ℕ, List, map, All, IfOk, None};
ghost use Rattle.std.specs.List.{position_or_len};
ghost use Rattle.mod_tree.specs.Tree.{rank as rank_spec, is_folder_of};
ghost use Rattle.mod_tree.specs.Shown.{referents};
ghost use Rattle.mod_tree.specs.Places.{IsPlacesOf};
ghost use Rattle.mod_tree.specs.Chosen.{IsCandidate, path_of, HasChosen, heads};

use crate::Search;
use crate::places::Places;
use km_names::{PathText, module_name};
use std::alloc::{AllocError, Global};

/// A path of a module with its sort key: its module name, then its rank, and then the path.
#[derive(PartialEq, Eq, PartialOrd, Ord, Drop)]
pub(crate) struct Candidate<'a> {
    name: Vec<u8>,
    rank: usize,
    path: &'a [u8],
}

/// Returns the chosen ones among paths of modules, one for each module name.
pub(crate) fn chosen_paths<'a>(
    alloc: Global,
    modules: &[&'a PathText],
    search: &Search,
) -> Result<Vec<&'a [u8]>, AllocError>
    ensures { IfOk result
        (λ chosen. HasChosen search.now (referents modules.now) (referents chosen.items)) }
{
    let mut list = candidates(alloc, modules, search)?;
    list.sort()?;
    first_of_each(alloc, list.as_slice())
}

/// Returns the paths with their sort keys, in order.
fn candidates<'a>(
    alloc: Global,
    modules: &[&'a PathText],
    search: &Search,
) -> Result<Vec<Candidate<'a>>, AllocError>
    ensures paths { IfOk result (λ list. map path_of list.items ≡ referents modules.now) }
    ensures each { IfOk result (λ list. All (IsCandidate search.now) list.items) }
{
    let places = word_places(alloc, search)?;
    let mut list = Vec::new(alloc);
    for path in modules {
        let name = module_name(alloc, path)?.into_vec()?;
        let bytes = path.as_bytes();
        list.push(Candidate {
            name,
            rank: rank(&places, bytes),
            path: bytes,
        })?;
    }
    Ok(list)
}

/// Returns the first place of each search word.
fn word_places<'a>(alloc: Global, search: &'a Search) -> Result<Places<'a>, AllocError>
    ensures { IfOk result (λ places. IsPlacesOf search.now places) }
{
    let mut places = Places::new(alloc);
    for word in search.as_slice() {
        places.add(word.as_bytes())?;
    }
    Ok(places)
}

/// Returns the rank of a path among search words whose places are known.
fn rank(places: &Places<'_>, path: &[u8]) -> usize
    ensures { (search : List (List ℕ)) → IsPlacesOf search places.now
        → result ≡ rank_spec search path.now }
{
    let place = folder_place(places, path);
    if place < places.count() {
        place
    } else {
        places.first_place(b"built-in")
    }
}

/// Returns the least place of a word that names a folder of the path, or the count of words.
fn folder_place(places: &Places<'_>, path: &[u8]) -> usize
    ensures { (search : List (List ℕ)) → IsPlacesOf search places.now
        → result ≡ position_or_len (is_folder_of path.now) search }
{
    let mut least = places.count();
    for end in 0..path.len() {
        if path[end] == b'/' && &path[..end] != b"built-in".as_slice() {
            least = least.min(places.first_place(&path[..end]));
        }
    }
    least
}

/// Returns the first path of each name, among candidates in order.
fn first_of_each<'a>(alloc: Global, list: &[Candidate<'a>]) -> Result<Vec<&'a [u8]>, AllocError>
    ensures { IfOk result (λ chosen. (search : List (List ℕ)) → All (IsCandidate search) list.now
        → referents chosen.items ≡ heads None (map path_of list.now)) }
{
    let mut chosen = Vec::new(alloc);
    let mut previous: Option<&[u8]> = None;
    for candidate in list {
        let name = candidate.name.as_slice();
        if previous != Some(name) {
            chosen.push(candidate.path)?;
        }
        previous = Some(name);
    }
    Ok(chosen)
}
