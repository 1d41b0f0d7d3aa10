ghost use Rattle.std.specs.Prelude.{◌≡◌, ◌&&◌, ◌∷◌, [], true, not, filter, IfOk};
ghost use Rattle.name_table.specs.FirstSeen.{first_seen, is_among};

use km_names::{Name, Names};
use name_table::NameSet;
use std::alloc::{AllocError, Global};

/// What was found for a name.
#[derive(Drop)]
pub struct Found {
    /// Which of the six lists gave the names, from 1; 0 if all are empty.
    pub list: u8,
    /// The names, each once. A list that was found may lose all of them to the blacklist.
    pub names: Names,
}

/// Returns nothing, as list 0.
pub(crate) fn nothing(alloc: Global) -> Found
    ensures { result ≡ record { list = 0; names = [] } }
{
    Found {
        list: 0,
        names: Names::new(alloc),
    }
}

/// Returns the name itself, as the list of this number.
pub(crate) fn itself(alloc: Global, list: u8, name: &[u8]) -> Result<Found, AllocError>
    ensures { IfOk result (λ f. f ≡ record { list = list; names = name.now ∷ [] }) }
{
    let mut names = Names::new(alloc);
    names.push(Name::from_slice(alloc, name)?)?;
    Ok(Found { list, names })
}

/// Returns the names without repeats, the first of equal ones kept. If `drops` says so, the names
/// of a set are dropped.
pub(crate) fn names_left(
    alloc: Global,
    names: Names,
    drops: bool,
    dropped: &NameSet<'_>,
) -> Result<Names, AllocError>
    ensures { IfOk result
        (λ left. left
        ≡ filter (λ name. not (drops && is_among dropped.now name)) (first_seen names)) }
{
    if stays(&names, drops, dropped) {
        return Ok(names);
    }
    let seen = distinct(alloc, &names)?;
    names_but(alloc, &seen, drops, dropped)
}

/// Returns whether no name can go: there is at most one, and none is dropped. Most names that are
/// looked up stand for one.
fn stays(names: &Names, drops: bool, dropped: &NameSet<'_>) -> bool
    ensures { result ≡ true
        → filter (λ name. not (drops && is_among dropped.now name)) (first_seen names.now)
        ≡ names.now }
{
    if names.len() > 1 {
        return false;
    }
    if drops {
        return dropped.len() == 0;
    }
    true
}

/// Returns the names without repeats, the first of equal ones kept.
fn distinct(alloc: Global, names: &Names) -> Result<NameSet<'_>, AllocError>
    ensures { IfOk result (λ seen. seen ≡ first_seen names.now) }
{
    let mut seen = NameSet::new(alloc);
    for name in names.as_slice() {
        seen.insert(name.as_bytes())?;
    }
    Ok(seen)
}

/// Returns the names of a set. If `drops` says so, the names of another are dropped.
fn names_but(
    alloc: Global,
    names: &NameSet<'_>,
    drops: bool,
    dropped: &NameSet<'_>,
) -> Result<Names, AllocError>
    ensures { IfOk result
        (λ left. left ≡ filter (λ name. not (drops && is_among dropped.now name)) names.now) }
{
    let mut left = Names::new(alloc);
    for place in 0..names.len() {
        if let Some(name) = names.get(place) {
            if !is_dropped(drops, dropped, name) {
                left.push(Name::from_slice(alloc, name)?)?;
            }
        }
    }
    Ok(left)
}

/// Returns whether names are dropped, and this is one of them.
fn is_dropped(drops: bool, dropped: &NameSet<'_>, name: &[u8]) -> bool
    ensures { result ≡ (drops && is_among dropped.now name.now) }
{
    drops && dropped.contains(name)
}
