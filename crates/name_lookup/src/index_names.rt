// The names that are values in one index.
ghost use Rattle.std.specs.Prelude.{◌≡◌, IfOk};
ghost use Rattle.index_format.specs.Map.{values_of};
ghost use Rattle.index_read.specs.Contents.{contents, wild_values};
ghost use Rattle.index_read.specs.Values.{found_values};
ghost use Rattle.name_table.specs.FirstSeen.{first_seen};
ghost use Rattle.name_lookup.specs.Maps.{texts};

use index_read::{Index, Values, distinct_texts, plain};
use km_names::{Name, Names};
use name_table::NameSet;
use std::alloc::{AllocError, Global};

/// Returns the texts of all values of the key, in their order.
pub(crate) fn names_under(alloc: Global, index: &Index, key: &[u8]) -> Result<Names, AllocError>
    ensures { IfOk result (λ names. names ≡ texts (values_of (contents index.now.nodes) key.now)) }
{
    let values = plain::values(alloc, index, key)?;
    names_of(alloc, &values)
}

/// Returns the texts of the values of every key that as a pattern matches the name, each once: by
/// rising priority, then by the bytes of the key, then by place.
pub(crate) fn names_matching(alloc: Global, index: &Index, name: &[u8]) -> Result<Names, AllocError>
    ensures { IfOk result
        (λ names. names ≡ first_seen (texts (wild_values (contents index.now.nodes) name.now))) }
{
    let found = distinct_texts(alloc, index, name)?;
    names_in(alloc, &found)
}

/// Returns the texts of values as names.
fn names_of(alloc: Global, values: &Values) -> Result<Names, AllocError>
    ensures { IfOk result (λ names. names ≡ texts (found_values values.now)) }
{
    let mut names = Names::new(alloc);
    for value in values.as_slice() {
        names.push(Name::from_slice(alloc, value.text.as_bytes())?)?;
    }
    Ok(names)
}

/// Returns the names of a set.
fn names_in(alloc: Global, set: &NameSet<'_>) -> Result<Names, AllocError>
    ensures { IfOk result (λ names. names ≡ set.now) }
{
    let mut names = Names::new(alloc);
    for place in 0..set.len() {
        if let Some(name) = set.get(place) {
            names.push(Name::from_slice(alloc, name)?)?;
        }
    }
    Ok(names)
}
