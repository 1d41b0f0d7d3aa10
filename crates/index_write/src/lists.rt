// The values of one key, in their order.
ghost use Rattle.std.specs.Prelude.{◌≡◌, ◌≤◌, ℕ, List, [], ◌∷◌, OnOk, OnErr, IfOk, length, insert};
ghost use Rattle.std.specs.Prelude.{string_bytes};
ghost use Rattle.index_format.specs.Map.{place};
ghost use Rattle.index_write.specs.Lists.{value_of, shown_values, entries_of, with_one, AreOrdered};

use crate::key_map::StoredValue;
use std::alloc::{AllocError, Global};
use std::collections::BTreeMap;
use std::collections::btree_map::Entry;

/// Inserts a value into the list of its key.
pub(crate) fn add_value(
    alloc: Global,
    lists: &mut BTreeMap<String, Vec<StoredValue>>,
    key: String,
    value: StoredValue,
) -> Result<(), AllocError>
    ensures ok { OnOk result
        (entries_of lists.new.entries
        ≡ with_one (entries_of lists.old.entries) (string_bytes key) (value_of value)) }
    ensures err { OnErr result (entries_of lists.new.entries ≡ entries_of lists.old.entries) }
    ensures ordered { AreOrdered lists.old.entries }
{
    match lists.entry(key)? {
        Entry::Occupied(entry) => add_to(entry.into_mut(), value),
        Entry::Vacant(entry) => {
            Entry::Vacant(entry).or_try_insert_with(|| list_of(alloc, value))?;
            Ok(())
        }
    }
}

/// Inserts a value at its place.
fn add_to(list: &mut Vec<StoredValue>, value: StoredValue) -> Result<(), AllocError>
    ensures ok { OnOk result
        (shown_values list.new.items ≡ place (shown_values list.old.items) (value_of value)) }
    ensures err { OnErr result (list.new.items ≡ list.old.items) }
{
    let at = place_for(list, value.priority);
    list.insert(at, value)?;
    Ok(())
}

/// Returns a list of one value. It has no room for others, since most keys have one value.
fn list_of(alloc: Global, value: StoredValue) -> Result<Vec<StoredValue>, AllocError>
    ensures { IfOk result (λ list. shown_values list.items ≡ value_of value ∷ []) }
{
    let mut list = Vec::with_capacity(alloc, 1)?;
    list.push(value)?;
    Ok(list)
}

/// Returns the place of a new value: after the last one whose priority isn't greater.
fn place_for(list: &[StoredValue], priority: u32) -> usize
    ensures within { result ≤ length list.now }
    ensures place { (v : ℕ × List ℕ) → v.0 ≡ priority
        → insert (shown_values list.now) result v ≡ place (shown_values list.now) v }
{
    let mut at = list.len();
    while at > 0 && list[at - 1].priority > priority {
        at -= 1;
    }
    at
}
