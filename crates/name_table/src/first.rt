// Keys of tables, each with the value that it was given first.
ghost use Rattle.std.specs.Prelude.{◌≡◌, Some, None, OnOk, OnErr, if◌then◌else◌};
ghost use Rattle.std.specs.Option.{option_or};
ghost use Rattle.indexmap.specs.IndexMap.{get, IsUnchanged};

use crate::key::NameHash;
use indexmap::IndexMap;
use std::alloc::AllocError;
use std::hash::Hash;

/// Gives a key this value in a table, unless it has one. A key that has one gets its old value
/// back, so a new key, as most are, is looked up once. After a refusal the table is as before.
pub fn keep_first<K: Eq + Hash + Copy, V: Copy>(
    table: &mut IndexMap<K, V, NameHash>,
    key: K,
    value: V,
) -> Result<(), AllocError>
    ensures ok { OnOk result ((other : K) → get K.eq table.new other
        ≡ option_or (get K.eq table.old other) (if K.eq key other then Some value else None)) }
    ensures err { OnErr result (IsUnchanged table.old table.new) }
{
    if let Some(first) = table.insert(key, value)? {
        table.insert(key, first)?;
    }
    Ok(())
}
