ghost use Rattle.std.specs.Prelude.{◌≡◌, ◌<◌, ◌+◌, ◌-◌, ◌^◌, ℕ, List, [], ◌∷◌, ◌++◌, Option, Some};
ghost use Rattle.std.specs.Prelude.{None, OnOk, OnErr, option_copied, if◌then◌else◌};
ghost use Rattle.std.specs.Option.{option_or};
ghost use Rattle.std.specs.Str.{bytes_eq};
ghost use Rattle.indexmap.specs.IndexMap.{get_by, IsUnchanged};
ghost use Rattle.name_table.specs.Keys.{name_of};
ghost use Rattle.name_table.specs.NameTable.{IsTableOf, place_of};

use crate::key::{NameHash, OwnedNameKey};
use indexmap::IndexMap;
use km_names::Name;
use std::alloc::{AllocError, Global};
use std::hash::BuildHasherDefault;
use std::marker::Model;

/// For each of some names the place of the first item that states it. The table has copies of the
/// names. Contracts see the names with their places, and the count of items.
#[derive(Drop)]
pub struct OwnedNameTable {
    places: IndexMap<OwnedNameKey<'static>, u32, NameHash>,
    count: u32,
}

impl Model for OwnedNameTable {
    ghost use Rattle.std.specs.Prelude.{map};
    ghost use Rattle.name_table.specs.Keys.{name_of};
    ghost use Rattle.name_table.specs.NameTable.{Table};

    ghost Value = { Table };

    ghost view = { λ t. record
        { entries = map (λ e. (name_of e.0, e.1)) t.places.entries; count = t.count } };
}

/// Inserts a copy of a name with its place, unless the name is already there.
fn keep_first(
    alloc: Global,
    places: &mut IndexMap<OwnedNameKey<'static>, u32, NameHash>,
    name: &[u8],
    place: u32,
) -> Result<(), AllocError>
    ensures ok { OnOk result ((other : List ℕ) → get_by (λ k. bytes_eq other (name_of k)) places.new
        ≡ option_or (get_by (λ k. bytes_eq other (name_of k)) places.old)
        (if bytes_eq name.now other then Some place else None)) }
    ensures err { OnErr result (IsUnchanged places.old places.new) }
{
    if places.get(&OwnedNameKey::Asked(name)).is_none() {
        let key = OwnedNameKey::Owned(Name::from_slice(alloc, name)?);
        places.insert(key, place)?;
    }
    Ok(())
}

impl OwnedNameTable {
    /// Returns the table of no items. It takes no memory.
    pub fn new(alloc: Global) -> Self
        ensures empty { IsTableOf result [] }
        ensures count { result.count ≡ 0 }
    {
        OwnedNameTable {
            places: IndexMap::with_hasher(alloc, BuildHasherDefault::new()),
            count: 0,
        }
    }

    /// Adds an item that states this name, or none. After a refusal the table is as before.
    pub fn push(&mut self, alloc: Global, name: Option<&[u8]>) -> Result<(), AllocError>
        requires { self.old.count < 2 ^ 32 - 1 }
        ensures ok { OnOk result ((items : List (Option (List ℕ))) → IsTableOf self.old items →
            IsTableOf self.new (items ++ option_copied name.entry ∷ [])) }
        ensures count { OnOk result (self.new.count ≡ self.old.count + 1) }
        ensures err { OnErr result (self.new ≡ self.old) }
    {
        if let Some(name) = name {
            keep_first(alloc, &mut self.places, name, self.count)?;
        }
        self.count += 1;
        Ok(())
    }

    /// Returns the place of the first item that states this name. It takes no memory.
    pub fn place(&self, name: &[u8]) -> Option<u32>
        ensures { result ≡ place_of self.now name.now }
    {
        self.places.get(&OwnedNameKey::Asked(name)).copied()
    }
}
