ghost use Rattle.std.specs.Prelude.{◌≡◌, ◌<◌, ◌+◌, ◌-◌, ◌^◌, ℕ, List, [], ◌∷◌, ◌++◌, Option};
ghost use Rattle.std.specs.Prelude.{OnOk, OnErr, IfOk, option_copied};
ghost use Rattle.name_table.specs.NameTable.{IsTableOf, place_of};

use crate::first::keep_first;
use crate::key::{NameHash, NameKey};
use indexmap::IndexMap;
use std::alloc::{AllocError, Global};
use std::hash::BuildHasherDefault;
use std::marker::Model;

/// For each of some names the place of the first item that states it. The names are borrowed.
/// Contracts see the names with their places, and the count of items.
#[derive(Drop)]
pub struct NameTable<'a> {
    places: IndexMap<NameKey<'a>, u32, NameHash>,
    count: u32,
}

impl<'a> Model for NameTable<'a> {
    ghost use Rattle.std.specs.Prelude.{map};
    ghost use Rattle.name_table.specs.NameTable.{Table};

    ghost Value = { Table };

    ghost view = { λ t. record
        { entries = map (λ e. (e.0.bytes.now, e.1)) t.places.entries; count = t.count } };
}

impl<'a> NameTable<'a> {
    /// Returns the table of no items. It takes no memory.
    pub fn new(alloc: Global) -> Self
        ensures empty { IsTableOf result [] }
        ensures count { result.count ≡ 0 }
    {
        NameTable {
            places: IndexMap::with_hasher(alloc, BuildHasherDefault::new()),
            count: 0,
        }
    }

    /// Returns the table of no items, with room for this many names.
    pub fn with_capacity(alloc: Global, names: usize) -> Result<Self, AllocError>
        ensures empty { IfOk result (λ table. IsTableOf table []) }
        ensures count { IfOk result (λ table. table.count ≡ 0) }
    {
        Ok(NameTable {
            places: IndexMap::with_capacity_and_hasher(alloc, names, BuildHasherDefault::new())?,
            count: 0,
        })
    }

    /// Adds an item that states this name, or none. After a refusal the table is as before.
    pub fn push(&mut self, name: Option<&'a [u8]>) -> Result<(), AllocError>
        requires { self.old.count < 2 ^ 32 - 1 }
        ensures ok { OnOk result ((items : List (Option (List ℕ))) → IsTableOf self.old items →
            IsTableOf self.new (items ++ option_copied name.entry ∷ [])) }
        ensures count { OnOk result (self.new.count ≡ self.old.count + 1) }
        ensures err { OnErr result (self.new ≡ self.old) }
    {
        if let Some(name) = name {
            keep_first(&mut self.places, NameKey::new(name), self.count)?;
        }
        self.count += 1;
        Ok(())
    }

    /// Returns the place of the first item that states this name.
    pub fn place(&self, name: &[u8]) -> Option<u32>
        ensures { result ≡ place_of self.now name.now }
    {
        self.places.get(&NameKey::new(name)).copied()
    }
}
