ghost use Rattle.std.specs.Prelude.{◌≡◌, ◌++◌, ◌∷◌, ◌||◌, ℕ, List, [], length, OnOk, OnErr};
ghost use Rattle.std.specs.Prelude.{slice_get, option_map};
ghost use Rattle.std.specs.Str.{bytes_eq};
ghost use Rattle.name_table.specs.FirstSeen.{first_seen, is_among, with_name};

use crate::key::{NameHash, NameKey};
use indexmap::IndexSet;
use std::alloc::{AllocError, Global};
use std::hash::BuildHasherDefault;
use std::marker::Model;

/// Names without repeats, in the order they were first inserted in. The names are borrowed.
/// Contracts see the list of names.
#[derive(Drop)]
pub struct NameSet<'a> {
    names: IndexSet<NameKey<'a>, NameHash>,
}

impl<'a> Model for NameSet<'a> {
    ghost use Rattle.std.specs.Prelude.{ℕ, List, map};

    ghost Value = { List (List ℕ) };

    ghost view = { λ s. map (λ key. key.bytes.now) s.names.keys };
}

impl<'a> NameSet<'a> {
    /// Returns the empty set. It takes no memory.
    pub fn new(alloc: Global) -> Self
        ensures { result ≡ [] }
    {
        NameSet {
            names: IndexSet::with_hasher(alloc, BuildHasherDefault::new()),
        }
    }

    /// Inserts a name behind the others, unless it is already there. After a refusal the set is as
    /// before.
    pub fn insert(&mut self, name: &'a [u8]) -> Result<(), AllocError>
        ensures ok { OnOk result (self.new ≡ with_name self.old name.now) }
        ensures seen { OnOk result ((names : List (List ℕ)) → self.old ≡ first_seen names →
            self.new ≡ first_seen (names ++ name.now ∷ [])) }
        ensures among { OnOk result
            ((other : List ℕ)
            → is_among self.new other ≡ (is_among self.old other || bytes_eq other name.now)) }
        ensures err { OnErr result (self.new ≡ self.old) }
    {
        self.names.insert(NameKey::new(name))?;
        Ok(())
    }

    /// Returns whether the name is in the set. Without names no hash is computed.
    pub fn contains(&self, name: &[u8]) -> bool
        ensures { result ≡ is_among self.now name.now }
    {
        if self.names.is_empty() {
            return false;
        }
        self.names.contains(&NameKey::new(name))
    }

    /// Returns the name at a place, from 0.
    pub fn get(&self, place: usize) -> Option<&'a [u8]>
        ensures { option_map (λ name. name.now) result ≡ slice_get self.now place }
    {
        let key = self.names.get_index(place)?;
        Some(key.bytes)
    }

    /// Returns the number of names.
    pub fn len(&self) -> usize
        ensures { result ≡ length self.now }
    {
        self.names.len()
    }
}
