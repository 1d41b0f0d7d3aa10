// How often names are seen.

ghost use Rattle.std.specs.Prelude.{◌≡◌, ℕ, List, None, Some, IfOk, OnOk, if◌then◌else◌};
ghost use Rattle.std.specs.Str.{bytes_eq};

use indexmap::IndexMap;
use name_table::{NameHash, NameKey};
use std::alloc::{AllocError, Global};
use std::hash::BuildHasherDefault;

/// How often a name was seen.
#[derive(Clone, Copy)]
pub(crate) enum Times {
    /// The name was seen once.
    Once,
    /// The name was seen more than once.
    More,
}

/// How often some names were seen.
#[derive(Drop)]
pub(crate) struct SeenNames<'a> {
    times: IndexMap<NameKey<'a>, Times, NameHash>,
}

impl<'a> SeenNames<'a> {
    ghost use Rattle.module_facts.specs.Times.{is_repeated, times_seen};

    /// Returns a table that has seen no name, with room for this many.
    pub(crate) fn with_capacity(alloc: Global, names: usize) -> Result<Self, AllocError>
        ensures { IfOk result (λ table. (name : List ℕ) → times_seen table name ≡ None) }
    {
        Ok(SeenNames {
            times: IndexMap::with_capacity_and_hasher(alloc, names, BuildHasherDefault::new())?,
        })
    }

    /// Stores how often a name was seen.
    pub(crate) fn put(&mut self, name: &'a [u8], times: Times) -> Result<(), AllocError>
        ensures { OnOk result ((other : List ℕ) → times_seen self.new other
            ≡ (if bytes_eq name.now other then Some times else times_seen self.old other)) }
    {
        self.times.insert(NameKey::new(name), times)?;
        Ok(())
    }

    /// Returns how often a name was seen, if it was seen.
    pub(crate) fn get(&self, name: &[u8]) -> Option<Times>
        ensures { result ≡ times_seen self.now name.now }
    {
        self.times.get(&NameKey::new(name)).copied()
    }

    /// Returns whether a name was seen more than once.
    pub(crate) fn is_repeated(&self, name: &[u8]) -> bool
        ensures { result ≡ is_repeated (times_seen self.now name.now) }
    {
        match self.get(name) {
            Some(Times::More) => true,
            Some(Times::Once) | None => false,
        }
    }
}
