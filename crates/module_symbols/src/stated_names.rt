// The names that symbols state in a role, each with the first symbol that states it.

ghost use Rattle.std.specs.Prelude.{◌≡◌, ◌<◌, ◌+◌, ◌-◌, ◌^◌, nat_eq, ℕ, List, [], ◌∷◌, ◌++◌};
ghost use Rattle.std.specs.Prelude.{Option, OnOk, length, option_copied};
ghost use Rattle.std.specs.Cmp.Lexicographic.{bytes_decides, pointwise, nat_list_eq_equiv};
ghost use Rattle.std.specs.Cmp.{partial_equiv_from_equiv, on_per, on_equiv};
ghost use Rattle.std.proofs.Common.{ap};
ghost use Rattle.name_table.specs.NameTable.{IsTableOf, place_of};
ghost use Rattle.module_symbols.specs.Hashed.{hashed_parts};

use indexmap::IndexMap;
use name_table::{NameHash, keep_first};
use std::alloc::{AllocError, Global};
use std::hash::{BuildHasherDefault, Hash, Hasher};
use std::marker::Model;

/// How many bytes of a name are hashed: all of a shorter one, and half as many from either end of a
/// longer one, with its length. Names of symbols may share their bytes, so a small file can have
/// far more of them than it has bytes.
pub(crate) const HASHED: usize = 4096;

/// A name that a symbol states, as a key of a table.
#[derive(Clone, Copy)]
pub(crate) struct StatedKey<'a> {
    pub(crate) bytes: &'a [u8],
}

impl<'a> StatedKey<'a> {
    /// Returns the key of a name.
    fn new(bytes: &'a [u8]) -> Self
        ensures { result.bytes.now ≡ bytes.now }
    {
        StatedKey { bytes }
    }
}

impl<'a> PartialEq for StatedKey<'a> {
    ghost eq = { λ x y. pointwise nat_eq x.bytes.now y.bytes.now };

    ghost laws = { on_per (λ k. k.bytes.now) (partial_equiv_from_equiv nat_list_eq_equiv) };

    fn eq(&self, other: &Self) -> bool {
        self.bytes == other.bytes
    }
}

impl<'a> Eq for StatedKey<'a> {
    ghost laws = { on_equiv (λ k. k.bytes.now) nat_list_eq_equiv };
}

impl<'a> Hash for StatedKey<'a> {
    ghost hash_input = { λ k. hashed_parts k.bytes.now };

    ghost respects_eq = { λ x y same. ap hashed_parts
        ((bytes_decides x.bytes.now y.bytes.now).0 same) };

    fn hash<H: Hasher>(&self, state: &mut H) {
        let length = self.bytes.len();
        if length <= HASHED {
            state.write(self.bytes);
        } else {
            state.write_usize(length);
            state.write(&self.bytes[..HASHED / 2]);
            state.write(&self.bytes[length - HASHED / 2..]);
        }
    }
}

/// For each name that symbols state in a role the first of them. The names are borrowed. Contracts
/// see the names with their symbols, and the count of symbols.
#[derive(Drop)]
pub(crate) struct StatedNames<'a> {
    places: IndexMap<StatedKey<'a>, u32, NameHash>,
    count: u32,
}

impl<'a> Model for StatedNames<'a> {
    ghost use Rattle.std.specs.Prelude.{map};
    ghost use Rattle.name_table.specs.NameTable.{Table};

    ghost Value = { Table };

    ghost view = { λ t. record
        { entries = map (λ e. (e.0.bytes.now, e.1)) t.places.entries; count = t.count } };
}

impl<'a> StatedNames<'a> {
    /// Returns the table of no symbols.
    pub(crate) fn new(alloc: Global) -> Self
        ensures empty { IsTableOf result [] }
        ensures count { result.count ≡ 0 }
    {
        StatedNames {
            places: IndexMap::with_hasher(alloc, BuildHasherDefault::new()),
            count: 0,
        }
    }

    /// Adds a symbol that states this name, or none.
    pub(crate) fn push(&mut self, name: Option<&'a [u8]>) -> Result<(), AllocError>
        requires { self.old.count < 2 ^ 32 - 1 }
        ensures ok { OnOk result ((items : List (Option (List ℕ))) → IsTableOf self.old items →
            IsTableOf self.new (items ++ option_copied name.entry ∷ [])) }
        ensures count { OnOk result (self.new.count ≡ self.old.count + 1) }
    {
        if let Some(name) = name {
            keep_first(&mut self.places, StatedKey::new(name), self.count)?;
        }
        self.count += 1;
        Ok(())
    }

    /// Returns how many names there are, each counted once.
    pub(crate) fn len(&self) -> usize
        ensures { result ≡ length self.now.entries }
    {
        self.places.len()
    }

    /// Returns the number of the first symbol that states this name.
    pub(crate) fn place(&self, name: &[u8]) -> Option<u32>
        ensures { result ≡ place_of self.now name.now }
    {
        self.places.get(&StatedKey::new(name)).copied()
    }
}
