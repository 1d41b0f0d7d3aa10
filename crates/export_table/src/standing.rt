// The table of exported names.

ghost use Rattle.std.specs.Prelude.{◌≡◌, ◌≤◌, ◌<◌, ◌+◌, ℕ, List, None, Some, OnOk, is_some};
ghost use Rattle.std.specs.Prelude.{option_copied, length, if◌then◌else◌};
ghost use Rattle.std.specs.Option.{option_or};
ghost use Rattle.std.specs.Str.{bytes_eq};
ghost use Rattle.export_table.specs.Exports.{export_named};
ghost use Rattle.export_table.specs.Standing.{standing_in, standing_of, table_room};

use crate::placed::PlacedExport;
use indexmap::IndexMap;
use km_names::Name;
use name_table::NameHash;
use std::alloc::{AllocError, Global};
use std::collections::VecDeque;
use std::hash::BuildHasherDefault;

/// What the table keeps of an exported name: the export, and its owner, which is a module by its
/// name or the kernel.
#[derive(Drop)]
pub struct Standing {
    /// The version of the export, if it has one.
    pub crc: Option<u64>,
    /// Whether only GPL-compatible modules may use it.
    pub gpl: bool,
    /// Its namespace, empty if it has none.
    pub space: Name,
    /// Its address.
    pub address: u64,
    /// The name of the module that exports it; none if the kernel does.
    pub owner: Option<Name>,
}

/// A name with what is kept of it.
#[derive(Drop)]
pub struct Named {
    /// The exported name.
    pub name: Vec<u8>,
    /// What is kept of it.
    pub standing: Standing,
}

/// The table of what is kept of each exported name.
#[derive(Drop)]
pub struct ExportTable {
    standings: IndexMap<Vec<u8>, Standing, NameHash>,
}

impl ExportTable {
    /// Returns an empty table.
    pub fn new(alloc: Global) -> Self
        ensures { (x : List ℕ) → standing_of result x ≡ None }
    {
        ExportTable {
            standings: IndexMap::with_hasher(alloc, BuildHasherDefault::new()),
        }
    }

    /// Returns what is kept of a name.
    pub fn get(&self, name: &[u8]) -> Option<&Standing>
        ensures { option_copied result ≡ standing_of self.now name.now }
    {
        self.standings.get(name)
    }

    /// Reserves memory for `count` more names. No name is changed.
    pub fn reserve(&mut self, count: usize) -> Result<(), AllocError>
        ensures same { (x : List ℕ) → standing_of self.new x ≡ standing_of self.old x }
        ensures room { OnOk result (count ≤ table_room self.new) }
    {
        self.standings.reserve(count)
    }

    /// Inserts a name, unless it is present. Its memory is reserved, so this takes none.
    pub fn enter(&mut self, named: Named)
        requires { 0 < table_room self.old }
        ensures at { (x : List ℕ) → standing_of self.new x
            ≡ option_or (standing_of self.old x)
            (if bytes_eq named.name.items x then Some named.standing else None) }
        ensures room { table_room self.old ≤ table_room self.new + 1 }
    {
        let Named { name, standing } = named;
        if self.standings.get(name.as_slice()).is_none() {
            let _ = self.standings.insert(name, standing);
        }
    }

    /// Inserts names, each unless it is present. Their memory is reserved, so this takes none.
    pub fn enter_all(&mut self, named: VecDeque<Named>)
        requires { length named.items ≤ table_room self.old }
        ensures { (x : List ℕ)
            → standing_of self.new x
            ≡ option_or (standing_of self.old x) (standing_in x named.items) }
    {
        let mut rest = named;
        while let Some(next) = rest.pop_front() {
            self.enter(next);
        }
    }

    /// Removes a name, if present. It takes no memory.
    pub fn forget(&mut self, name: &[u8])
        ensures { (x : List ℕ)
            → standing_of self.new x
            ≡ (if bytes_eq name.now x then None else standing_of self.old x) }
    {
        let _ = self.standings.swap_remove(name);
    }

    /// Removes the names of exports, each if present. It takes no memory.
    pub fn forget_all(&mut self, exports: &[PlacedExport])
        ensures { (x : List ℕ) → standing_of self.new x
            ≡ (if is_some (export_named x exports.now) then None else standing_of self.old x) }
    {
        for export in exports {
            self.forget(export.name.as_bytes());
        }
    }
}
