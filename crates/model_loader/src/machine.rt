// The machine, and loads into it.

ghost use Rattle.std.specs.Prelude.{◌≡◌, ◌<◌, ◌≤◌, ◌⊎◌, ◌++◌, ◌∷◌, [], ℕ, List, None, Ok, Err};
ghost use Rattle.std.specs.Prelude.{Some, OnOk, OnErr, IfErr, IfOk, find, length, map, option_map};
ghost use Rattle.std.specs.Prelude.{remove, vec_capacity, vec_len, slice_get, option_copied};
ghost use Rattle.std.specs.Option.{option_or};
ghost use Rattle.std.specs.Str.{bytes_eq};
ghost use Rattle.kernel_exports.specs.declared.kernel.Kernel.{Kernel};
ghost use Rattle.module_facts.specs.declared.module.Module.{Module};
ghost use Rattle.export_table.specs.Exports.{kernel_fault};
ghost use Rattle.export_table.specs.Standing.{standing_in, standing_of, table_room};
ghost use Rattle.model_loader.specs.Machine.{new_machine};
ghost use Rattle.model_loader.specs.Sound.{IsSound};
ghost use Rattle.model_loader.specs.Use.{AreUses, IsUnused, binds, without};
ghost use Rattle.model_loader.specs.Step.{module_base, module_size, step};

use crate::entry::{Entry, LoadedModule};
use crate::prepare::{Prepared, ready};
use crate::uses::{all_bound_places, binds_to, places_of};
use crate::{LoadFault, MachineFault, Region};
use export_table::{ExportTable, kernel_table};
use module_facts::Module;
use provider_rel::Kernel;
use std::alloc::{AllocError, Global};
use std::marker::Model;

/// A machine that modules are loaded into: a kernel's table with an address for each export, a
/// region for modules, and the loaded modules, oldest first. Contracts see these three.
#[derive(Drop)]
pub struct Machine {
    kernel: Kernel,
    region: Region,
    entries: Vec<Entry>,
    table: ExportTable,
    alloc: Global,
}

impl Model for Machine {
    ghost use Rattle.model_loader.specs.Machine.{Machine};
    ghost use Rattle.model_loader.specs.Kept.{IsKept};

    ghost Value = { Machine };

    ghost view = { λ m. record
        { kernel = m.kernel; region = m.region; entries = m.entries.items } };

    ghost invariant = { λ m. IsKept
        (record { kernel = m.kernel; region = m.region; entries = m.entries.items }) m.table };
}

/// The place of a loaded module.
#[derive(Clone, Copy, Debug, PartialEq, Eq)]
pub struct LoadedAt {
    /// The address of the first byte of its image.
    pub base: u64,
    /// The size of the image in bytes.
    pub size: u64,
}

/// Enters what was prepared for a module. Its memory is reserved, so this takes none.
fn enter(entries: &mut Vec<Entry>, table: &mut ExportTable, prepared: Prepared)
    requires entries { vec_len entries.old < vec_capacity entries.old }
    requires names { length prepared.named.items ≤ table_room table.old }
    ensures entries { entries.new.items ≡ entries.old.items ++ prepared.entry ∷ [] }
    ensures table { (x : List ℕ)
        → standing_of table.new x
        ≡ option_or (standing_of table.old x) (standing_in x prepared.named.items) }
{
    let Prepared { entry, named } = prepared;
    table.enter_all(named);
    let _ = entries.push(entry);
}

impl Machine {
    /// Returns the machine of a kernel, with no modules.
    ///
    /// # Errors
    ///
    /// `KernelWithoutAddress` with the first export without an address, if there is one, or
    /// `Memory`.
    pub fn new(alloc: Global, kernel: Kernel, region: Region) -> Result<Machine, MachineFault>
        ensures machine { IfOk result (λ m. m ≡ new_machine kernel region) }
        ensures passed { OnOk result (kernel_fault kernel.exports ≡ None) }
        ensures fault { IfErr result
            (λ e. (e ≡ MachineFault.Memory) ⊎ (kernel_fault kernel.exports ≡ Some e)) }
    {
        let table = kernel_table(alloc, &kernel)?;
        Ok(Machine {
            kernel,
            region,
            entries: Vec::new(alloc),
            table,
            alloc,
        })
    }

    /// Loads a module at the lowest gap of the region, with its needs bound and its words
    /// relocated. Whatever takes memory is done before the first change. After a refusal the
    /// machine is as before.
    ///
    /// # Errors
    ///
    /// The fault of the first of the eight tests that fails, or `Memory`.
    pub fn load(&mut self, module: &Module) -> Result<LoadedAt, LoadFault>
        ensures step { OnOk result (step self.old «module».now ≡ Ok self.new) }
        ensures at { IfOk result
            (λ at. at
            ≡ record
            { base = module_base self.old «module».now; size = module_size «module».now }) }
        ensures fault { IfErr result
            (λ e. (e ≡ LoadFault.Memory) ⊎ (step self.old «module».now ≡ Err e)) }
        ensures unchanged { OnErr result (self.new ≡ self.old) }
        ensures sound { OnOk result
            ((modules : List Module) → IsSound self.old modules
            → IsSound self.new (modules ++ «module».now ∷ [])) }
    {
        self.entries.reserve(1)?;
        self.table.reserve(module.facts.exports.as_slice().len())?;
        let prepared = ready(self.alloc, &self.region, &self.entries, &self.table, module)?;
        let at = LoadedAt {
            base: prepared.entry.loaded.base,
            size: prepared.entry.loaded.size,
        };
        enter(&mut self.entries, &mut self.table, prepared);
        Ok(at)
    }

    /// Returns whether the `k`-th loaded module binds to the `j`-th. It does if it was loaded
    /// later, and the other exports one of its needs with an export that it sees. Each need is
    /// looked up at most once.
    pub fn binds(&self, k: usize, j: usize) -> bool
        requires user { k < length self.now.entries }
        requires other { j < length self.now.entries }
        ensures { result ≡ binds self.now k j }
    {
        binds_to(&self.table, &self.entries[k], k, &self.entries[j], j)
    }

    /// Returns for each module, oldest first, the places of the modules that it binds to. Each need
    /// is looked up once.
    pub fn uses(&self, alloc: Global) -> Result<Vec<Vec<usize>>, AllocError>
        ensures { IfOk result (λ v. AreUses self.now (map (λ u. u.items) v.items)) }
    {
        let places = places_of(alloc, &self.entries)?;
        all_bound_places(alloc, &self.table, &places, &self.entries)
    }

    /// Removes the `j`-th loaded module. No other module binds to it. All others stay as they are,
    /// and a sound machine stays sound. It takes no memory.
    pub fn drop_entry(&mut self, j: usize)
        requires inside { j < length self.old.entries }
        requires unused { IsUnused self.old j }
        ensures machine { self.new ≡ without self.old j }
        ensures sound { (modules : List Module) → IsSound self.old modules
            → IsSound self.new (remove modules j) }
    {
        let dropped = self.entries.remove(j);
        self.table.forget_all(dropped.exports.as_slice());
    }

    /// Returns the image of the loaded module of this name.
    pub fn image(&self, name: &[u8]) -> Option<&[u8]>
        ensures { option_copied result
            ≡ option_map (λ e. e.image)
            (find (λ e. bytes_eq e.loaded.name name.now) self.now.entries) }
    {
        for entry in &self.entries {
            if entry.loaded.name.as_bytes() == name {
                return Some(entry.image.as_bytes());
            }
        }
        None
    }

    /// Returns the number of loaded modules.
    pub fn module_count(&self) -> usize
        ensures { result ≡ length self.now.entries }
    {
        self.entries.len()
    }

    /// Returns the `i`-th loaded module, counted from 0, the oldest first.
    pub fn module_at(&self, i: usize) -> &LoadedModule
        requires { i < length self.now.entries }
        ensures { option_map (λ e. e.loaded) (slice_get self.now.entries i) ≡ Some result.now }
    {
        &self.entries[i].loaded
    }

    /// Returns the image of the `i`-th loaded module, counted from 0, the oldest first.
    pub fn image_at(&self, i: usize) -> &[u8]
        requires { i < length self.now.entries }
        ensures { option_map (λ e. e.image) (slice_get self.now.entries i) ≡ Some result.now }
    {
        self.entries[i].image.as_bytes()
    }
}
