// A whole object file.

ghost use Rattle.std.specs.Prelude.{◌≡◌, ◌<◌, ◌≤◌, ◌⊎◌, length, None, Some, IfOk, IfErr, IfSome};
ghost use Rattle.std.specs.Prelude.{OnOk, slice_get};
ghost use Rattle.std.specs.List.{position};
ghost use Rattle.std.specs.Str.{bytes_eq};
ghost use Rattle.km_names.specs.Limit.{file_limit};
ghost use Rattle.elf_object.specs.Object.{IsLoadable, file_object, object_fault};
ghost use Rattle.elf_sections.specs.Sections.{IsRead, sections_of};
ghost use Rattle.elf_object.specs.Symbols.{symbols_of};
ghost use Rattle.elf_object.specs.Places.{places_of};

use crate::parts::read_parts;
use crate::places::read_places;
use crate::symbol::{borrowed_symbols, owned_symbols};
use crate::{ObjectFault, ObjectView, RelaPlace, Symbol};
use elf_sections::{Section, Sections};
use km_names::{Blob, List};
use std::alloc::{AllocError, Global};
use std::marker::Model;

/// The sections, the symbols and the places of an object file, with its bytes. Contracts see all
/// four.
#[derive(Debug, Drop)]
pub struct Object {
    sections: Sections,
    symbols: List<Symbol>,
    places: List<RelaPlace>,
}

impl Model for Object {
    ghost use Rattle.elf_object.specs.Object.{FileObject, IsObject};

    ghost Value = { FileObject };

    ghost view = { λ o. record {
      file = o.sections.file;
      sections = o.sections.list;
      symbols = o.symbols;
      places = o.places;
    } };

    ghost invariant = { λ o. IsObject o.sections o.symbols o.places };
}

/// Reads the symbols and the places of a file, after all tests that it must pass.
fn read_lists(alloc: Global, bytes: &[u8]) -> Result<(List<Symbol>, List<RelaPlace>), ObjectFault>
    requires { length bytes.now ≤ file_limit }
    ensures symbols { IfOk result (λ r. r.0 ≡ symbols_of bytes.now) }
    ensures places { IfOk result (λ r. r.1 ≡ places_of bytes.now) }
    ensures read { OnOk result (IsRead bytes.now (sections_of bytes.now)) }
    ensures loadable { OnOk result (IsLoadable (file_object bytes.now)) }
    ensures passed { OnOk result (object_fault bytes.now ≡ None) }
    ensures fault { IfErr result (λ e. (e ≡ ObjectFault.Memory)
        ⊎ (object_fault bytes.now ≡ Some e)) }
{
    let parts = read_parts(alloc, bytes)?;
    let places = read_places(alloc, &parts.table, &parts.unkept)?;
    Ok((owned_symbols(alloc, parts.symbols.as_slice())?, places))
}

impl Object {
    ghost use Rattle.elf_format.specs.declared.symbol.TheConstants.{SHN_LORESERVE};
    ghost use Rattle.elf_sections.specs.Sections.{bytes_of};
    ghost use Rattle.elf_object.specs.Object.{IsPlaceIn, IsSectionIn, IsSymbolIn};

    /// Reads an object file, and keeps its bytes. After a refusal the bytes are dropped.
    ///
    /// # Errors
    ///
    /// The first test of the file that fails, or `Memory`. `Memory` also comes if the names of the
    /// sections together, or the names of the symbols together, have more than
    /// [`NAME_LIMIT`](crate::NAME_LIMIT) bytes. It also comes if the tables of relocations share
    /// their bytes and together have more than four times as many as a file may have.
    pub fn read(alloc: Global, bytes: Blob) -> Result<Object, ObjectFault>
        requires { length bytes ≤ file_limit }
        ensures object { IfOk result (λ o. o ≡ file_object bytes) }
        ensures loadable { IfOk result IsLoadable }
        ensures passed { OnOk result (object_fault bytes ≡ None) }
        ensures fault { IfErr result (λ e. (e ≡ ObjectFault.Memory)
            ⊎ (object_fault bytes ≡ Some e)) }
    {
        // The lists that reading makes for itself are gone before the sections are kept.
        let (symbols, places) = read_lists(alloc, bytes.as_bytes())?;
        let sections = Sections::tested(alloc, bytes)?;
        Ok(Object {
            sections,
            symbols,
            places,
        })
    }

    /// Returns the object with the names of its symbols in place, and without its places.
    pub fn view(&self, alloc: Global) -> Result<ObjectView<'_>, AllocError>
        ensures { IfOk result (λ view. view ≡ self.now) }
    {
        let table = self.sections.table(alloc)?;
        let symbols = borrowed_symbols(alloc, self.symbols.as_slice())?;
        Ok(ObjectView { table, symbols })
    }

    /// Returns the number of sections.
    pub fn section_count(&self) -> u32
        ensures count { result ≡ length self.now.sections }
        ensures some { 0 < result }
        ensures few { result < SHN_LORESERVE }
    {
        self.sections.section_count()
    }

    /// Returns the section `i`.
    pub fn section(&self, i: u32) -> &Section
        requires { i < length self.now.sections }
        ensures section { slice_get self.now.sections i ≡ Some result.now }
        ensures inside { IsSectionIn self.now.file result.now }
    {
        self.sections.section(i)
    }

    /// Returns the bytes of the section `i` in the file. A section of type NULL or NOBITS has none.
    pub fn section_bytes(&self, i: u32) -> &[u8]
        requires { i < length self.now.sections }
        ensures bytes { IfSome (slice_get self.now.sections i)
            (λ s. result.now ≡ bytes_of self.now.file s) }
        ensures short { length result.now ≤ file_limit }
    {
        self.sections.section_bytes(i)
    }

    /// Returns the first section of this name.
    pub fn section_named(&self, name: &[u8]) -> Option<u32>
        ensures first { result ≡ position (λ s. bytes_eq s.name name.now) self.now.sections }
        ensures within { IfSome result (λ i. i < length self.now.sections) }
    {
        self.sections.section_named(name)
    }

    /// Returns the number of symbols, with symbol 0.
    pub fn symbol_count(&self) -> u32
        ensures { result ≡ length self.now.symbols }
    {
        self.symbols.len() as u32
    }

    /// Returns the symbol `i`.
    pub fn symbol(&self, i: u32) -> &Symbol
        requires { i < length self.now.symbols }
        ensures symbol { slice_get self.now.symbols i ≡ Some result.now }
        ensures inside { IsSymbolIn self.now.sections result.now }
    {
        &self.symbols.as_slice()[i as usize]
    }

    /// Returns the number of places.
    pub fn place_count(&self) -> usize
        ensures count { result ≡ length self.now.places }
        ensures loadable { IsLoadable self.now }
    {
        self.places.len()
    }

    /// Returns the place `i`. Places are ordered by relocation section, then by entry, and only
    /// kept targets have any.
    pub fn place(&self, i: usize) -> &RelaPlace
        requires { i < length self.now.places }
        ensures place { slice_get self.now.places i ≡ Some result.now }
        ensures inside { IsPlaceIn self.now.sections self.now.symbols result.now }
    {
        &self.places.as_slice()[i]
    }
}
