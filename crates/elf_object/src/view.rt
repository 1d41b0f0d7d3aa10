// An object file whose names stay in place.

ghost use Rattle.std.specs.Prelude.{◌≡◌, ◌<◌, ◌≤◌, ◌⊎◌, length, map, None, Some, IfOk, IfErr};
ghost use Rattle.std.specs.Prelude.{IfSome, OnOk, slice_get};
ghost use Rattle.std.specs.List.{position};
ghost use Rattle.std.specs.Str.{bytes_eq};
ghost use Rattle.km_names.specs.Limit.{file_limit};

use crate::parts::{FileParts, read_parts};
use crate::places::check_places;
use crate::{ObjectFault, SymbolRef};
use elf_sections::{SectionRef, SectionTable};
use km_names::List;
use std::alloc::Global;
use std::marker::Model;

/// An object file as its sections and symbols show it, for readers that don't load it: names are
/// borrowed, and its places were tested and aren't kept. Contracts see the whole object, as for
/// [`Object`](crate::Object).
#[derive(Drop)]
pub struct ObjectView<'a> {
    pub(crate) table: SectionTable<'a>,
    pub(crate) symbols: List<SymbolRef<'a>>,
}

impl<'a> Model for ObjectView<'a> {
    ghost use Rattle.std.specs.Prelude.{map};
    ghost use Rattle.elf_object.specs.Object.{FileObject, IsObject};
    ghost use Rattle.elf_object.specs.Places.{places_of};
    ghost use Rattle.elf_object.specs.Symbols.{owned_symbol};

    ghost Value = { FileObject };

    ghost view = { λ v. record {
      file = v.table.file;
      sections = v.table.list;
      symbols = map owned_symbol v.symbols;
      places = places_of v.table.file;
    } };

    ghost invariant = { λ v. IsObject v.table (map owned_symbol v.symbols)
        (places_of v.table.file) };
}

impl<'a> ObjectView<'a> {
    ghost use Rattle.elf_format.specs.declared.symbol.TheConstants.{SHN_LORESERVE};
    ghost use Rattle.elf_sections.specs.Sections.{bytes_of, owned_section};
    ghost use Rattle.elf_object.specs.Symbols.{owned_symbol};
    ghost use Rattle.elf_object.specs.Object.{IsSectionIn, IsSymbolIn, file_object, object_fault};

    /// Tests an object file, with all tests of [`Object::read`](crate::Object::read).
    ///
    /// # Errors
    ///
    /// The same as for [`Object::read`](crate::Object::read), but its limits are others: 2^32 bytes
    /// of names of sections, 2^34 of names of symbols, and 2^33 of tables of relocations. No file
    /// under a megabyte has more.
    pub fn read(alloc: Global, bytes: &'a [u8]) -> Result<ObjectView<'a>, ObjectFault>
        requires { length bytes.now ≤ file_limit }
        ensures object { IfOk result (λ v. v ≡ file_object bytes.now) }
        ensures passed { OnOk result (object_fault bytes.now ≡ None) }
        ensures fault { IfErr result (λ e. (e ≡ ObjectFault.Memory)
            ⊎ (object_fault bytes.now ≡ Some e)) }
    {
        let parts = read_parts(alloc, bytes)?;
        check_places(alloc, &parts.table, &parts.unkept)?;
        let FileParts { table, symbols, .. } = parts;
        Ok(ObjectView { table, symbols })
    }

    /// Returns the number of sections.
    pub fn section_count(&self) -> u32
        ensures count { result ≡ length self.now.sections }
        ensures some { 0 < result }
        ensures few { result < SHN_LORESERVE }
    {
        self.table.section_count()
    }

    /// Returns the section `i`.
    pub fn section(&self, i: u32) -> SectionRef<'a>
        requires { i < length self.now.sections }
        ensures section { slice_get self.now.sections i ≡ Some (owned_section result) }
        ensures inside { IsSectionIn self.now.file (owned_section result) }
    {
        self.table.section(i)
    }

    /// Returns the bytes of the section `i` in the file. A section of type NULL or NOBITS has none.
    pub fn section_bytes(&self, i: u32) -> &'a [u8]
        requires { i < length self.now.sections }
        ensures bytes { IfSome (slice_get self.now.sections i)
            (λ s. result.now ≡ bytes_of self.now.file s) }
        ensures short { length result.now ≤ file_limit }
    {
        self.table.section_bytes(i)
    }

    /// Returns the first section of this name.
    pub fn section_named(&self, name: &[u8]) -> Option<u32>
        ensures first { result ≡ position (λ s. bytes_eq s.name name.now) self.now.sections }
        ensures within { IfSome result (λ i. i < length self.now.sections) }
    {
        self.table.section_named(name)
    }

    /// Returns the number of symbols, with symbol 0.
    pub fn symbol_count(&self) -> u32
        ensures { result ≡ length self.now.symbols }
    {
        self.symbols.len() as u32
    }

    /// Returns the symbol `i`.
    pub fn symbol(&self, i: u32) -> SymbolRef<'a>
        requires { i < length self.now.symbols }
        ensures symbol { slice_get self.now.symbols i ≡ Some (owned_symbol result) }
        ensures inside { IsSymbolIn self.now.sections (owned_symbol result) }
    {
        self.symbols.as_slice()[i as usize]
    }
}
