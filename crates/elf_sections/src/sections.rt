// The sections of a file, with its bytes.

ghost use Rattle.std.specs.Prelude.{◌≡◌, ◌+◌, ◌<◌, ◌≤◌, ◌⊎◌, length, None, Some, IfOk, IfErr};
ghost use Rattle.std.specs.Prelude.{IfSome, IsTrue, OnOk, slice_get};
ghost use Rattle.std.specs.List.{position};
ghost use Rattle.std.specs.Str.{bytes_eq};
ghost use Rattle.elf_sections.specs.Sections.{IsRead};
ghost use Rattle.elf_sections.specs.Shape.{contents, has_content, section_count, shape_fault};

use crate::section_table::SectionTable;
use crate::shape::{check_shape, contents, owned_sections, section_table};
use crate::{Section, SectionFault};
use km_names::{Blob, List};
use std::alloc::{AllocError, Global};
use std::marker::Model;

/// The sections of an object file, with its bytes. Contracts see both.
#[derive(Debug, Drop)]
pub struct Sections {
    bytes: Blob,
    sections: List<Section>,
}

impl Model for Sections {
    ghost use Rattle.elf_sections.specs.Sections.{FileSections, IsRead};

    ghost Value = { FileSections };

    ghost view = { λ s. record { file = s.bytes; list = s.sections } };

    ghost invariant = { λ s. IsRead s.bytes s.sections };
}

impl Sections {
    ghost use Rattle.elf_sections.specs.Sections.{IsRead, bytes_of, file_sections, section_of};
    ghost use Rattle.elf_sections.specs.Sections.{sections_of};
    ghost use Rattle.elf_format.specs.declared.symbol.TheConstants.{SHN_LORESERVE};

    /// Reads the sections of a file, and keeps its bytes. After a refusal the bytes are dropped.
    ///
    /// # Errors
    ///
    /// The first test of the file that fails, or `Memory`. `Memory` also comes if the names of the
    /// sections together have more than [`NAME_LIMIT`](crate::NAME_LIMIT) bytes.
    pub fn read(alloc: Global, bytes: Blob) -> Result<Sections, SectionFault>
        ensures sections { IfOk result (λ s. s ≡ file_sections bytes) }
        ensures read { OnOk result (IsRead bytes (sections_of bytes)) }
        ensures passed { OnOk result (shape_fault bytes ≡ None) }
        ensures fault { IfErr result (λ e. (e ≡ SectionFault.Memory)
            ⊎ (shape_fault bytes ≡ Some e)) }
    {
        check_shape(bytes.as_bytes())?;
        Ok(Sections::tested(alloc, bytes)?)
    }

    /// Returns the sections of a file that passed the tests of [`Sections::read`], which aren't
    /// made again. After a refusal the bytes are dropped.
    pub fn tested(alloc: Global, bytes: Blob) -> Result<Sections, AllocError>
        requires { IsRead bytes (sections_of bytes) }
        ensures { IfOk result (λ s. s ≡ file_sections bytes) }
    {
        let sections = owned_sections(alloc, bytes.as_bytes())?;
        Ok(Sections { bytes, sections })
    }

    /// Returns the number of sections.
    pub fn section_count(&self) -> u32
        ensures count { result ≡ length self.now.list }
        ensures header { result ≡ section_count self.now.file }
        ensures some { 0 < result }
        ensures few { result < SHN_LORESERVE }
        ensures read { IsRead self.now.file self.now.list }
    {
        self.sections.len() as u32
    }

    /// Returns the section `i`.
    pub fn section(&self, i: u32) -> &Section
        requires { i < length self.now.list }
        ensures section { slice_get self.now.list i ≡ Some result.now }
        ensures header { result.now ≡ section_of self.now.file i }
        ensures count { section_count self.now.file ≡ length self.now.list }
        ensures within { IsTrue (has_content result.now.kind) →
            result.now.offset + result.now.size ≤ length self.now.file }
    {
        &self.sections.as_slice()[i as usize]
    }

    /// Returns the bytes of the section `i` in the file. A section of type NULL or NOBITS has none.
    pub fn section_bytes(&self, i: u32) -> &[u8]
        requires { i < length self.now.list }
        ensures bytes { IfSome (slice_get self.now.list i)
            (λ s. result.now ≡ bytes_of self.now.file s) }
        ensures header { result.now ≡ contents self.now.file i }
        ensures short { length result.now ≤ length self.now.file }
    {
        contents(self.bytes.as_bytes(), i as u16)
    }

    /// Returns the first section of this name.
    pub fn section_named(&self, name: &[u8]) -> Option<u32>
        ensures first { result ≡ position (λ s. bytes_eq s.name name.now) self.now.list }
        ensures within { IfSome result (λ i. i < length self.now.list) }
    {
        for i in 0..self.section_count() {
            if self.section(i).name.as_bytes() == name {
                return Some(i);
            }
        }
        None
    }

    /// Returns the sections with their names in place.
    pub fn table(&self, alloc: Global) -> Result<SectionTable<'_>, AllocError>
        ensures { IfOk result (λ table. table ≡ self.now) }
    {
        section_table(alloc, self.bytes.as_bytes())
    }
}
