// The sections of a file that is read in place.

ghost use Rattle.std.specs.Prelude.{◌≡◌, ◌+◌, ◌<◌, ◌≤◌, ◌⊎◌, length, map, Some, IfErr, IfOk};
ghost use Rattle.std.specs.Prelude.{IfSome, IsTrue, OnOk, slice_get};
ghost use Rattle.std.specs.List.{position};
ghost use Rattle.std.specs.Str.{bytes_eq};
ghost use Rattle.elf_sections.specs.Shape.{contents, has_content, section_count, shape_fault};

use crate::header::section_header;
use crate::shape::{check_shape, contents, section_table};
use crate::{SectionFault, SectionRef};
use km_names::List;
use std::alloc::Global;
use std::marker::Model;

/// The sections of a file, with its bytes, both borrowed. Contracts see both.
#[derive(Drop)]
pub struct SectionTable<'a> {
    pub(crate) bytes: &'a [u8],
    pub(crate) sections: List<SectionRef<'a>>,
}

impl<'a> Model for SectionTable<'a> {
    ghost use Rattle.std.specs.Prelude.{map};
    ghost use Rattle.elf_sections.specs.Sections.{FileSections, IsRead, owned_section};

    ghost Value = { FileSections };

    ghost view = { λ t. record { file = t.bytes.now; list = map owned_section t.sections } };

    ghost invariant = { λ t. IsRead t.bytes.now (map owned_section t.sections) };
}

impl<'a> SectionTable<'a> {
    ghost use Rattle.elf_sections.specs.Sections.{IsRead, bytes_of, entry_size, file_sections};
    ghost use Rattle.elf_sections.specs.Sections.{owned_section, section_of, sections_of};
    ghost use Rattle.elf_format.specs.declared.symbol.TheConstants.{SHN_LORESERVE};

    /// Reads the sections of a file, with their names in place.
    ///
    /// # Errors
    ///
    /// The same as for [`Sections::read`](crate::Sections::read), but the names, which aren't
    /// copied, may have 2^32 bytes together. No file under a megabyte has more.
    pub fn read(alloc: Global, bytes: &'a [u8]) -> Result<SectionTable<'a>, SectionFault>
        ensures sections { IfOk result (λ table. table ≡ file_sections bytes.now) }
        ensures read { OnOk result (IsRead bytes.now (sections_of bytes.now)) }
        ensures fault { IfErr result (λ e. (e ≡ SectionFault.Memory)
            ⊎ (shape_fault bytes.now ≡ Some e)) }
    {
        check_shape(bytes)?;
        Ok(section_table(alloc, bytes)?)
    }

    /// Returns the number of sections.
    pub fn section_count(&self) -> u32
        ensures count { result ≡ length self.now.list }
        ensures header { result ≡ section_count self.now.file }
        ensures some { 0 < result }
        ensures few { result < SHN_LORESERVE }
        ensures read { IsRead self.now.file self.now.list }
    {
        self.sections.len() as u32
    }

    /// Returns the section `i`.
    pub fn section(&self, i: u32) -> SectionRef<'a>
        requires { i < length self.now.list }
        ensures section { slice_get self.now.list i ≡ Some (owned_section result) }
        ensures header { owned_section result ≡ section_of self.now.file i }
        ensures count { section_count self.now.file ≡ length self.now.list }
        ensures within { IsTrue (has_content result.kind) →
            result.offset + result.size ≤ length self.now.file }
    {
        self.sections.as_slice()[i as usize]
    }

    /// Returns the bytes of the section `i` in the file. A section of type NULL or NOBITS has none.
    pub fn section_bytes(&self, i: u32) -> &'a [u8]
        requires { i < length self.now.list }
        ensures bytes { IfSome (slice_get self.now.list i)
            (λ s. result.now ≡ bytes_of self.now.file s) }
        ensures header { result.now ≡ contents self.now.file i }
        ensures short { length result.now ≤ length self.now.file }
    {
        contents(self.bytes, i as u16)
    }

    /// Returns the first section of this name.
    pub fn section_named(&self, name: &[u8]) -> Option<u32>
        ensures first { result ≡ position (λ s. bytes_eq s.name name.now) self.now.list }
        ensures within { IfSome result (λ i. i < length self.now.list) }
    {
        for i in 0..self.section_count() {
            if self.section(i).name == name {
                return Some(i);
            }
        }
        None
    }

    /// Returns the sections, as the file has them.
    pub fn list(&self) -> &[SectionRef<'a>]
        ensures list { map owned_section result.now ≡ self.now.list }
        ensures file { map owned_section result.now ≡ sections_of self.now.file }
    {
        self.sections.as_slice()
    }

    /// Returns the size of an entry of the section `i`, if it is a table. gABI 4, "Sections",
    /// sh_entsize.
    pub fn entry_size(&self, i: u32) -> u64
        requires { i < length self.now.list }
        ensures { result ≡ entry_size self.now.file i }
    {
        section_header(self.bytes, i as u16).entry_size
    }
}
