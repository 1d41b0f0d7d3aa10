// A file whose sections were tested, with its bytes.

ghost use Rattle.std.specs.Prelude.{◌≡◌, ◌⊎◌, None, Some, IfOk, IfErr, OnOk};
ghost use Rattle.elf_sections.specs.Shape.{shape_fault};

use crate::SectionFault;
use crate::section_table::SectionTable;
use crate::shape::{check_shape, section_table};
use km_names::Blob;
use std::alloc::{AllocError, Global};
use std::marker::Model;

/// A file whose sections passed the tests of [`Sections::read`](crate::Sections::read), without
/// names of their own. Contracts see it as the sections with the bytes.
#[derive(Drop)]
pub struct SectionFile {
    bytes: Blob,
}

impl Model for SectionFile {
    ghost use Rattle.elf_sections.specs.Sections.{FileSections, IsRead, file_sections, sections_of};

    ghost Value = { FileSections };

    ghost view = { λ f. file_sections f.bytes };

    ghost invariant = { λ f. IsRead f.bytes (sections_of f.bytes) };
}

impl SectionFile {
    ghost use Rattle.elf_sections.specs.Sections.{file_sections};

    /// Tests the sections of a file, and keeps its bytes. After a refusal the bytes are dropped.
    ///
    /// # Errors
    ///
    /// The same as for [`SectionTable::read`](crate::SectionTable::read).
    pub fn read(bytes: Blob) -> Result<SectionFile, SectionFault>
        ensures sections { IfOk result (λ file. file ≡ file_sections bytes) }
        ensures passed { OnOk result (shape_fault bytes ≡ None) }
        ensures fault { IfErr result (λ e. (e ≡ SectionFault.Memory)
            ⊎ (shape_fault bytes ≡ Some e)) }
    {
        check_shape(bytes.as_bytes())?;
        Ok(SectionFile { bytes })
    }

    /// Returns the sections with their names in place.
    pub fn table(&self, alloc: Global) -> Result<SectionTable<'_>, AllocError>
        ensures { IfOk result (λ table. table ≡ self.now) }
    {
        section_table(alloc, self.bytes.as_bytes())
    }
}
