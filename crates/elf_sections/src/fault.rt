// Faults of the sections of a file.

ghost use Rattle.std.specs.Prelude.{◌≡◌, IfOk};

use km_names::Blob;
use std::alloc::{AllocError, AllocFailed, Global};
use thiserror::Error;

/// Why a file is no object file of x86-64 whose sections can be read.
#[derive(Clone, Copy, Debug, PartialEq, Eq, Error)]
pub enum SectionFault {
    /// The file doesn't begin with ELF's four bytes.
    #[error("not an ELF file")]
    NotElf,
    /// The file ends before the `need` bytes from `offset`.
    #[error("truncated at {offset} need {need}")]
    Truncated { offset: u64, need: u64 },
    /// The file isn't of 64 bits, little-endian and of version 1.
    #[error("wrong class")]
    WrongClass,
    /// The file is for another machine than x86-64.
    #[error("wrong machine")]
    WrongMachine,
    /// The file isn't a relocatable object.
    #[error("not relocatable")]
    NotRelocatable,
    /// The section header table, or its section `index`, is invalid.
    #[error("bad section {index}")]
    BadSection { index: u32 },
    /// No text that ends with a NUL begins at `offset` of the string table.
    #[error("bad string at {offset}")]
    BadString { offset: u64 },
    /// Out of memory.
    #[error("out of memory")]
    Memory,
}

impl From<AllocError> for SectionFault {
    ghost use Rattle.elf_sections.specs.declared.fault.SectionFault.TheVariants.{Memory};

    ghost from_gives = { λ _ fault. fault ≡ Memory };

    fn from(_refusal: AllocError) -> SectionFault {
        SectionFault::Memory
    }
}

impl<T: Drop> From<AllocFailed<T>> for SectionFault {
    ghost use Rattle.elf_sections.specs.declared.fault.SectionFault.TheVariants.{Memory};

    ghost from_gives = { λ _ fault. fault ≡ Memory };

    fn from(_refusal: AllocFailed<T>) -> SectionFault {
        SectionFault::Memory
    }
}

impl SectionFault {
    ghost use Rattle.elf_sections.specs.FaultText.{section_fault_text};

    /// Returns the text of the fault, as it is in a line on standard error.
    pub fn text(&self, alloc: Global) -> Result<Blob, AllocError>
        ensures { IfOk result (λ text. text ≡ section_fault_text self.now) }
    {
        match self {
            SectionFault::NotElf => Blob::from_slice(alloc, b"not an ELF file"),
            SectionFault::Truncated { offset, need } => {
                let text = format!(in alloc; "truncated at {offset} need {need}")?;
                Ok(Blob::from_vec(text.into_bytes()))
            }
            SectionFault::WrongClass => Blob::from_slice(alloc, b"wrong class"),
            SectionFault::WrongMachine => Blob::from_slice(alloc, b"wrong machine"),
            SectionFault::NotRelocatable => Blob::from_slice(alloc, b"not relocatable"),
            SectionFault::BadSection { index } => {
                let text = format!(in alloc; "bad section {index}")?;
                Ok(Blob::from_vec(text.into_bytes()))
            }
            SectionFault::BadString { offset } => {
                let text = format!(in alloc; "bad string at {offset}")?;
                Ok(Blob::from_vec(text.into_bytes()))
            }
            SectionFault::Memory => Blob::from_slice(alloc, b"out of memory"),
        }
    }
}
