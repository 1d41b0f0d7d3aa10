// Faults of an object file.

ghost use Rattle.std.specs.Prelude.{◌≡◌, IfOk};

use elf_sections::SectionFault;
use km_names::Blob;
use std::alloc::{AllocError, AllocFailed, Global};
use thiserror::Error;

/// Why a file is no object file of x86-64 whose symbols and relocations can be read.
#[derive(Clone, Copy, Debug, PartialEq, Eq, Error)]
pub enum ObjectFault {
    /// Its sections can't be read. Never out of memory.
    #[error("{0}")]
    Shape(SectionFault),
    /// The section `index` holds relocations without addends.
    #[error("relocations without addends in section {index}")]
    RelSection { index: u32 },
    /// The section `index` isn't a valid table of symbols or of relocations, as its type says.
    #[error("bad table in section {index}")]
    BadTable { index: u32 },
    /// The section number of the symbol `index` is elsewhere (SHN_XINDEX).
    #[error("extended index at symbol {index}")]
    ExtendedIndex { index: u32 },
    /// The symbol `index` is a common symbol (SHN_COMMON).
    #[error("common symbol {index}")]
    CommonSymbol { index: u32 },
    /// The symbol `index` is invalid.
    #[error("bad symbol {index}")]
    BadSymbol { index: u32 },
    /// The alignment of the section `index` is no power of two, or over a page.
    #[error("bad alignment of section {index}")]
    BadAlign { index: u32 },
    /// The relocation `entry` of the section `section` is invalid.
    #[error("bad relocation {section} {entry}")]
    BadRela { section: u32, entry: u32 },
    /// The relocation `entry` of the section `section` is of the unknown type `kind`.
    #[error("unknown relocation {section} {entry} {kind}")]
    UnknownType { section: u32, entry: u32, kind: u32 },
    /// Two relocations change the byte at `offset` of the section `section`.
    #[error("overlapping places in section {section} at {offset}")]
    OverlappingPlaces { section: u32, offset: u64 },
    /// Out of memory.
    #[error("out of memory")]
    Memory,
}

impl From<AllocError> for ObjectFault {
    ghost use Rattle.elf_object.specs.declared.fault.ObjectFault.TheVariants.{Memory};

    ghost from_gives = { λ _ fault. fault ≡ Memory };

    fn from(_refusal: AllocError) -> ObjectFault {
        ObjectFault::Memory
    }
}

impl<T: Drop> From<AllocFailed<T>> for ObjectFault {
    ghost use Rattle.elf_object.specs.declared.fault.ObjectFault.TheVariants.{Memory};

    ghost from_gives = { λ _ fault. fault ≡ Memory };

    fn from(_refusal: AllocFailed<T>) -> ObjectFault {
        ObjectFault::Memory
    }
}

impl From<SectionFault> for ObjectFault {
    ghost use Rattle.elf_object.specs.FaultText.{object_fault_from};

    ghost from_gives = { λ shape fault. fault ≡ object_fault_from shape };

    fn from(fault: SectionFault) -> ObjectFault {
        match fault {
            SectionFault::Memory => ObjectFault::Memory,
            SectionFault::NotElf
            | SectionFault::Truncated { .. }
            | SectionFault::WrongClass
            | SectionFault::WrongMachine
            | SectionFault::NotRelocatable
            | SectionFault::BadSection { .. }
            | SectionFault::BadString { .. } => ObjectFault::Shape(fault),
        }
    }
}

impl ObjectFault {
    ghost use Rattle.elf_object.specs.FaultText.{object_fault_text};

    /// Returns the text of the fault, as it is in a line on standard error.
    pub fn text(&self, alloc: Global) -> Result<Blob, AllocError>
        ensures { IfOk result (λ text. text ≡ object_fault_text self.now) }
    {
        let text = match self {
            ObjectFault::Shape(fault) => return fault.text(alloc),
            ObjectFault::Memory => return Blob::from_slice(alloc, b"out of memory"),
            ObjectFault::RelSection { index } => {
                format!(in alloc; "relocations without addends in section {index}")?
            }
            ObjectFault::BadTable { index } => format!(in alloc; "bad table in section {index}")?,
            ObjectFault::ExtendedIndex { index } => {
                format!(in alloc; "extended index at symbol {index}")?
            }
            ObjectFault::CommonSymbol { index } => format!(in alloc; "common symbol {index}")?,
            ObjectFault::BadSymbol { index } => format!(in alloc; "bad symbol {index}")?,
            ObjectFault::BadAlign { index } => {
                format!(in alloc; "bad alignment of section {index}")?
            }
            ObjectFault::BadRela { section, entry } => {
                format!(in alloc; "bad relocation {section} {entry}")?
            }
            ObjectFault::UnknownType {
                section,
                entry,
                kind,
            } => format!(in alloc; "unknown relocation {section} {entry} {kind}")?,
            ObjectFault::OverlappingPlaces { section, offset } => {
                format!(in alloc; "overlapping places in section {section} at {offset}")?
            }
        };
        Ok(Blob::from_vec(text.into_bytes()))
    }
}
