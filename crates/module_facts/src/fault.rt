// Faults of a module.

ghost use Rattle.std.specs.Prelude.{◌≡◌, ◌++◌, codes, IfOk};

use bstr::BStr;
use elf_object::ObjectFault;
use km_names::{Blob, Name};
use std::alloc::{AllocError, AllocFailed, Global};
use thiserror::Error;

/// Why a file isn't accepted as a kernel module.
#[derive(Debug, Drop, Error)]
pub enum ModuleFault {
    /// Its path is of a compressed module.
    #[error("compressed")]
    Compressed,
    /// It is no object file that can be read. Never out of memory.
    #[error("{0}")]
    Object(ObjectFault),
    /// The module's name has over 55 bytes.
    #[error("name too long")]
    NameTooLong,
    /// The name of the module, an export or a need is empty, or has a byte that isn't a visible
    /// character of ASCII.
    #[error("bad name")]
    BadName,
    /// The module exports `name` twice.
    #[error("export {} twice", BStr::new(.name.as_bytes()))]
    ExportTwice { name: Name },
    /// The module exports `name`, and doesn't define it.
    #[error("export {} undefined", BStr::new(.name.as_bytes()))]
    ExportUndefined { name: Name },
    /// The versions of the needs or of the exports are invalid.
    #[error("bad versions")]
    BadVersions,
    /// The symbol for the namespace of the export `name` gives none.
    #[error("bad namespace of {}", BStr::new(.name.as_bytes()))]
    BadNamespace { name: Name },
    /// Out of memory.
    #[error("out of memory")]
    Memory,
}

impl From<AllocError> for ModuleFault {
    ghost use Rattle.module_facts.specs.declared.fault.ModuleFault.TheVariants.{Memory};

    ghost from_gives = { λ _ fault. fault ≡ Memory };

    fn from(_refusal: AllocError) -> ModuleFault {
        ModuleFault::Memory
    }
}

impl<T: Drop> From<AllocFailed<T>> for ModuleFault {
    ghost use Rattle.module_facts.specs.declared.fault.ModuleFault.TheVariants.{Memory};

    ghost from_gives = { λ _ fault. fault ≡ Memory };

    fn from(_refusal: AllocFailed<T>) -> ModuleFault {
        ModuleFault::Memory
    }
}

impl From<ObjectFault> for ModuleFault {
    ghost use Rattle.module_facts.specs.FaultText.{module_fault_from};

    ghost from_gives = { λ object fault. fault ≡ module_fault_from object };

    fn from(fault: ObjectFault) -> ModuleFault {
        match fault {
            ObjectFault::Memory => ModuleFault::Memory,
            ObjectFault::Shape(_)
            | ObjectFault::RelSection { .. }
            | ObjectFault::BadTable { .. }
            | ObjectFault::ExtendedIndex { .. }
            | ObjectFault::CommonSymbol { .. }
            | ObjectFault::BadSymbol { .. }
            | ObjectFault::BadAlign { .. }
            | ObjectFault::BadRela { .. }
            | ObjectFault::UnknownType { .. }
            | ObjectFault::OverlappingPlaces { .. } => ModuleFault::Object(fault),
        }
    }
}

impl ModuleFault {
    ghost use Rattle.module_facts.specs.FaultText.{module_fault_text};

    /// Returns the text of the fault, as it is in a line on standard error.
    pub fn text(&self, alloc: Global) -> Result<Blob, AllocError>
        ensures { IfOk result (λ text. text ≡ module_fault_text self.now) }
    {
        match self {
            ModuleFault::Compressed => Blob::from_slice(alloc, b"compressed"),
            ModuleFault::Object(fault) => fault.text(alloc),
            ModuleFault::NameTooLong => Blob::from_slice(alloc, b"name too long"),
            ModuleFault::BadName => Blob::from_slice(alloc, b"bad name"),
            ModuleFault::ExportTwice { name } => export_text(alloc, name, b" twice"),
            ModuleFault::ExportUndefined { name } => export_text(alloc, name, b" undefined"),
            ModuleFault::BadVersions => Blob::from_slice(alloc, b"bad versions"),
            ModuleFault::BadNamespace { name } => {
                Blob::concat(alloc, &[b"bad namespace of ", name.as_bytes()])
            }
            ModuleFault::Memory => Blob::from_slice(alloc, b"out of memory"),
        }
    }
}

/// Returns the text of a fault of an export, which ends in `how`.
fn export_text(alloc: Global, name: &Name, how: &[u8]) -> Result<Blob, AllocError>
    ensures { IfOk result (λ text. text ≡ codes "export " ++ name.now ++ how.now) }
{
    Blob::concat(alloc, &[b"export ", name.as_bytes(), how])
}
