// Why a machine isn't made, and why it refuses a module.

ghost use Rattle.std.specs.Prelude.{◌≡◌, ◌++◌, codes, IfOk};
ghost use Rattle.std.specs.Fmt.{decimal};

use bstr::BStr;
use image_layout::LayFault;
use km_names::{Blob, Name};
use std::alloc::{AllocError, AllocFailed, Global};
use thiserror::Error;

/// Why a machine isn't made.
#[derive(Debug, Drop, Error)]
pub enum MachineFault {
    /// The kernel's export `name` has no address.
    #[error("kernel without address {}", BStr::new(.name.as_bytes()))]
    KernelWithoutAddress { name: Name },
    /// Out of memory.
    #[error("out of memory")]
    Memory,
}

/// Why a machine refuses a module.
#[derive(Debug, Drop, Error)]
pub enum LoadFault {
    /// A module of this name is loaded.
    #[error("already loaded")]
    AlreadyLoaded,
    /// Nobody exports the strong need `name`.
    #[error("missing symbol {}", BStr::new(.name.as_bytes()))]
    MissingSymbol { name: Name },
    /// The strong need `name` is exported only for GPL-compatible modules, and the module isn't
    /// one.
    #[error("{} is GPL-only", BStr::new(.name.as_bytes()))]
    GplOnly { name: Name },
    /// The need `name` is exported in another version.
    #[error("version of {} differs", BStr::new(.name.as_bytes()))]
    VersionDiffers { name: Name },
    /// The need `name` is exported in a namespace that the module doesn't import.
    #[error("namespace of {} not imported", BStr::new(.name.as_bytes()))]
    NotImported { name: Name },
    /// The module exports `name`, as the kernel (`vmlinux`) or a loaded module, the `owner`, does.
    #[error("{} is taken by {}", BStr::new(.name.as_bytes()), BStr::new(.owner.as_bytes()))]
    ExportTaken { name: Name, owner: Name },
    /// No gap of the region has so many pages. A number above 2^64 - 1 is given as 2^64 - 1.
    #[error("region full, {pages} pages")]
    RegionFull { pages: u64 },
    /// The word of the relocation `entry` of the section `section` doesn't fit.
    #[error("overflow at section {section} entry {entry}")]
    Overflow { section: u32, entry: u32 },
    /// Out of memory.
    #[error("out of memory")]
    Memory,
}

impl From<AllocError> for MachineFault {
    ghost use Rattle.load_fault.specs.declared.fault.MachineFault.TheVariants.{Memory};

    ghost from_gives = { λ _ fault. fault ≡ Memory };

    fn from(_refusal: AllocError) -> MachineFault {
        MachineFault::Memory
    }
}

impl<T: Drop> From<AllocFailed<T>> for MachineFault {
    ghost use Rattle.load_fault.specs.declared.fault.MachineFault.TheVariants.{Memory};

    ghost from_gives = { λ _ fault. fault ≡ Memory };

    fn from(_refusal: AllocFailed<T>) -> MachineFault {
        MachineFault::Memory
    }
}

impl From<AllocError> for LoadFault {
    ghost use Rattle.load_fault.specs.declared.fault.LoadFault.TheVariants.{Memory};

    ghost from_gives = { λ _ fault. fault ≡ Memory };

    fn from(_refusal: AllocError) -> LoadFault {
        LoadFault::Memory
    }
}

impl<T: Drop> From<AllocFailed<T>> for LoadFault {
    ghost use Rattle.load_fault.specs.declared.fault.LoadFault.TheVariants.{Memory};

    ghost from_gives = { λ _ fault. fault ≡ Memory };

    fn from(_refusal: AllocFailed<T>) -> LoadFault {
        LoadFault::Memory
    }
}

impl From<LayFault> for LoadFault {
    ghost use Rattle.load_fault.specs.FaultText.{load_fault_from};

    ghost from_gives = { λ lay fault. fault ≡ load_fault_from lay };

    fn from(fault: LayFault) -> LoadFault {
        match fault {
            LayFault::Overflow(overflow) => LoadFault::Overflow {
                section: overflow.section,
                entry: overflow.entry,
            },
            LayFault::Memory => LoadFault::Memory,
        }
    }
}

/// Returns the text for a load that finds no gap.
fn full_text(alloc: Global, pages: u64) -> Result<Blob, AllocError>
    ensures { IfOk result
        (λ text. text ≡ codes "region full, " ++ (decimal pages ++ codes " pages")) }
{
    let text = format!(in alloc; "region full, {pages} pages")?;
    Ok(Blob::from_vec(text.into_bytes()))
}

/// Returns the text for a word that doesn't fit.
fn overflow_text(alloc: Global, section: u32, entry: u32) -> Result<Blob, AllocError>
    ensures { IfOk result
        (λ text. text
        ≡ codes "overflow at section "
        ++ (decimal section ++ (codes " entry " ++ decimal entry))) }
{
    let text = format!(in alloc; "overflow at section {section} entry {entry}")?;
    Ok(Blob::from_vec(text.into_bytes()))
}

impl LoadFault {
    ghost use Rattle.load_fault.specs.FaultText.{load_fault_text};

    /// Returns the text of the fault, as it follows the name of the module in a line on standard
    /// error.
    pub fn text(&self, alloc: Global) -> Result<Blob, AllocError>
        ensures { IfOk result (λ text. text ≡ load_fault_text self.now) }
    {
        match self {
            LoadFault::AlreadyLoaded => Blob::from_slice(alloc, b"already loaded"),
            LoadFault::MissingSymbol { name } => {
                Blob::concat(alloc, &[b"missing symbol ", name.as_bytes()])
            }
            LoadFault::GplOnly { name } => Blob::concat(alloc, &[name.as_bytes(), b" is GPL-only"]),
            LoadFault::VersionDiffers { name } => {
                Blob::concat(alloc, &[b"version of ", name.as_bytes(), b" differs"])
            }
            LoadFault::NotImported { name } => {
                Blob::concat(
                    alloc,
                    &[b"namespace of ", name.as_bytes(), b" not imported"],
                )
            }
            LoadFault::ExportTaken { name, owner } => {
                Blob::concat(
                    alloc,
                    &[name.as_bytes(), b" is taken by ", owner.as_bytes()],
                )
            }
            LoadFault::RegionFull { pages } => full_text(alloc, *pages),
            LoadFault::Overflow { section, entry } => overflow_text(alloc, *section, *entry),
            LoadFault::Memory => Blob::from_slice(alloc, b"out of memory"),
        }
    }
}
