ghost use Rattle.std.specs.Prelude.{◌≡◌, ◌⊎◌};
ghost use Rattle.depmod_core.specs.Files.{file_name};

use crate::OutputFile;
use km_names::Name;
use std::alloc::{AllocError, AllocFailed, Global};

/// Why depmod's files aren't made. The limit is this project's own.
#[derive(Debug, Drop)]
pub enum OutputFault {
    /// The name of the first file that would have more than 67,108,864 bytes, without its folder,
    /// and how many it would have. A length past 64 bits is given as the greatest number of 64.
    OutputTooLarge { file: Name, length: u64 },
    /// Out of memory.
    Memory,
}

impl OutputFault {
    /// Names a file that would have this many bytes, or reports that there was no memory for its
    /// name.
    pub(crate) fn too_large(alloc: Global, file: OutputFile, length: u64) -> OutputFault
        ensures { (result ≡ OutputFault.Memory)
            ⊎ (result ≡ OutputFault.OutputTooLarge (file_name file) length) }
    {
        match Name::from_slice(alloc, file.name()) {
            Ok(file) => OutputFault::OutputTooLarge { file, length },
            Err(_) => OutputFault::Memory,
        }
    }
}

impl From<AllocError> for OutputFault {
    ghost use Rattle.depmod_core.specs.declared.fault.OutputFault.TheVariants.{Memory};

    ghost from_gives = { λ _ fault. fault ≡ Memory };

    fn from(_error: AllocError) -> OutputFault {
        OutputFault::Memory
    }
}

impl<T: Drop> From<AllocFailed<T>> for OutputFault {
    ghost use Rattle.depmod_core.specs.declared.fault.OutputFault.TheVariants.{Memory};

    ghost from_gives = { λ _ fault. fault ≡ Memory };

    fn from(_failed: AllocFailed<T>) -> OutputFault {
        OutputFault::Memory
    }
}
