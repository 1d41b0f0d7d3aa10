ghost use Rattle.std.specs.Prelude.{◌≡◌};

use std::alloc::{AllocError, AllocFailed};

/// Why a table of a kernel isn't read.
#[derive(Debug, Drop)]
pub enum KernelFault {
    /// The first line that is neither blank nor understood, counted from 1.
    BadKernelLine { line: u32 },
    /// Out of memory.
    Memory,
}

impl From<AllocError> for KernelFault {
    ghost use Rattle.kernel_exports.specs.declared.fault.KernelFault.TheVariants.{Memory};

    ghost from_gives = { λ _ fault. fault ≡ Memory };

    fn from(_error: AllocError) -> KernelFault {
        KernelFault::Memory
    }
}

impl<T: Drop> From<AllocFailed<T>> for KernelFault {
    ghost use Rattle.kernel_exports.specs.declared.fault.KernelFault.TheVariants.{Memory};

    ghost from_gives = { λ _ fault. fault ≡ Memory };

    fn from(_failed: AllocFailed<T>) -> KernelFault {
        KernelFault::Memory
    }
}
