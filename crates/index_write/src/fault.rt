use std::alloc::{AllocError, AllocFailed};

/// Why a map wasn't written.
#[derive(Debug, Drop)]
pub enum WriteFault {
    /// The file would be longer than 67,108,864 bytes.
    IndexTooLarge {
        /// The size of the file in bytes, or the greatest number of 64 bits if that is less.
        length: u64,
    },
    /// Out of memory.
    Memory,
}

impl From<AllocError> for WriteFault {
    ghost use Rattle.std.specs.Prelude.{◌≡◌};
    ghost use Rattle.index_write.specs.declared.fault.WriteFault.TheVariants.{Memory};

    ghost from_gives = { λ _ e. e ≡ Memory };

    fn from(_: AllocError) -> WriteFault {
        WriteFault::Memory
    }
}

impl<T: Drop> From<AllocFailed<T>> for WriteFault {
    ghost use Rattle.std.specs.Prelude.{◌≡◌};
    ghost use Rattle.index_write.specs.declared.fault.WriteFault.TheVariants.{Memory};

    ghost from_gives = { λ _ e. e ≡ Memory };

    fn from(_: AllocFailed<T>) -> WriteFault {
        WriteFault::Memory
    }
}
