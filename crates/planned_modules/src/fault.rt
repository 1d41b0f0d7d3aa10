ghost use Rattle.std.specs.Prelude.{◌≡◌};

use km_names::Name;
use std::alloc::{AllocError, AllocFailed};

/// Why names aren't resolved to what is known.
#[derive(Drop)]
pub enum ResolveFault {
    /// The first name that nothing is found for, or else the first that was found and is nothing
    /// that is known.
    NotFound { name: Name },
    /// Out of memory.
    Memory,
}

impl From<AllocError> for ResolveFault {
    ghost use Rattle.planned_modules.specs.declared.fault.ResolveFault.TheVariants.{Memory};

    ghost from_gives = { λ _ fault. fault ≡ Memory };

    fn from(_error: AllocError) -> ResolveFault {
        ResolveFault::Memory
    }
}

impl<T: Drop> From<AllocFailed<T>> for ResolveFault {
    ghost use Rattle.planned_modules.specs.declared.fault.ResolveFault.TheVariants.{Memory};

    ghost from_gives = { λ _ fault. fault ≡ Memory };

    fn from(_failed: AllocFailed<T>) -> ResolveFault {
        ResolveFault::Memory
    }
}
