ghost use Rattle.std.specs.Prelude.{◌≡◌};

use km_names::Name;
use std::alloc::{AllocError, AllocFailed};

/// Why an index has no modules.
#[derive(Drop)]
pub enum LineFault {
    /// The first name, by its bytes, whose value isn't the dependency line of its module.
    BadLine { name: Name },
    /// Out of memory.
    Memory,
}

impl From<AllocError> for LineFault {
    ghost use Rattle.dependency_lines.specs.declared.fault.LineFault.TheVariants.{Memory};

    ghost from_gives = { λ _ fault. fault ≡ Memory };

    fn from(_error: AllocError) -> LineFault {
        LineFault::Memory
    }
}

impl<T: Drop> From<AllocFailed<T>> for LineFault {
    ghost use Rattle.dependency_lines.specs.declared.fault.LineFault.TheVariants.{Memory};

    ghost from_gives = { λ _ fault. fault ≡ Memory };

    fn from(_failed: AllocFailed<T>) -> LineFault {
        LineFault::Memory
    }
}
