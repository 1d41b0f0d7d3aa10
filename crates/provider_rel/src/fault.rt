ghost use Rattle.std.specs.Prelude.{◌≡◌};

use km_names::Names;
use std::alloc::{AllocError, AllocFailed};

/// Why a tree has no relation. The limits are this project's own.
#[derive(Debug, Drop)]
pub enum RelationFault {
    /// Modules in a cycle: each uses the next, and the last the first. It begins with the first
    /// module of the tree that lies on a cycle.
    Cycle { names: Names },
    /// How many dependencies all modules have together, more than 2,000,000.
    TooManyDeps { count: u64 },
    /// How many double lines there are, more than 100,000. If the number doesn't fit in 64 bits, it
    /// is the greatest that does.
    TooManyDoubles { count: u64 },
    /// Out of memory.
    Memory,
}

impl From<AllocError> for RelationFault {
    ghost use Rattle.provider_rel.specs.declared.fault.RelationFault.TheVariants.{Memory};

    ghost from_gives = { λ _ fault. fault ≡ Memory };

    fn from(_error: AllocError) -> RelationFault {
        RelationFault::Memory
    }
}

impl<T: Drop> From<AllocFailed<T>> for RelationFault {
    ghost use Rattle.provider_rel.specs.declared.fault.RelationFault.TheVariants.{Memory};

    ghost from_gives = { λ _ fault. fault ≡ Memory };

    fn from(_failed: AllocFailed<T>) -> RelationFault {
        RelationFault::Memory
    }
}
