ghost use Rattle.std.specs.Prelude.{◌≡◌};
ghost use Rattle.km_course.specs.declared.stop.Stop.TheVariants.{Ended, Memory};
ghost use Rattle.km_course.specs.declared.end.End.TheVariants.{Refused};

use crate::{End, Refusal};
use km_names::PathText;
use std::alloc::{AllocError, AllocFailed};

/// Why a command stopped before its last act. A stop owns the path that its line on err names, so
/// that the line of a failed call takes no memory.
#[derive(Debug, Drop)]
pub enum Stop {
    /// The course reached this end: status 1 or 2.
    Ended(End),
    /// A call on files at this path failed: status 3.
    FileFault { path: PathText },
    /// A write to the output failed: status 3.
    OutputFault,
    /// A write to err failed: status 3.
    WarningFault,
    /// Out of memory: status 4.
    Memory,
}

impl From<AllocError> for Stop {
    ghost from_gives = { λ _ stop. stop ≡ Memory };

    fn from(_: AllocError) -> Self {
        Stop::Memory
    }
}

impl<T: Drop> From<AllocFailed<T>> for Stop {
    ghost from_gives = { λ _ stop. stop ≡ Memory };

    fn from(_: AllocFailed<T>) -> Self {
        Stop::Memory
    }
}

impl From<End> for Stop {
    ghost from_gives = { λ e stop. stop ≡ Ended e };

    fn from(end: End) -> Self {
        Stop::Ended(end)
    }
}

impl From<Refusal> for Stop {
    ghost from_gives = { λ refusal stop. stop ≡ Ended (Refused refusal) };

    fn from(refusal: Refusal) -> Self {
        Stop::Ended(End::Refused(refusal))
    }
}
