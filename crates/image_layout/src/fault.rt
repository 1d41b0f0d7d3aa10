// Why an image isn't made.

ghost use Rattle.std.specs.Prelude.{◌≡◌};

use std::alloc::AllocError;
use x86_relocate::Overflow;

/// Why the image of an object isn't made.
#[derive(Debug, Drop)]
pub enum LayFault {
    /// The word of this relocation doesn't fit, and the words of the earlier ones do.
    Overflow(Overflow),
    /// Out of memory.
    Memory,
}

impl From<AllocError> for LayFault {
    ghost use Rattle.image_layout.specs.declared.fault.LayFault.TheVariants.{Memory};

    ghost from_gives = { λ _ fault. fault ≡ Memory };

    fn from(_refusal: AllocError) -> LayFault {
        LayFault::Memory
    }
}

impl From<Overflow> for LayFault {
    ghost use Rattle.image_layout.specs.declared.fault.LayFault.TheVariants.{Overflow};

    ghost from_gives = { λ overflow fault. fault ≡ Overflow overflow };

    fn from(overflow: Overflow) -> LayFault {
        LayFault::Overflow(overflow)
    }
}
