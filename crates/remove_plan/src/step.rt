// The steps of a removal, and why there are none.
ghost use Rattle.std.specs.Prelude.{◌≡◌};

use km_names::{Blob, List, Name};
use std::alloc::AllocError;

/// A step of a removal.
#[derive(Debug, Drop)]
pub enum RemoveStep {
    /// The module is removed.
    Rmmod { name: Name },
    /// The command is run instead of removing the module.
    Command { name: Name, command: Blob },
}

/// The steps of a removal, in order.
pub type RemovePlan = List<RemoveStep>;

/// Why nothing is removed.
#[derive(Debug, Drop)]
pub enum RemoveFault {
    /// The module `name` is asked for, and `user`, which isn't, binds to it.
    InUse { name: Name, user: Name },
    /// Out of memory.
    Memory,
}

impl From<AllocError> for RemoveFault {
    ghost use Rattle.remove_plan.specs.declared.step.RemoveFault.TheVariants.{Memory};

    ghost from_gives = { λ _ fault. fault ≡ Memory };

    fn from(_refusal: AllocError) -> RemoveFault {
        RemoveFault::Memory
    }
}
