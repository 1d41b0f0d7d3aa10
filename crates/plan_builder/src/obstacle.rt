ghost use Rattle.std.specs.Prelude.{◌≡◌};

use dependency_lines::LineFault;
use km_names::{Name, Names, PathText};
use planned_modules::ResolveFault;
use std::alloc::{AllocError, AllocFailed};

/// What keeps a request from having a plan. Paths are as in modules.dep, and the kernel is
/// `vmlinux`.
#[derive(Debug, Drop)]
pub enum Obstacle {
    /// The first name in modules.dep.bin whose value isn't its dependency line.
    BadDepLine {
        name: Name,
    },
    /// The first name that nothing is found for, or else the first that was found and is nothing
    /// that is known.
    NotFound {
        name: Name,
    },
    /// A planned module needs a symbol that nobody exports.
    Missing {
        path: PathText,
        symbol: Name,
    },
    /// A planned module needs a symbol that is exported only for GPL-compatible modules, and it
    /// isn't one.
    Gpl {
        path: PathText,
        symbol: Name,
        provider: PathText,
    },
    /// A planned module needs a symbol in another version.
    Version {
        path: PathText,
        symbol: Name,
        provider: PathText,
    },
    /// A planned module needs a symbol in a namespace that it doesn't import.
    Namespace {
        path: PathText,
        symbol: Name,
        provider: PathText,
    },
    /// Planned modules in a cycle: each comes after the next, and the last after the first.
    Cycle {
        names: Names,
    },
    /// Two export a symbol. At least one is planned, and the other is planned, loaded or the
    /// kernel.
    Double {
        symbol: Name,
        first: PathText,
        second: PathText,
    },
    /// Out of memory.
    Memory,
}

impl From<AllocError> for Obstacle {
    ghost use Rattle.plan_builder.specs.declared.obstacle.Obstacle.TheVariants.{Memory};

    ghost from_gives = { λ _ obstacle. obstacle ≡ Memory };

    fn from(_error: AllocError) -> Obstacle {
        Obstacle::Memory
    }
}

impl<T: Drop> From<AllocFailed<T>> for Obstacle {
    ghost use Rattle.plan_builder.specs.declared.obstacle.Obstacle.TheVariants.{Memory};

    ghost from_gives = { λ _ obstacle. obstacle ≡ Memory };

    fn from(_failed: AllocFailed<T>) -> Obstacle {
        Obstacle::Memory
    }
}

impl From<LineFault> for Obstacle {
    ghost use Rattle.plan_builder.specs.Answers.{line_obstacle};

    ghost from_gives = { λ fault obstacle. obstacle ≡ line_obstacle fault };

    fn from(fault: LineFault) -> Obstacle {
        match fault {
            LineFault::BadLine { name } => Obstacle::BadDepLine { name },
            LineFault::Memory => Obstacle::Memory,
        }
    }
}

impl From<ResolveFault> for Obstacle {
    ghost use Rattle.plan_builder.specs.Answers.{name_obstacle};

    ghost from_gives = { λ fault obstacle. obstacle ≡ name_obstacle fault };

    fn from(fault: ResolveFault) -> Obstacle {
        match fault {
            ResolveFault::NotFound { name } => Obstacle::NotFound { name },
            ResolveFault::Memory => Obstacle::Memory,
        }
    }
}
