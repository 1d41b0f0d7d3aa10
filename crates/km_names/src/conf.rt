// Configuration files and their lines, and why they are refused.
ghost use Rattle.std.specs.Prelude.{◌≡◌};

use crate::{Blob, List, PathText};
use std::alloc::{AllocError, AllocFailed};

/// The place of a module in a tree, from 0.
#[derive(Clone, Copy, Debug, PartialEq, Eq)]
pub struct TreeIndex(pub u32);

/// A line of a configuration file: the number of its first part in the file, from 1, and its text
/// without white space at either end.
#[derive(Debug, Drop)]
pub struct Line {
    pub number: u32,
    pub text: Blob,
}

/// The lines of a configuration file that state something.
pub type Lines = List<Line>;

/// A configuration file of modprobe.d(5) or depmod.d(5): its path and its content.
#[derive(Debug, Drop)]
pub struct ConfFile {
    pub path: PathText,
    pub bytes: Blob,
}

/// Configuration files, in the order they are read in.
pub type ConfFiles = List<ConfFile>;

/// Why configuration files couldn't be read as statements.
#[derive(Debug, Drop)]
pub enum ConfFault {
    /// The first line that isn't understood: its file, and its number there, from 1.
    BadLine { file: PathText, line: u32 },
    /// Out of memory.
    Memory,
}

impl From<AllocError> for ConfFault {
    ghost use Rattle.km_names.specs.declared.conf.ConfFault.TheVariants.{Memory};

    ghost from_gives = { λ _ fault. fault ≡ Memory };

    fn from(_error: AllocError) -> ConfFault {
        ConfFault::Memory
    }
}

impl<T: Drop> From<AllocFailed<T>> for ConfFault {
    ghost use Rattle.km_names.specs.declared.conf.ConfFault.TheVariants.{Memory};

    ghost from_gives = { λ _ fault. fault ≡ Memory };

    fn from(_failed: AllocFailed<T>) -> ConfFault {
        ConfFault::Memory
    }
}
