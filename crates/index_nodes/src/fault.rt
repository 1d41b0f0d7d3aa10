// What is wrong with an index.

ghost use Rattle.std.specs.Prelude.{◌≡◌, IfOk};

use km_names::Blob;
use std::alloc::{AllocError, AllocFailed, Global};
use thiserror::Error;

/// Why a file is no index. A node is named by its place in the file, in bytes.
#[derive(Clone, Copy, Debug, PartialEq, Eq, Error)]
pub enum IndexFault {
    /// The file doesn't begin with the magic of an index.
    #[error("bad index magic")]
    BadMagic,
    /// The file is of another version of the format than 2.1.
    #[error("bad index version")]
    BadVersion,
    /// The node at `offset` isn't whole, or isn't below the one that leads to it.
    #[error("bad index node at {offset}")]
    BadNode { offset: u32 },
    /// Two ways lead to the node at `offset`.
    #[error("index node twice at {offset}")]
    Revisited { offset: u32 },
    /// Out of memory.
    #[error("out of memory")]
    Memory,
}

impl From<AllocError> for IndexFault {
    ghost use Rattle.std.specs.Prelude.{◌≡◌};
    ghost use Rattle.index_nodes.specs.declared.fault.IndexFault.TheVariants.{Memory};

    ghost from_gives = { λ _ fault. fault ≡ Memory };

    fn from(_refusal: AllocError) -> IndexFault {
        IndexFault::Memory
    }
}

impl<T: Drop> From<AllocFailed<T>> for IndexFault {
    ghost use Rattle.std.specs.Prelude.{◌≡◌};
    ghost use Rattle.index_nodes.specs.declared.fault.IndexFault.TheVariants.{Memory};

    ghost from_gives = { λ _ fault. fault ≡ Memory };

    fn from(_refusal: AllocFailed<T>) -> IndexFault {
        IndexFault::Memory
    }
}

impl IndexFault {
    ghost use Rattle.index_nodes.specs.Faults.{index_fault_text};

    /// Returns the text of the fault, as a line on standard error has it.
    pub fn text(&self, alloc: Global) -> Result<Blob, AllocError>
        ensures { IfOk result (λ text. text ≡ index_fault_text self.now) }
    {
        let text = match self {
            IndexFault::BadMagic => return Blob::from_slice(alloc, b"bad index magic"),
            IndexFault::BadVersion => return Blob::from_slice(alloc, b"bad index version"),
            IndexFault::Memory => return Blob::from_slice(alloc, b"out of memory"),
            IndexFault::BadNode { offset } => format!(in alloc; "bad index node at {offset}")?,
            IndexFault::Revisited { offset } => {
                format!(in alloc; "index node twice at {offset}")?
            }
        };
        Ok(Blob::from_vec(text.into_bytes()))
    }
}
