// Why options aren't written into an image.

ghost use Rattle.std.specs.Prelude.{◌≡◌, ◌++◌, codes, IfOk};
ghost use Rattle.std.specs.Fmt.{decimal};

use bstr::BStr;
use km_names::{Blob, Name};
use std::alloc::{AllocError, AllocFailed, Global};
use thiserror::Error;

/// Why options aren't written into the image of a module.
#[derive(Debug, Drop, Error)]
pub enum ParamFault {
    /// The name of the entry `entry` of the table isn't in the image, or the table ends within that
    /// entry.
    #[error("bad parameter table at entry {entry}")]
    BadParamTable { entry: u32 },
    /// The type of the parameter `name` isn't known.
    #[error("unknown type of {}", BStr::new(.name.as_bytes()))]
    UnknownParamType { name: Name },
    /// The text that a word states for the parameter `name` is no value of its type.
    #[error("bad value of {}", BStr::new(.name.as_bytes()))]
    BadValue { name: Name },
    /// The value of the parameter `name` leaves the image, or shares a byte with something else.
    #[error("bad place of {}", BStr::new(.name.as_bytes()))]
    BadParamPlace { name: Name },
    /// Out of memory.
    #[error("out of memory")]
    Memory,
}

impl From<AllocError> for ParamFault {
    ghost use Rattle.param_apply.specs.declared.fault.ParamFault.TheVariants.{Memory};

    ghost from_gives = { λ _ fault. fault ≡ Memory };

    fn from(_refusal: AllocError) -> ParamFault {
        ParamFault::Memory
    }
}

impl<T: Drop> From<AllocFailed<T>> for ParamFault {
    ghost use Rattle.param_apply.specs.declared.fault.ParamFault.TheVariants.{Memory};

    ghost from_gives = { λ _ fault. fault ≡ Memory };

    fn from(_refusal: AllocFailed<T>) -> ParamFault {
        ParamFault::Memory
    }
}

/// Returns the text for an invalid table.
fn table_text(alloc: Global, entry: u32) -> Result<Blob, AllocError>
    ensures { IfOk result (λ text. text ≡ codes "bad parameter table at entry " ++ decimal entry) }
{
    let text = format!(in alloc; "bad parameter table at entry {entry}")?;
    Ok(Blob::from_vec(text.into_bytes()))
}

impl ParamFault {
    ghost use Rattle.param_apply.specs.FaultText.{param_fault_text};

    /// Returns the text of the fault, as it follows the name of the module in a line on standard
    /// error.
    pub fn text(&self, alloc: Global) -> Result<Blob, AllocError>
        ensures { IfOk result (λ text. text ≡ param_fault_text self.now) }
    {
        match self {
            ParamFault::BadParamTable { entry } => table_text(alloc, *entry),
            ParamFault::UnknownParamType { name } => {
                Blob::concat(alloc, &[b"unknown type of ", name.as_bytes()])
            }
            ParamFault::BadValue { name } => Blob::concat(
                alloc,
                &[b"bad value of ", name.as_bytes()],
            ),
            ParamFault::BadParamPlace { name } => Blob::concat(
                alloc,
                &[b"bad place of ", name.as_bytes()],
            ),
            ParamFault::Memory => Blob::from_slice(alloc, b"out of memory"),
        }
    }
}
