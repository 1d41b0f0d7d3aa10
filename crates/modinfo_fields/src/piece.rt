ghost use Rattle.std.specs.Prelude.{◌≡◌, IfOk};
ghost use Rattle.modinfo_fields.specs.Fields.{field_of};

use km_names::{Blob, Name, split_at_byte};
use std::alloc::{AllocError, Global};

/// One field of a `.modinfo` section.
#[derive(Debug, Drop)]
pub struct Field {
    /// The bytes before the first `=`, or all if there is none.
    pub key: Name,
    /// The bytes after the first `=`.
    pub value: Blob,
}

/// Returns the field of a piece between NULs.
#[tactic(auto, unfolding(crate::specs::Fields::field_of))]
pub(crate) fn read_field(alloc: Global, piece: &[u8]) -> Result<Field, AllocError>
    ensures { IfOk result (λ field. field ≡ field_of piece.now) }
{
    let (key, value) = split_at_byte(piece, b'=');
    Ok(Field {
        key: Name::from_slice(alloc, key)?,
        value: Blob::from_slice(alloc, value)?,
    })
}
