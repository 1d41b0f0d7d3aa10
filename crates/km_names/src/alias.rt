// The normal form of aliases and of their patterns.
ghost use Rattle.std.specs.Prelude.{◌≡◌, IfOk};
ghost use Rattle.km_names.specs.AliasForm.{normal_alias, normal_or_itself};

use crate::{Alias, Name};
use std::alloc::{AllocError, Global};

/// Returns the normal form of an alias or of a pattern of aliases: each `-` outside brackets
/// becomes `_`. A `[` opens a bracket up to the next `]`. The result is `None` exactly if a `[` has
/// no `]` after it, or a `]` is outside a bracket. modprobe.d(5), "alias".
pub fn normal_alias(alloc: Global, text: &[u8]) -> Result<Option<Alias>, AllocError>
    ensures { IfOk result (λ normal. normal ≡ normal_alias text.now) }
{
    let mut normal = Vec::with_capacity(alloc, text.len())?;
    let mut bracket = false;
    for byte in text {
        if *byte == b']' && !bracket {
            return Ok(None);
        }
        normal.push(if *byte == b'-' && !bracket {
            b'_'
        } else {
            *byte
        })?;
        bracket = *byte == b'[' || (bracket && *byte != b']');
    }
    if bracket {
        return Ok(None);
    }
    Ok(Some(Alias::from_vec(normal)))
}

/// Returns a name in its normal form as an alias, or as it is if it has none.
pub fn normal_or_itself(alloc: Global, name: &[u8]) -> Result<Name, AllocError>
    ensures { IfOk result (λ normal. normal ≡ normal_or_itself name.now) }
{
    match normal_alias(alloc, name)? {
        Some(normal) => Ok(normal.into_kind()),
        None => Name::from_slice(alloc, name),
    }
}
