// Bytes that are written out in hexadecimal digits.
ghost use Rattle.std.specs.Prelude.{◌≡◌, ◌⊎◌, ◌==◌, not, filter, IfErr, IfOk};
ghost use Rattle.hex.specs.Hex.{decode_of};
ghost use Rattle.hex.specs.declared.error.FromHexError.TheVariants.{OutOfMemory};

use hex::FromHexError;
use km_names::Blob;
use std::alloc::{AllocError, Global};

/// Returns digits without the spaces between them.
fn packed(alloc: Global, digits: &[u8]) -> Result<Vec<u8>, AllocError>
    ensures { IfOk result (λ packed. packed.items ≡ filter (λ b. not (b == 32)) digits.now) }
{
    digits.iter().copied().filter(|b| *b != b' ').collect(alloc)
}

/// Returns the bytes of hexadecimal digits, two for each byte. Spaces separate the fields, and
/// don't count.
pub fn bytes_of(alloc: Global, digits: &str) -> Result<Blob, FromHexError>
    ensures made { IfOk result
        (λ bytes. decode_of (filter (λ b. not (b == 32)) digits.now) ≡ Ok bytes) }
    ensures refused { IfErr result (λ fault.
        (fault ≡ OutOfMemory) ⊎ (decode_of (filter (λ b. not (b == 32)) digits.now) ≡ Err fault)) }
{
    let packed = packed(alloc, digits.as_bytes())?;
    Ok(Blob::from_vec(hex::decode(alloc, packed.as_slice())?))
}
