// Texts for which calls under test have conditions.
ghost use Rattle.std.specs.Prelude.{◌≡◌, ◌≤◌, ◌<◌, ◌⊎◌, ◌↔◌, length, IfErr, IfOk, IsTrue};
ghost use Rattle.km_names.specs.Limit.{file_limit};
ghost use Rattle.index_format.specs.Map.{IsKey, IsText};
ghost use Rattle.test_objects.specs.declared.fault.RowFault.TheVariants.{Memory, TooLarge};

use crate::fault::RowFault;
use km_names::{Blob, ConfFile, FILE_LIMIT, PathText};
use std::alloc::Global;

/// Returns a file of a configuration, with a text that isn't longer than files may be.
pub fn conf_file(alloc: Global, path: &[u8], text: &[u8]) -> Result<ConfFile, RowFault>
    ensures made { IfOk result (λ file. file ≡ record { path = path.now; bytes = text.now }) }
    ensures limited { IfOk result (λ file. length file.bytes ≤ file_limit) }
    ensures refused { IfErr result (λ fault.
        (fault ≡ Memory) ⊎ ((fault ≡ TooLarge) × (file_limit < length text.now))) }
{
    if text.len() > FILE_LIMIT {
        return Err(RowFault::TooLarge);
    }
    Ok(ConfFile {
        path: PathText::from_slice(alloc, path)?,
        bytes: Blob::from_slice(alloc, text)?,
    })
}

/// Returns whether the bytes may be a key of an index.
pub fn is_key(key: &[u8]) -> bool
    ensures { IsTrue result ↔ IsKey key.now }
{
    key.iter().all(|byte| 0 < *byte && *byte < 128)
}

/// Returns whether the bytes may be the text of a value of an index.
pub fn is_text(text: &[u8]) -> bool
    ensures { IsTrue result ↔ IsText text.now }
{
    text.iter().all(|byte| 0 < *byte)
}
