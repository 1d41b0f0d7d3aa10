// The length of a text, before its bytes are written.
ghost use Rattle.std.specs.Prelude.{◌≡◌, ◌⊎◌, List, ℕ, Some, None, OnOk, IfErr};
ghost use Rattle.stated_texts.specs.Text.{measured as measured_spec, with_piece};
ghost use Rattle.depmod_core.specs.Files.{size_fault};

use crate::{OutputFault, OutputFile};
use km_names::FILE_LIMIT;
use stated_texts::Text;
use std::alloc::Global;

/// Returns how long the measured text of a file is, unless it is too long.
pub(crate) fn checked_length(
    alloc: Global,
    file: OutputFile,
    measured: &Text,
) -> Result<usize, OutputFault>
    ensures ok { (bytes : List ℕ) → measured.now ≡ with_piece measured_spec bytes
        → OnOk result (size_fault file bytes ≡ None) }
    ensures err { (bytes : List ℕ) → measured.now ≡ with_piece measured_spec bytes
        → IfErr result (λ fault.
        (fault ≡ OutputFault.Memory) ⊎ (size_fault file bytes ≡ Some fault)) }
{
    let length = measured.length();
    if length > FILE_LIMIT as u64 {
        return Err(OutputFault::too_large(alloc, file, length));
    }
    Ok(length as usize)
}
