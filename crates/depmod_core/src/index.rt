// The indexes among the files.
ghost use Rattle.std.specs.Prelude.{◌≡◌, ◌⊎◌, Some, None, OnOk, IfOk, IfErr};
ghost use Rattle.index_format.specs.File.{file as file_spec};
ghost use Rattle.index_format.specs.Holds.{Holds};
ghost use Rattle.depmod_core.specs.Files.{size_fault};

use crate::{OutputFault, OutputFile};
use index_write::{KeyMap, WriteFault, encode};
use km_names::Blob;
use std::alloc::Global;

/// Returns the index of a map, which is to be this file.
pub(crate) fn index(alloc: Global, file: OutputFile, map: &KeyMap) -> Result<Blob, OutputFault>
    ensures ok { IfOk result (λ bytes. bytes ≡ file_spec map.now) }
    ensures holds { IfOk result (λ bytes. Holds bytes map.now) }
    ensures passed { OnOk result (size_fault file (file_spec map.now) ≡ None) }
    ensures err { IfErr result
        (λ fault. (fault ≡ OutputFault.Memory)
        ⊎ (size_fault file (file_spec map.now) ≡ Some fault)) }
{
    match encode(alloc, map) {
        Ok(bytes) => Ok(bytes),
        Err(WriteFault::IndexTooLarge { length }) => {
            Err(OutputFault::too_large(alloc, file, length))
        }
        Err(WriteFault::Memory) => Err(OutputFault::Memory),
    }
}
