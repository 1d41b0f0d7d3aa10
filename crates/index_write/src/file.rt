// The file of a map.
ghost use Rattle.std.specs.Prelude.{◌≡◌, ℕ, ◌≤◌, ◌<◌, ◌-◌, ◌^◌, min, length, IfOk, OnOk, Err};
ghost use Rattle.km_names.specs.Limit.{file_limit};
ghost use Rattle.index_format.specs.File.{file};
ghost use Rattle.index_format.specs.Holds.{Holds};

use crate::bytes::write;
use crate::fault::WriteFault;
use crate::key_map::KeyMap;
use crate::node::nodes;
use crate::size::file_size;
use km_names::{Blob, FILE_LIMIT};
use std::alloc::Global;

/// Returns the file of a map in kmod's index format 2.1. If it would be longer than 67,108,864
/// bytes, the answer is `IndexTooLarge` and the file isn't built.
pub fn encode(alloc: Global, map: &KeyMap) -> Result<Blob, WriteFault>
    ensures file { IfOk result (λ b. b ≡ file map.now) }
    ensures holds { IfOk result (λ b. Holds b map.now) }
    ensures within { OnOk result (length (file map.now) ≤ file_limit) }
    ensures too_large { (n : ℕ) → result ≡ Err (WriteFault.IndexTooLarge n)
        → file_limit < length (file map.now) }
    ensures length { (n : ℕ) → result ≡ Err (WriteFault.IndexTooLarge n)
        → n ≡ min (length (file map.now)) (2 ^ 64 - 1) }
{
    let entries = map.entries(alloc)?;
    let nodes = nodes(alloc, &entries)?;
    let length = file_size(&nodes);
    if length > FILE_LIMIT as u64 {
        return Err(WriteFault::IndexTooLarge { length });
    }
    let bytes = write(alloc, &nodes, length as usize)?;
    Ok(Blob::from_vec(bytes))
}
