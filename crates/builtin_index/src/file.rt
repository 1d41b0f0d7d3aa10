// The index of the built-in aliases.
ghost use Rattle.std.specs.Prelude.{◌≡◌, ℕ, ◌≤◌, ◌<◌, ◌-◌, ◌^◌, min, length, IfOk, OnOk, Err};
ghost use Rattle.km_names.specs.Limit.{file_limit};
ghost use Rattle.index_format.specs.File.{file};
ghost use Rattle.index_format.specs.Holds.{Holds};
ghost use Rattle.builtin_index.specs.Aliases.{alias_map};

use crate::builtin_aliases;
use index_write::{WriteFault, encode};
use km_names::Blob;
use std::alloc::Global;

/// Returns the bytes of modules.builtin.alias.bin, by the bytes of a modules.builtin.modinfo: the
/// index that holds exactly the map of [`builtin_aliases`]. If it would be longer than 67,108,864
/// bytes it is refused with that length. kmod's index format 2.1.
pub fn alias_index(alloc: Global, bytes: &[u8]) -> Result<Blob, WriteFault>
    requires { length bytes.now ≤ file_limit }
    ensures file { IfOk result (λ index. index ≡ file (alias_map bytes.now)) }
    ensures holds { IfOk result (λ index. Holds index (alias_map bytes.now)) }
    ensures within { OnOk result (length (file (alias_map bytes.now)) ≤ file_limit) }
    ensures too_large { (n : ℕ) → result ≡ Err (WriteFault.IndexTooLarge n)
        → file_limit < length (file (alias_map bytes.now)) }
    ensures length { (n : ℕ) → result ≡ Err (WriteFault.IndexTooLarge n)
        → n ≡ min (length (file (alias_map bytes.now))) (2 ^ 64 - 1) }
{
    let map = builtin_aliases(alloc, bytes)?;
    encode(alloc, &map)
}
