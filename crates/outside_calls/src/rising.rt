// What a listing found, in the order that it answers.

ghost use Rattle.std.specs.Prelude.{◌≡◌, ◌≤◌, All, Bool, IfErr, IfOk, List, length, map, true};
ghost use Rattle.std.specs.Prelude.{vec_len, ℕ};
ghost use Rattle.std.specs.List.Sorted.{IsStrictlySortedBy};
ghost use Rattle.outside_calls.specs.Contents.{by_bytes};
ghost use Rattle.outside_calls.specs.declared.files.FileAnswer.TheVariants.{Memory};

use crate::FileAnswer;
use km_names::{Bytes, List};
use std::alloc::{AllocError, Global};

/// Returns the paths in rising order by their bytes, each once: as a listing answers what it found.
/// It fails only if it is out of memory.
pub fn rising_list<K>(alloc: Global, mut found: Vec<Vec<u8>>) -> Result<List<Bytes<K>>, FileAnswer>
    ensures rising { IfOk result (λ names. IsStrictlySortedBy by_bytes names) }
    ensures kept { (p : List ℕ → Bool) → All (λ path. p path.items ≡ true) found.items
        → IfOk result (λ names. All (λ name. p name ≡ true) names) }
    ensures limit { IfOk result (λ names. length names ≤ vec_len found) }
    ensures memory { IfErr result (λ answer. answer ≡ Memory) }
{
    found.sort()?;
    found.dedup();
    Ok(as_list(alloc, found)?)
}

/// Converts the paths to a list.
fn as_list<K>(alloc: Global, paths: Vec<Vec<u8>>) -> Result<List<Bytes<K>>, AllocError>
    ensures { IfOk result (λ list. list ≡ map (λ path. path.items) paths.items) }
{
    let mut list = List::new(alloc);
    for path in paths {
        list.push(Bytes::from_vec(path))?;
    }
    Ok(list)
}
