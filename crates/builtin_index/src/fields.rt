// The fields of a modules.builtin.modinfo.
ghost use Rattle.std.specs.Prelude.{◌≡◌, ◌≤◌, length, IfOk};
ghost use Rattle.builtin_index.specs.Fields.{fields_of};

use crate::BuiltinField;
use crate::piece::{field, read_parts};
use km_names::{List, split_at_byte};
use std::alloc::{AllocError, Global};

/// The fields of modules that are built into the kernel, in the order of the file. Contracts see it
/// as the list of its fields.
pub type BuiltinList = List<BuiltinField>;

/// Reads the fields that the bytes of a modules.builtin.modinfo state, in order: the pieces between
/// NULs that have a `.` before their first `=`. The module is the text before the first `.`, with
/// each `-` replaced by `_`. The key is the text from there to the first `=`, and the value the
/// text after it. Other pieces are left out, and so are pieces whose module isn't a word of visible
/// characters. The last piece needs no NUL. The kernel's include/linux/moduleparam.h.
pub fn builtin_fields(alloc: Global, bytes: &[u8]) -> Result<BuiltinList, AllocError>
    ensures { IfOk result (λ list. list ≡ fields_of bytes.now) }
{
    // A file may have a field for each four of its bytes, so the list has room for these and no
    // more.
    let mut list = Vec::with_capacity(alloc, field_count(bytes))?;
    let mut rest = bytes;
    while !rest.is_empty() {
        let (piece, after) = split_at_byte(rest, 0);
        if let Some(parts) = read_parts(piece) {
            list.push(field(alloc, parts)?)?;
        }
        rest = after;
    }
    Ok(List::from_vec(list))
}

/// Counts the pieces that are fields.
fn field_count(bytes: &[u8]) -> usize {
    let mut count = 0;
    let mut rest = bytes;
    while !rest.is_empty() {
        let (piece, after) = split_at_byte(rest, 0);
        if read_parts(piece).is_some() {
            count += 1;
        }
        rest = after;
    }
    count
}
