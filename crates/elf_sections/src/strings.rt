// Strings in string tables. gABI 4, "String Table".

ghost use Rattle.std.specs.Prelude.{◌≡◌, ◌+◌, ◌<◌, ◌≤◌, length, IfOk, IfSome, OnErr, option_copied};
ghost use Rattle.km_names.specs.Strings.{string_at};
ghost use Rattle.elf_sections.specs.Strings.{HasStrings};

use km_names::{FILE_LIMIT, string_at};
use memchr::memrchr;
use std::alloc::AllocError;

/// The greatest total size, in bytes, of names that a reader copies: of a file's sections, of its
/// symbols, of its needs, of its exports, or of their namespaces. It is four times as many as a
/// file may have. Names may share their bytes, so a small file can ask for far more. The names of a
/// real module together have less than a tenth of this.
pub const NAME_LIMIT: usize = 4 * FILE_LIMIT;

/// The greatest total size, in bytes, of names that a reader leaves where they are and only
/// searches for their ends: 2^34. No file under a megabyte has as many, however its names share
/// their bytes.
pub const SEARCH_LIMIT: usize = 17_179_869_184;

/// Returns the string at the place `at` of a table, if one is there. Names may have `left` bytes
/// more, and no more than one byte past those is read.
///
/// # Errors
///
/// The string is longer than `left` bytes.
pub fn string_within(table: &[u8], at: u32, left: usize) -> Result<Option<&[u8]>, AllocError>
    requires { left ≤ SEARCH_LIMIT }
    ensures string { IfOk result (λ string. option_copied string ≡ string_at table.now at) }
    ensures within { IfOk result (λ string. IfSome string (λ name. length name.now ≤ left)) }
{
    let at = at as usize;
    let end = (at + left + 1).min(table.len());
    match string_at(&table[..end], at) {
        Some(name) => Ok(Some(name)),
        None if end < table.len() => Err(AllocError),
        None => Ok(None),
    }
}

/// Returns how many of `left` bytes are left after a text of `size` bytes.
///
/// # Errors
///
/// The text is longer than `left` bytes.
pub fn bytes_left(left: usize, size: usize) -> Result<usize, AllocError>
    ensures rest { IfOk result (λ rest. rest + size ≡ left) }
    ensures long { OnErr result (left < size) }
{
    if left < size {
        return Err(AllocError);
    }
    Ok(left - size)
}

/// Returns a string table up to its last NUL. It has the same strings, and no search goes past its
/// end.
pub fn up_to_last_nul(table: &[u8]) -> &[u8]
    ensures { HasStrings table.now result.now }
{
    match memrchr(0, table) {
        Some(last) => &table[..last + 1],
        None => &[],
    }
}
