// The names of modules, from their paths.
ghost use Rattle.std.specs.Prelude.{◌≡◌, ◌==◌, true, OnOk, if◌then◌else◌};
ghost use Rattle.std.specs.List.{after_last};
ghost use Rattle.std.specs.Str.{bytes_eq};
ghost use Rattle.km_names.specs.Path.{module_name, underscored};
ghost use Rattle.dependency_lines.specs.GoodPaths.{StandsFor};

use km_names::split_at_byte;
use memchr::{memchr, memrchr};
use std::alloc::AllocError;

/// Returns the part of a path that names its module, in which a `-` counts as `_`.
pub(crate) fn stem(path: &[u8]) -> &[u8]
    ensures { underscored result.now ≡ module_name path.now }
{
    split_at_byte(file_name(path), b'.').0
}

/// Returns whether a text has no `-`, so that it is a name in its normal form.
pub(crate) fn is_plain(text: &[u8]) -> bool
    ensures { result ≡ true → underscored text.now ≡ text.now }
{
    memchr(b'-', text).is_none()
}

/// Returns whether a text is this name, where a `-` of the text counts as `_`.
pub(crate) fn has_name(text: &[u8], name: &[u8]) -> bool
    ensures { result ≡ bytes_eq (underscored text.now) name.now }
{
    if text.len() != name.len() {
        return false;
    }
    for i in 0..text.len() {
        if with_underscore(text[i]) != name[i] {
            return false;
        }
    }
    true
}

/// Returns whether a path ends with a `/`, a name and `.ko`, where a `-` counts as `_`. If it does,
/// this is the name of its module.
pub(crate) fn ends_with_name(path: &[u8], name: &[u8]) -> bool
    ensures { result ≡ true → module_name path.now ≡ name.now }
{
    let size = name.len();
    if path.len() < 4 || path.len() - 4 < size {
        return false;
    }
    let start = path.len() - 3 - size;
    if path[start - 1] != b'/' || path[start + size] != b'.' {
        return false;
    }
    if path[start + size + 1] != b'k' || path[start + size + 2] != b'o' {
        return false;
    }
    for i in 0..size {
        if !stands_for(path[start + i], name[i]) {
            return false;
        }
    }
    true
}

/// Returns whether a byte of a file's name stands for this byte of its module's name. A `.` and a
/// `/` stand for none.
#[inline(always)]
fn stands_for(byte: u8, other: u8) -> bool
    ensures { result ≡ true → StandsFor byte other }
{
    if byte == other {
        byte != b'-' && byte != b'.' && byte != b'/'
    } else {
        byte == b'-' && other == b'_'
    }
}

/// Writes the name of the module at a path, in place of what the buffer has.
pub(crate) fn write_name(buffer: &mut Vec<u8>, path: &[u8]) -> Result<(), AllocError>
    ensures { OnOk result (buffer.new.items ≡ module_name path.now) }
{
    buffer.clear();
    buffer.extend_from_slice(stem(path))?;
    underscore(buffer.as_mut_slice());
    Ok(())
}

/// Writes a `_` in place of each `-`.
fn underscore(text: &mut [u8])
    ensures { text.new ≡ underscored text.old }
{
    for i in 0..text.len() {
        text[i] = with_underscore(text[i]);
    }
}

/// Returns what follows the last `/` of a path.
fn file_name(path: &[u8]) -> &[u8]
    ensures { result.now ≡ after_last (λ b. b == 47) path.now }
{
    match memrchr(b'/', path) {
        Some(place) => &path[place + 1..],
        None => path,
    }
}

/// Returns the byte, or `_` for a `-`.
fn with_underscore(byte: u8) -> u8
    ensures { result ≡ (if byte == 45 then 95 else byte) }
{
    if byte == b'-' { b'_' } else { byte }
}
