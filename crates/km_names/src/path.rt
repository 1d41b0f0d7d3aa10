// Paths, and the names of modules in them.
ghost use Rattle.std.specs.Prelude.{◌≡◌, ◌==◌, IfOk};
ghost use Rattle.std.specs.List.{before_first, after_last};
ghost use Rattle.km_names.specs.Path.{underscored, module_name, is_compressed, without_end_slashes};
ghost use Rattle.km_names.specs.Path.{path_below};

use crate::{Name, PathText};
use memchr::{memchr, memrchr};
use std::alloc::{AllocError, Global};

/// Returns a name from these bytes, with each `-` replaced by `_`, as modprobe(8) reads the names
/// of modules.
pub fn underscored(alloc: Global, text: &[u8]) -> Result<Name, AllocError>
    ensures { IfOk result (λ name. name ≡ underscored text.now) }
{
    let bytes: Vec<u8> = text
        .iter()
        .map(|b| if *b == b'-' { b'_' } else { *b })
        .collect(alloc)?;
    Ok(Name::from_vec(bytes))
}

/// Returns the name of the module at a path: the bytes after the last `/`, up to the first `.`,
/// each `-` replaced by `_`. modprobe(8), modules.dep(5).
pub fn module_name(alloc: Global, path: &PathText) -> Result<Name, AllocError>
    ensures { IfOk result (λ name. name ≡ module_name path.now) }
{
    underscored(
        alloc,
        before_byte(b'.', after_last_byte(b'/', path.as_bytes())),
    )
}

/// Returns whether the path is of a compressed module: it ends in `.ko.gz`, `.ko.xz` or `.ko.zst`.
/// depmod(8).
pub fn is_compressed(path: &PathText) -> bool
    ensures { result ≡ is_compressed path.now }
{
    let bytes = path.as_bytes();
    bytes.ends_with(b".ko.gz") || bytes.ends_with(b".ko.xz") || bytes.ends_with(b".ko.zst")
}

/// Returns a path below a folder: the folder's path without the slashes at its end, one `/`, and
/// the rest. So below `/` there is only one slash.
pub fn join(alloc: Global, dir: &PathText, rest: &[u8]) -> Result<PathText, AllocError>
    ensures { IfOk result (λ path. path ≡ path_below dir.now rest.now) }
{
    let folder = without_end_slashes(dir.as_bytes());
    PathText::concat(alloc, &[folder, b"/", rest])
}

/// Returns the bytes before the first such byte, or all if there is none.
pub(crate) fn before_byte(byte: u8, text: &[u8]) -> &[u8]
    ensures { result.now ≡ before_first (λ b. b == byte) text.now }
{
    match memchr(byte, text) {
        Some(place) => &text[..place],
        None => text,
    }
}

/// Returns the bytes after the last such byte, or all if there is none.
fn after_last_byte(byte: u8, text: &[u8]) -> &[u8]
    ensures { result.now ≡ after_last (λ b. b == byte) text.now }
{
    match memrchr(byte, text) {
        Some(place) => &text[place + 1..],
        None => text,
    }
}

/// Returns the bytes without the slashes at their end.
fn without_end_slashes(path: &[u8]) -> &[u8]
    ensures { result.now ≡ without_end_slashes path.now }
{
    let mut end = path.len();
    while end > 0 && path[end - 1] == b'/' {
        end -= 1;
    }
    &path[..end]
}
