// The form of a dependency line, and the paths that it may have.
ghost use Rattle.std.specs.Prelude.{◌≡◌, ◌==◌, drop, length, option_copied, true, false};
ghost use Rattle.std.specs.Prelude.{MatchOption};
ghost use Rattle.std.specs.List.{before_first, list_any, slice_split};
ghost use Rattle.mod_tree.specs.DependencyLine.{is_separator, is_line_path, are_needed, line_path};
ghost use Rattle.mod_tree.specs.DependencyLine.{has_own_path, own_path};

use crate::tree::is_module_path;
use memchr::memchr3;

/// Returns the first path of a dependency line, which is the module's own. modules.dep(5).
///
/// A dependency line is a path, a `:`, and for each needed module a space and its path. A path
/// there is the path of a module without spaces, `:` and line ends. The result is `None` exactly if
/// the bytes aren't such a line.
pub fn line_path(line: &[u8]) -> Option<&[u8]>
    ensures { option_copied result ≡ line_path line.now }
{
    let (own, rest) = split_at_separator(line);
    if rest.is_empty() || rest[0] != b':' {
        return None;
    }
    if is_module_path(own) && are_paths(&rest[1..]) {
        Some(own)
    } else {
        None
    }
}

/// Returns the path with which a text begins, up to its first `:`, if it has one and a dependency
/// line can have this path. modules.dep(5).
pub fn own_path(text: &[u8]) -> Option<&[u8]>
    ensures { MatchOption result (has_own_path text.now ≡ false)
        (λ own. (has_own_path text.now ≡ true) × (own.now ≡ own_path text.now)) }
{
    let (own, rest) = split_at_separator(text);
    if rest.is_empty() || rest[0] != b':' {
        return None;
    }
    if is_module_path(own) { Some(own) } else { None }
}

/// Returns whether a text can be a path of a dependency line: it is the path of a module, without
/// spaces, `:` and line ends. modules.dep(5).
pub fn is_line_path(path: &[u8]) -> bool
    ensures { result ≡ is_line_path path.now }
{
    is_module_path(path) && !has_separator(path)
}

/// Returns whether a byte of a text separates paths of a line, or ends it.
fn has_separator(text: &[u8]) -> bool
    ensures { result ≡ list_any is_separator text.now }
{
    memchr3(b' ', b':', b'\n', text).is_some()
}

/// Returns the bytes before the first separator, and the rest, which begins with it.
fn split_at_separator(text: &[u8]) -> (&[u8], &[u8])
    ensures before { result.0.now ≡ before_first is_separator text.now }
    ensures rest { result.1.now ≡ drop (length result.0.now) text.now }
{
    match memchr3(b' ', b':', b'\n', text) {
        Some(place) => text.split_at(place),
        None => (text, &text[text.len()..]),
    }
}

/// Returns whether a text is a sequence of paths, maybe none, with a space before each.
fn are_paths(text: &[u8]) -> bool
    ensures { result ≡ are_needed (slice_split (λ b. b == 32) text.now) }
{
    let mut rest = text;
    while !rest.is_empty() {
        if rest[0] != b' ' {
            return false;
        }
        // If what follows the path isn't a space, the next round refuses it.
        let (path, after) = split_at_separator(&rest[1..]);
        if !is_module_path(path) {
            return false;
        }
        rest = after;
    }
    true
}
