// The match of a whole text, which takes no memory.
ghost use Rattle.std.specs.Prelude.{◌≡◌, ◌↔◌, IsTrue};
ghost use Rattle.glob_match.specs.Decision.{is_match};
ghost use Rattle.glob_pattern.specs.Pattern.{Matches};

use crate::meeting::{Meeting, meet};

/// Returns whether the whole text matches the pattern. It takes no memory.
///
/// fnmatch(3) and glob(7) describe the patterns. There are no escapes and no classes of characters,
/// and no byte of the text is special. `*` is any run of bytes and `?` any one byte. `[..]` is one
/// byte of a set, and `[!..]` one byte outside it. Any other byte is itself.
pub fn matches(pattern: &[u8], text: &[u8]) -> bool
    ensures related { IsTrue result ↔ Matches pattern.now text.now }
    ensures test { result ≡ is_match pattern.now text.now }
{
    search(pattern, text)
}

/// Returns whether the text matches. If a byte doesn't fit, goes back to the last `*`.
fn search(pattern: &[u8], text: &[u8]) -> bool
    ensures { IsTrue result ↔ Matches pattern.now text.now }
{
    let mut rest = pattern;
    let mut left = text;
    // The two places to go back to: the pattern after its last `*` so far, and the end of the text
    // that it was last tried on. An earlier `*` needn't take more bytes, since the last one can
    // take them too.
    let mut retry: Option<(&[u8], &[u8])> = None;
    loop {
        match meet(rest, left) {
            Meeting::End => return true,
            Meeting::Unclosed => return false,
            Meeting::Skips(after) => {
                retry = Some((after, left));
                rest = after;
            }
            Meeting::Takes(after, tail) => {
                rest = after;
                left = tail;
            }
            Meeting::Mismatch => {
                let Some((after, tried)) = retry else {
                    return false;
                };
                let Some((_, tail)) = tried.split_first() else {
                    return false;
                };
                retry = Some((after, tail));
                rest = after;
                left = tail;
            }
        }
    }
}
