// Texts read line by line.
ghost use Rattle.std.specs.Prelude.{◌≡◌, IfOk, length};
ghost use Rattle.command_trial.specs.Summary.{dependencies_in, rests_of_lines};

use km_names::{first_line, split_at_byte, words};
use std::alloc::{AllocError, Global};

/// Returns how many lines of a text begin with `start`.
pub(crate) fn count_lines(text: &[u8], start: &[u8]) -> usize
    ensures { result ≡ length (rests_of_lines start.now text.now) }
{
    let mut count = 0;
    let mut left = text;
    while !left.is_empty() {
        let (line, next) = first_line(left);
        if line.strip_prefix(start).is_some() {
            count += 1;
        }
        left = next;
    }
    count
}

/// Returns how many paths there are after the colons of a modules.dep. modules.dep(5).
pub(crate) fn count_paths(alloc: Global, text: &[u8]) -> Result<usize, AllocError>
    ensures { IfOk result (λ count. count ≡ length (dependencies_in text.now)) }
{
    let mut count = 0;
    let mut left = text;
    while !left.is_empty() {
        let (line, next) = first_line(left);
        let (_, after) = split_at_byte(line, b':');
        count += words(alloc, after)?.len();
        left = next;
    }
    Ok(count)
}
