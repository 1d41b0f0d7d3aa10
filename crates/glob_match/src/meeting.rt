ghost use Rattle.glob_match.specs.Front.{IsMeeting};

use crate::element::{Element, first_element};

/// How the first element of a pattern matches the front of a text.
#[derive(Clone, Copy)]
pub(crate) enum Meeting<'p, 't> {
    /// The pattern and the text are both at their end.
    End,
    /// A run comes first, with this pattern after it.
    Skips(&'p [u8]),
    /// The first element matches the first byte, and these are the pattern and the text after them.
    Takes(&'p [u8], &'t [u8]),
    /// The pattern doesn't match this text. It may match an end of it.
    Mismatch,
    /// A set isn't closed, so the pattern matches nothing.
    Unclosed,
}

/// Returns how the first element of the pattern matches the front of the text.
pub(crate) fn meet<'p, 't>(pattern: &'p [u8], text: &'t [u8]) -> Meeting<'p, 't>
    ensures { IsMeeting pattern.now text.now result }
{
    let Some((first, after)) = pattern.split_first() else {
        return if text.is_empty() {
            Meeting::End
        } else {
            Meeting::Mismatch
        };
    };
    let Some((element, after)) = first_element(*first, after) else {
        return Meeting::Unclosed;
    };
    if let Element::Run = element {
        return Meeting::Skips(after);
    }
    match text.split_first() {
        Some((byte, rest)) if element.is_met(*byte) => Meeting::Takes(after, rest),
        _ => Meeting::Mismatch,
    }
}
