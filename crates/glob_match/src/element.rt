ghost use Rattle.std.specs.Prelude.{◌↔◌, ◌∷◌, ℕ, List, IsTrue, MatchOption, Contains};
ghost use Rattle.glob_match.specs.Front.{Closes, IsFirst, IsMet};
ghost use Rattle.glob_pattern.specs.Pattern.{Matches, closing};

use crate::set::has;

/// One element of a pattern.
#[derive(Clone, Copy)]
pub(crate) enum Element<'p> {
    /// `*`: any run of bytes, also the empty one.
    Run,
    /// `?`: any one byte.
    Any,
    /// One byte of a set, by the bytes between its brackets.
    Set(&'p [u8]),
    /// Any other byte, which matches itself.
    Byte(u8),
}

impl Element<'_> {
    /// Returns whether the element matches exactly this one byte, whatever follows. A run matches
    /// no single byte.
    pub(crate) fn is_met(&self, byte: u8) -> bool
        ensures { IsTrue result ↔ IsMet self.now byte }
    {
        match self {
            Element::Run => false,
            Element::Any => true,
            Element::Set(inside) => has(inside, byte),
            Element::Byte(own) => byte == *own,
        }
    }
}

/// Returns the element that a pattern begins with, and the pattern after that element. The pattern
/// is a first byte and the bytes after it. The result is `None` if the element is a set that no
/// bracket closes.
#[tactic(auto, using(crate::proofs::Rules::unclosed))]
pub(crate) fn first_element(first: u8, after: &[u8]) -> Option<(Element<'_>, &[u8])>
    ensures { MatchOption result ((text : List ℕ) → Matches (first ∷ after.now) text → ⊥)
        (λ r. IsFirst (first ∷ after.now) r.0 r.1.now) }
{
    match first {
        b'*' => Some((Element::Run, after)),
        b'?' => Some((Element::Any, after)),
        b'[' => {
            let (inside, after) = split_set(after)?;
            Some((Element::Set(inside), after))
        }
        byte => Some((Element::Byte(byte), after)),
    }
}

/// Returns the inside of a set and what follows its closing bracket. `bytes` begins after the
/// opening one. The result is `None` if no bracket closes the set.
fn split_set(bytes: &[u8]) -> Option<(&[u8], &[u8])>
    ensures { MatchOption result (Contains bytes.now closing → ⊥)
        (λ r. Closes bytes.now r.0.now r.1.now) }
{
    let end = bytes.iter().position(|byte| *byte == b']')?;
    Some((&bytes[..end], &bytes[end + 1..]))
}
