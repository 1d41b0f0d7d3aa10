// Patterns with wildcards.
ghost use Rattle.std.specs.Prelude.{◌≡◌, ◌++◌, false, MatchOption};
ghost use Rattle.std.specs.List.{list_any};
ghost use Rattle.glob_match.specs.Decision.{is_match};
ghost use Rattle.name_lookup.specs.Wildcards.{is_wildcard, IsSplit};

use glob_match::matches;

/// An alias whose pattern has a wildcard, by its place among the rules.
#[derive(Clone, Copy)]
pub(crate) struct WildAlias<'a> {
    pub(crate) place: usize,
    /// The part of the pattern before its first wildcard.
    pub(crate) front: &'a [u8],
    /// The pattern from its first wildcard on.
    pub(crate) rest: &'a [u8],
    pub(crate) name: &'a [u8],
    ghost plain_front: { list_any is_wildcard front.now ≡ false },
}

impl WildAlias<'_> {
    /// Returns whether the pattern matches a name. The plain bytes that it begins with are compared
    /// first.
    pub(crate) fn matches(&self, name: &[u8]) -> bool
        ensures { result ≡ is_match (self.now.front.now ++ self.now.rest.now) name.now }
    {
        match name.strip_prefix(self.front) {
            Some(tail) => matches(self.rest, tail),
            None => false,
        }
    }
}

/// Splits a pattern at its first wildcard, if it has one: what comes before it, and the pattern
/// from there on.
pub(crate) fn split_at_wildcard(pattern: &[u8]) -> Option<(&[u8], &[u8])>
    ensures { MatchOption result (list_any is_wildcard pattern.now ≡ false)
        (λ parts. IsSplit pattern.now parts.0.now parts.1.now) }
{
    for (place, byte) in pattern.iter().enumerate() {
        if is_wildcard(*byte) {
            return Some(pattern.split_at(place));
        }
    }
    None
}

/// Returns whether a byte of a pattern is a wildcard or opens a set. Every other byte is itself.
/// glob(7).
fn is_wildcard(byte: u8) -> bool
    ensures { result ≡ is_wildcard byte }
{
    byte == b'*' || byte == b'?' || byte == b'['
}
