// The bytes that a set in brackets has.
ghost use Rattle.std.specs.Prelude.{◌≡◌, ◌↔◌, ◌<◌, [], IsTrue, MatchOption};
ghost use Rattle.glob_match.specs.Front.{BeginsWith};
ghost use Rattle.glob_pattern.specs.Pattern.{Has, Lists};

/// Returns whether a set has the byte, by the bytes between its brackets.
pub(crate) fn has(inside: &[u8], byte: u8) -> bool
    ensures { IsTrue result ↔ Has inside.now byte }
{
    if !inside.is_empty() && inside[0] == b'!' {
        !lists(&inside[1..], byte)
    } else {
        lists(inside, byte)
    }
}

/// Returns whether the items of a set list the byte.
fn lists(items: &[u8], byte: u8) -> bool
    ensures { IsTrue result ↔ Lists items.now byte }
{
    let mut rest = items;
    while let Some((low, high, after)) = first_range(rest) {
        if low <= byte && byte <= high {
            return true;
        }
        rest = after;
    }
    false
}

/// Returns the first range of a set's items, from its lowest to its highest byte, and the items
/// after it. A single byte is the range from itself to itself. The result is `None` if there is no
/// item.
fn first_range(items: &[u8]) -> Option<(u8, u8, &[u8])>
    ensures { MatchOption result (items.now ≡ []) (λ r. BeginsWith items.now r.0 r.1 r.2.now) }
{
    if items.len() >= 3 && items[1] == b'-' {
        Some((items[0], items[2], &items[3..]))
    } else if items.is_empty() {
        None
    } else {
        Some((items[0], items[0], &items[1..]))
    }
}
