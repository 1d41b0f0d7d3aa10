// The sets of a pattern that is read byte by byte: whether one is open, and its last bytes.
ghost use Rattle.std.specs.Prelude.{◌≡◌, IfSome};
ghost use Rattle.glob_match.specs.declared.place.Place.TheVariants.{Inside};
ghost use Rattle.glob_match.specs.declared.place.Pending.TheVariants.{Low};

/// Where a pattern that is read byte by byte ends so far.
#[derive(Clone, Copy)]
pub enum Place {
    /// Outside of any set.
    Outside,
    /// Right after the bracket that opens a set.
    Opened,
    /// In a set, after a first `!` or not, with the items that may still begin a range.
    Inside(bool, Pending),
}

/// The last bytes of a set, as far as the bytes to come decide what they are.
#[derive(Clone, Copy)]
pub enum Pending {
    /// There are none.
    Nothing,
    /// A byte, which may be the low end of a range.
    Low(u8),
    /// A byte and a `-` after it.
    Dash(u8),
}

/// Returns whether the open set is negated, and its last byte, if that may begin a range.
pub(crate) fn last_low(place: Place) -> Option<(bool, u8)>
    ensures { IfSome result (λ r. place ≡ Inside r.0 (Low r.1)) }
{
    let Place::Inside(negated, pending) = place else {
        return None;
    };
    let Pending::Low(low) = pending else {
        return None;
    };
    Some((negated, low))
}
