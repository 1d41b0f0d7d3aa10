//! Comparisons, each in a function of its own, so that what it is made of isn't carried through
//! every test.
ghost use Rattle.std.specs.Prelude.{◌≡◌, true};

use std::process::Abort;

/// Stops unless this is so.
pub fn holds(rt: &impl Abort, is_so: bool)
    ensures { is_so ≡ true }
{
    assert!(rt; is_so);
}

/// Stops unless these are the same bytes.
pub fn same(rt: &impl Abort, got: &[u8], want: &[u8]) {
    assert_eq!(rt; got, want);
}
