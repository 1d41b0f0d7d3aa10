//! Comparisons, each in a function of its own, so that what it is made of isn't carried through
//! every test.
ghost use Rattle.std.specs.Prelude.{◌≡◌, true};

use std::alloc::Global;
use std::fmt::Debug;
use std::process::Abort;

/// Stops unless this is so.
pub fn holds(rt: &impl Abort, is_so: bool)
    ensures { is_so ≡ true }
{
    assert!(rt; is_so);
}

/// Stops unless these are the same bytes.
pub fn same(rt: &impl Abort, got: &[u8], want: &[u8]) {
    assert_eq!(rt; got, want);
}

/// Stops unless these are the same bytes, or there are none.
pub fn same_option(rt: &impl Abort, got: Option<&[u8]>, want: Option<&[u8]>) {
    assert_eq!(rt; got, want);
}

/// Stops unless a value is shown as this text, which has its fields by their names. What it is
/// shown as is then the message. It drops the value.
pub fn shown<T: Debug + Drop>(rt: &impl Abort, alloc: Global, got: T, want: &str) {
    let text = format!(in alloc; "{got:?}").expect(rt, "a text");
    let is_same = text.as_str() == want;
    is_same.then_some(()).expect(rt, text.as_str());
}
