//! Comparisons, each in a function of its own, so that what it is made of isn't carried through
//! every test.
use std::process::Abort;

/// Stops unless these are the same bytes.
pub fn same(rt: &impl Abort, got: &[u8], want: &[u8]) {
    assert_eq!(rt; got, want);
}

/// Stops unless these are the same bytes, or there are none.
pub fn same_option(rt: &impl Abort, got: Option<&[u8]>, want: Option<&[u8]>) {
    assert_eq!(rt; got, want);
}

/// Stops unless these are the same number.
pub fn same_number(rt: &impl Abort, got: u64, want: u64) {
    assert_eq!(rt; got, want);
}

/// Stops unless these are the same length.
pub fn same_length(rt: &impl Abort, got: usize, want: usize) {
    assert_eq!(rt; got, want);
}

/// Stops unless these are the same answer.
pub fn same_answer(rt: &impl Abort, got: bool, want: bool) {
    assert_eq!(rt; got, want);
}
