//! Lists that tests hand to calls.

use km_names::{Blob, Texts};
use std::alloc::Global;
use std::process::Abort;

/// Returns a list of these texts, put in one by one.
pub(crate) fn texts(rt: &impl Abort, alloc: Global, rows: &[&[u8]]) -> Texts {
    let mut list = Texts::new(alloc);
    for row in rows {
        let text = Blob::from_slice(alloc, row).expect(rt, "bytes");
        list.push(text).expect(rt, "texts");
    }
    list
}
