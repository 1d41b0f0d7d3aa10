//! Lists that tests hand to calls.

use km_names::{Name, Names, PathText, Paths};
use std::alloc::Global;
use std::process::Abort;

/// Returns a list of these names, put in one by one.
pub fn names(rt: &impl Abort, alloc: Global, texts: &[&[u8]]) -> Names {
    let mut list = Names::new(alloc);
    for text in texts {
        let name = Name::from_slice(alloc, text).expect(rt, "a name");
        list.push(name).expect(rt, "names");
    }
    list
}

/// Returns a list of these paths, put in one by one.
pub fn paths(rt: &impl Abort, alloc: Global, texts: &[&[u8]]) -> Paths {
    let mut list = Paths::new(alloc);
    for text in texts {
        list.push(path(rt, alloc, text)).expect(rt, "paths");
    }
    list
}

/// Returns a path.
pub fn path(rt: &impl Abort, alloc: Global, text: &[u8]) -> PathText {
    PathText::from_slice(alloc, text).expect(rt, "a path")
}
