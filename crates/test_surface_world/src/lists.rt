//! Lists that tests hand to calls.

use km_names::{List, Name, Names, PathText, Word};
use std::alloc::Global;
use std::process::Abort;

/// Returns a list of these names, put in one by one.
pub(crate) fn names(rt: &impl Abort, alloc: Global, texts: &[&[u8]]) -> Names {
    let mut list = Names::new(alloc);
    for text in texts {
        let name = Name::from_slice(alloc, text).expect(rt, "a name");
        list.push(name).expect(rt, "names");
    }
    list
}

/// Returns a path, put together byte by byte.
pub(crate) fn path(rt: &impl Abort, alloc: Global, text: &[u8]) -> PathText {
    let mut path = PathText::new(alloc);
    for byte in text {
        path.push(*byte).expect(rt, "a byte");
    }
    path
}

/// Returns the words of a text, with one space between each and the next.
pub(crate) fn words(rt: &impl Abort, alloc: Global, text: &str) -> List<Word> {
    let mut list = List::new(alloc);
    for part in text.split(' ') {
        let word = Word::from_text(alloc, part).expect(rt, "a word");
        list.push(word).expect(rt, "words");
    }
    list
}
