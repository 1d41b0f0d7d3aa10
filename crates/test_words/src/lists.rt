// Lists and words.
use crate::same::{same, same_length, same_option};
use km_names::{Blob, Name, Names, PathText, Word};
use std::alloc::Global;
use std::process::Abort;

fn push_name(rt: &impl Abort, alloc: Global, names: &mut Names, text: &[u8]) {
    let name = Name::from_slice(alloc, text).expect(rt, "a name");
    names.push(name).expect(rt, "names");
}

/// Returns the bytes of a name of a list, if it is there.
fn bytes_at(names: &Names, place: usize) -> Option<&[u8]> {
    names.get(place).map(|name| name.as_bytes())
}

fn expect_names(rt: &impl Abort, alloc: Global) {
    let mut names = Names::new(alloc);
    assert!(rt; names.is_empty());
    push_name(rt, alloc, &mut names, b"fat");
    push_name(rt, alloc, &mut names, b"vfat");
    same_length(rt, names.len(), 2);
    same_option(rt, bytes_at(&names, 1), Some(b"vfat"));
    same_option(rt, bytes_at(&names, 2), None);
}

/// Returns a path that is put together of two pieces.
fn pieced(rt: &impl Abort, alloc: Global) -> PathText {
    let mut path = PathText::new(alloc);
    path.push(b'/').expect(rt, "a byte");
    path.extend(b"lib").expect(rt, "bytes");
    path
}

fn expect_bytes(rt: &impl Abort, alloc: Global) {
    let path = pieced(rt, alloc);
    same(rt, path.as_bytes(), b"/lib");
    assert!(rt; path.get(3).copied() == Some(b'b'));
    assert!(rt; path.get(4).is_none());
    let bytes = path.into_vec().expect(rt, "bytes");
    same_length(rt, Blob::from_vec(bytes).len(), 4);
}

fn expect_word(rt: &impl Abort, alloc: Global) {
    let word = Word::from_text(alloc, "größe").expect(rt, "a word");
    same(rt, word.as_str().as_bytes(), "größe".as_bytes());
    same_length(rt, word.len(), 7);
    same_length(rt, word.as_bytes().len(), 7);
}

#[test]
fn lists_and_words_are_made_and_read(rt: HostRuntime) {
    expect_names(&rt, rt.alloc());
    expect_bytes(&rt, rt.alloc());
    expect_word(&rt, rt.alloc());
}
