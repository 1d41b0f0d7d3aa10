// What no clause says: with ample memory a file is made, and it has the bytes that were written by
// hand from the format.
use index_write::{KeyMap, encode};
use km_names::Blob;
use std::alloc::Global;
use std::process::Abort;
use test_objects::{bytes_of, is_key, is_text};

/// Adds a value to a map.
fn add(rt: &impl Abort, map: &mut KeyMap, (key, priority, text): (&str, u32, &str)) {
    assert!(rt; is_key(key.as_bytes()));
    assert!(rt; is_text(text.as_bytes()));
    map.add(key.as_bytes(), priority, text.as_bytes())
        .expect(rt, "added");
}

/// Returns the file of a map of these keys, priorities and texts, added in this order.
fn file_of(rt: &impl Abort, alloc: Global, values: &[(&str, u32, &str)]) -> Blob {
    let mut map = KeyMap::new(alloc);
    for value in values {
        add(rt, &mut map, *value);
    }
    encode(alloc, &map).expect(rt, "a file")
}

/// A name, values with their keys and priorities, and the file: its start, so many absent children
/// of four zero bytes each, and its end.
type FileRow = (
    &'static str,
    &'static [(&'static str, u32, &'static str)],
    &'static str,
    usize,
    &'static str,
);

/// Maps and their files.
static FILES: [FileRow; 7] = [
    ("no key", &[], "0000000c", 0, ""),
    (
        "the empty key",
        &[("", 1, "r")],
        "4000000c 00000001 00000001 7200",
        0,
        "",
    ),
    (
        "one key",
        &[("ab", 7, "t")],
        "20000018 6200 00000001 00000007 7400 61 61 c000000c",
        0,
        "",
    ),
    (
        "two modules",
        &[
            ("b", 1, "kernel/b.ko: kernel/a.ko"),
            ("a", 0, "kernel/a.ko:"),
        ],
        "20000042 \
         00000001 00000000 6b65726e656c2f612e6b6f3a 00 \
         00000001 00000001 6b65726e656c2f622e6b6f3a206b65726e656c2f612e6b6f 00 \
         61 62 4000000c 40000021",
        0,
        "",
    ),
    (
        "keys that begin others",
        &[
            ("ask", 0, "x"),
            ("ate", 1, "x"),
            ("on", 2, "x"),
            ("once", 3, "x"),
            ("one", 4, "x"),
        ],
        "2000005e \
         6b00 00000001 00000000 7800 \
         6500 00000001 00000001 7800 \
         73 74 c000000c c0000018 \
         6500 00000001 00000003 7800 \
         00000001 00000004 7800 \
         6e00 63 65 c000002e 00000000 4000003a 00000001 00000002 7800 \
         61 6f 20000024",
        13,
        "e0000044",
    ),
    (
        "values of one key, an empty text among them",
        &[("a", 5, "p"), ("a", 3, "q"), ("a", 5, "r"), ("a", 3, "")],
        "20000027 \
         00000004 00000003 7100 00000003 00 00000005 7000 00000005 7200 \
         61 61 4000000c",
        0,
        "",
    ),
    (
        "the least and the greatest byte",
        &[("\x7f", 0, ""), ("\x01", 0, "")],
        "2000001e 00000001 00000000 00 00000001 00000000 00 01 7f 4000000c",
        125,
        "40000015",
    ),
];

/// Puts the bytes of digits at the end of a file.
fn put(rt: &impl Abort, alloc: Global, file: &mut Blob, digits: &str) {
    let bytes = bytes_of(alloc, digits).expect(rt, "digits");
    file.extend(bytes.as_bytes()).expect(rt, "bytes");
}

/// Returns the bytes of a file.
fn wanted(rt: &impl Abort, alloc: Global, start: &str, absent: usize, end: &str) -> Blob {
    let mut want = Blob::new(alloc);
    put(rt, alloc, &mut want, "b007f457 00020001");
    put(rt, alloc, &mut want, start);
    for _ in 0..absent {
        put(rt, alloc, &mut want, "00000000");
    }
    put(rt, alloc, &mut want, end);
    want
}

/// Compares the file of a row.
fn expect_file(rt: &impl Abort, alloc: Global, row: &FileRow) {
    let (name, values, start, absent, end) = row;
    let file = file_of(rt, alloc, values);
    let want = wanted(rt, alloc, start, *absent, end);
    assert_eq!(rt; file.as_bytes(), want.as_bytes(), "{name}");
}

#[test]
fn maps_have_their_files(rt: HostRuntime) {
    for row in &FILES {
        expect_file(&rt, rt.alloc(), row);
    }
}
