// What no clause says: with ample memory files are adopted and looked up.
ghost use Rattle.std.specs.Prelude.{◌≡◌, ◌<◌};

use index_read::{Index, Pairs, Steps, Values};
use index_write::{KeyMap, encode};
use km_names::Blob;
use std::alloc::{AllocError, Global};
use std::marker::Brand;
use std::process::Abort;
use std::sync::ledger::{Blank, Ledger};
use test_objects::{bytes_of, is_key, is_text};

/// Returns the bytes of these digits.
fn bytes(rt: &impl Abort, alloc: Global, digits: &str) -> Blob {
    bytes_of(alloc, digits).expect(rt, "digits")
}

/// Puts bytes at the end of a file.
fn put(rt: &impl Abort, file: &mut Blob, bytes: &[u8]) {
    file.extend(bytes).expect(rt, "bytes");
}

/// Returns a file of these digits, so many absent children, and more digits.
fn file_of(rt: &impl Abort, alloc: Global, start: &str, absent: usize, end: &str) -> Blob {
    let mut file = bytes(rt, alloc, start);
    for _ in 0..absent {
        put(rt, &mut file, &[0; 4]);
    }
    put(rt, &mut file, bytes(rt, alloc, end).as_bytes());
    file
}

fn adopted(rt: &impl Abort, alloc: Global, file: Blob) -> Index {
    Index::adopt(alloc, file).expect(rt, "an index")
}

/// Returns the keys "ask", "ate", "on", "once" and "one", with the priorities 0 to 4 and the text
/// "x".
fn five_keys(rt: &impl Abort, alloc: Global) -> Index {
    let file = file_of(
        rt,
        alloc,
        "b007f457 00020001 2000005e \
         6b00 00000001 00000000 7800 \
         6500 00000001 00000001 7800 \
         73 74 c000000c c0000018 \
         6500 00000001 00000003 7800 \
         00000001 00000004 7800 \
         6e00 63 65 c000002e 00000000 4000003a 00000001 00000002 7800 \
         61 6f 20000024",
        13,
        "e0000044",
    );
    adopted(rt, alloc, file)
}

/// Returns the pattern "a*" with "r" at 1 and "s" at 3, and "a?" with "q" at 1.
fn two_patterns(rt: &impl Abort, alloc: Global) -> Index {
    let file = file_of(
        rt,
        alloc,
        "b007f457 00020001 a0000026 \
         00000002 00000001 7200 00000003 7300 \
         00000001 00000001 7100 \
         6100 2a 3f 4000000c",
        20,
        "4000001c",
    );
    adopted(rt, alloc, file)
}

/// Adds a pattern to a map, with an empty text.
fn add_pattern(rt: &impl Abort, map: &mut KeyMap, (pattern, priority): (&str, u32)) {
    assert!(rt; is_key(pattern.as_bytes()));
    assert!(rt; is_text(b""));
    map.add(pattern.as_bytes(), priority, b"")
        .expect(rt, "a pattern");
}

/// Returns the patterns of the list.
fn patterns(rt: &impl Abort, alloc: Global) -> Index {
    let mut map = KeyMap::new(alloc);
    for pattern in &PATTERNS {
        add_pattern(rt, &mut map, *pattern);
    }
    adopted(rt, alloc, encode(alloc, &map).expect(rt, "a file"))
}

/// Returns "x*b" and "yb" with "v" at 0, whose prefixes end with one NUL.
fn shared_end(rt: &impl Abort, alloc: Global) -> Index {
    let file = bytes(
        rt,
        alloc,
        "b007f457 00020001 20000019 \
         2a6200 00000001 00000000 7600 \
         78 79 c000000c c000000d",
    );
    adopted(rt, alloc, file)
}

/// Puts a piece at the end of a text so many times.
fn put_often(rt: &impl Abort, text: &mut Blob, piece: &str, count: usize) {
    for _ in 0..count {
        put(rt, text, piece.as_bytes());
    }
}

/// Returns "[ab]c" 120 times after a "*", 119 times after a "?" and 118 times after an "x", with
/// "v" at 0. Their prefixes end with one NUL, and together have more bytes than the file.
fn long_shared_end(rt: &impl Abort, alloc: Global) -> Index {
    let mut file = bytes(rt, alloc, "b007f457 00020001 2000026f");
    put_often(rt, &mut file, "[ab]c", 120);
    let value = bytes(rt, alloc, "00 00000001 00000000 7600 2a 78");
    put(rt, &mut file, value.as_bytes());
    for byte in b'*'..=b'x' {
        let child: u32 = match byte {
            b'*' => 0xc000_000c,
            b'?' => 0xc000_0011,
            b'x' => 0xc000_0016,
            _ => 0,
        };
        put(rt, &mut file, &child.to_be_bytes());
    }
    adopted(rt, alloc, file)
}

/// Returns one key of so many bytes "a", each a node of its own, with an empty text at 0.
fn deep(rt: &impl Abort, alloc: Global, nodes: u32) -> Index {
    let mut below = Blob::new(alloc);
    let mut child: u32 = 0x4000_000c;
    for at in 0..nodes {
        put(rt, &mut below, b"aa");
        put(rt, &mut below, &child.to_be_bytes());
        child = 0x2000_0015 + 6 * (at % 10_000_000);
    }
    let mut file = bytes(rt, alloc, "b007f457 00020001");
    put(rt, &mut file, &child.to_be_bytes());
    put(
        rt,
        &mut file,
        bytes(rt, alloc, "00000001 00000000 00").as_bytes(),
    );
    put(rt, &mut file, below.as_bytes());
    adopted(rt, alloc, file)
}

/// Returns so many bytes "a".
fn letters(rt: &impl Abort, alloc: Global, count: usize) -> Blob {
    let mut text = Blob::new(alloc);
    for _ in 0..count {
        text.push(b'a').expect(rt, "a byte");
    }
    text
}

/// Returns each value as its priority and text.
fn written(alloc: Global, found: &Values) -> Result<Blob, AllocError> {
    let mut text = Blob::new(alloc);
    for value in found.as_slice() {
        text.push(b'0' + (value.priority % 10) as u8)?;
        text.extend(value.text.as_bytes())?;
        text.push(b' ')?;
    }
    Ok(text)
}

/// Returns each pair as its key, priority and text.
fn written_pairs(alloc: Global, found: &Pairs) -> Result<Blob, AllocError> {
    let mut text = Blob::new(alloc);
    for pair in found.as_slice() {
        text.extend(pair.key.as_bytes())?;
        text.push(b'0' + (pair.value.priority % 10) as u8)?;
        text.extend(pair.value.text.as_bytes())?;
        text.push(b' ')?;
    }
    Ok(text)
}

// Each lookup is in a function of its own that promises nothing.

/// Returns the values of a key.
fn find<L: Ledger>(
    rt: &impl Abort,
    alloc: Global,
    index: &Index,
    key: &[u8],
    steps: &mut Steps<L>,
) -> Blob {
    let found = index.find(alloc, key, steps).expect(rt, "values");
    written(alloc, &found).expect(rt, "a text")
}

/// Returns the priority and the text of the first value of a key.
fn find_one<'a, L: Ledger>(
    index: &'a Index,
    key: &[u8],
    steps: &mut Steps<L>,
) -> Option<(u32, &'a [u8])> {
    let place = index.find_one(key, steps)?;
    Some((place.priority(), index.text(&place)))
}

/// Returns the values of the keys that a text matches.
fn wild<L: Ledger>(
    rt: &impl Abort,
    alloc: Global,
    index: &Index,
    text: &[u8],
    steps: &mut Steps<L>,
) -> Blob {
    let found = index.wild(alloc, text, steps).expect(rt, "values");
    written(alloc, &found).expect(rt, "a text")
}

/// Returns all pairs.
fn all<L: Ledger>(rt: &impl Abort, alloc: Global, index: &Index, steps: &mut Steps<L>) -> Blob {
    let found = index.all(alloc, steps).expect(rt, "pairs");
    written_pairs(alloc, &found).expect(rt, "a text")
}

/// Keys, and their values among five.
static KEYS: [(&str, &str); 6] = [
    ("once", "3x "),
    ("on", "2x "),
    ("onc", ""),
    ("asp", ""),
    ("b", ""),
    ("", ""),
];

/// Texts, and the values of the patterns that they match.
static TEXTS: [(&str, &str); 5] = [
    ("ab", "1r 1q 3s "),
    ("abc", "1r 3s "),
    ("a", "1r 3s "),
    ("ba", ""),
    ("", ""),
];

/// Patterns with their priorities. Nodes split their sets and their runs of `*`, and one has a set
/// that isn't closed.
static PATTERNS: [(&str, u32); 10] = [
    ("[a-c]x", 0),
    ("[a-z]x", 1),
    ("[a]x", 2),
    ("[!a]x", 3),
    ("[ab", 4),
    ("**", 5),
    ("*?*b", 6),
    ("a**b", 7),
    ("[-]x", 8),
    ("[]x", 9),
];

/// Texts, and the priorities of those patterns that they match.
static BORDERS: [(&str, &str); 9] = [
    ("ax", "0 1 2 5 "),
    ("bx", "0 1 3 5 "),
    ("dx", "1 3 5 "),
    ("-x", "3 5 8 "),
    ("ab", "5 6 7 "),
    ("b", "5 "),
    ("", "5 "),
    (
        "qqqqqqqqqqqqqqqqqqqqqqqqqqqqqqqqqqqqqqqqqqqqqqqqqqqqqqqqqqqqqqqqqqqqqqqb",
        "5 6 ",
    ),
    (
        "abbbbbbbbbbbbbbbbbbbbbbbbbbbbbbbbbbbbbbbbbbbbbbbbbbbbbbbbbbbbbbb",
        "5 6 7 ",
    ),
];

/// Texts, and the values of the patterns "x*b" and "yb" that they match.
static SHARED: [(&str, &str); 4] = [("xb", "0v "), ("xqb", "0v "), ("yb", "0v "), ("yqb", "")];

/// Texts, each by its first byte and by what follows so many times, and the values of the long
/// patterns that they match.
static LONG_SHARED: [(&str, &str, usize, &str); 6] = [
    ("x", "ac", 118, "0v "),
    ("x", "bc", 118, "0v "),
    ("x", "ac", 117, ""),
    ("x", "cc", 118, ""),
    ("q", "ac", 119, "0v "),
    ("q", "bc", 120, "0v "),
];

fn same(rt: &impl Abort, got: &[u8], want: &[u8]) {
    assert_eq!(rt; got, want);
}

fn same_for(rt: &impl Abort, name: &str, got: &[u8], want: &[u8]) {
    assert_eq!(rt; got, want, "{name}");
}

fn same_first(rt: &impl Abort, got: Option<(u32, &[u8])>, want: Option<(u32, &[u8])>) {
    assert_eq!(rt; got, want);
}

/// Looks up a key of five in both ways.
fn look_up_key<L: Ledger>(
    rt: &impl Abort,
    alloc: Global,
    index: &Index,
    (key, want): (&str, &str),
    steps: &mut Steps<L>,
) {
    let got = find(rt, alloc, index, key.as_bytes(), steps);
    same_for(rt, key, got.as_bytes(), want.as_bytes());
    let first = find_one(index, key.as_bytes(), steps);
    assert!(rt; first.is_none() == want.is_empty(), "{key}");
}

/// Looks up keys of five, one by one and all.
fn look_up<L: Ledger>(rt: &impl Abort, alloc: Global, steps: &mut Steps<L>) {
    let index = five_keys(rt, alloc);
    for row in &KEYS {
        look_up_key(rt, alloc, &index, *row, steps);
    }
    same_first(rt, find_one(&index, b"once", steps), Some((3, b"x")));
    let pairs = all(rt, alloc, &index, steps);
    same(rt, pairs.as_bytes(), b"ask0x ate1x on2x once3x one4x ");
}

/// Looks up the patterns that match a text.
fn match_patterns<L: Ledger>(rt: &impl Abort, alloc: Global, steps: &mut Steps<L>) {
    let index = two_patterns(rt, alloc);
    for (text, want) in &TEXTS {
        let got = wild(rt, alloc, &index, text.as_bytes(), steps);
        same_for(rt, text, got.as_bytes(), want.as_bytes());
    }
}

/// Looks up the patterns that match a text, where nodes split them or share their ends.
fn match_borders<L: Ledger>(rt: &impl Abort, alloc: Global, steps: &mut Steps<L>) {
    let index = patterns(rt, alloc);
    for (text, want) in &BORDERS {
        let got = wild(rt, alloc, &index, text.as_bytes(), steps);
        same_for(rt, text, got.as_bytes(), want.as_bytes());
    }
    let shared = shared_end(rt, alloc);
    for (text, want) in &SHARED {
        let got = wild(rt, alloc, &shared, text.as_bytes(), steps);
        same_for(rt, text, got.as_bytes(), want.as_bytes());
    }
}

/// Looks up long texts, where long prefixes share their end.
fn match_long_ends<L: Ledger>(rt: &impl Abort, alloc: Global, steps: &mut Steps<L>) {
    let index = long_shared_end(rt, alloc);
    for (first, piece, count, want) in &LONG_SHARED {
        let mut text = Blob::new(alloc);
        put(rt, &mut text, first.as_bytes());
        put_often(rt, &mut text, piece, *count);
        let got = wild(rt, alloc, &index, text.as_bytes(), steps);
        same_for(rt, piece, got.as_bytes(), want.as_bytes());
    }
}

/// Looks up the one key of a deep index, and the text before it.
fn look_deep<L: Ledger>(rt: &impl Abort, alloc: Global, steps: &mut Steps<L>) {
    let index = deep(rt, alloc, 1_000_000);
    let key = letters(rt, alloc, 1_000_000);
    let less = letters(rt, alloc, 999_999);
    same_first(rt, find_one(&index, key.as_bytes(), steps), Some((0, b"")));
    same_first(rt, find_one(&index, less.as_bytes(), steps), None);
    let matched = wild(rt, alloc, &index, key.as_bytes(), steps);
    same(rt, matched.as_bytes(), b"0 ");
    let none = wild(rt, alloc, &index, less.as_bytes(), steps);
    same(rt, none.as_bytes(), b"");
    let pairs = all(rt, alloc, &index, steps);
    assert!(rt; pairs.len() == 1_000_002);
}

/// Looks up keys, patterns and a deep key, with one ledger of steps.
fn look<L: Ledger>(rt: &impl Abort, alloc: Global, blank: Blank)
    requires name { blank.name ≡ L.name }
    requires parts { blank.parts ≡ L.parts }
    requires some { 0 < blank.parts }
{
    let mut steps = Steps::<L>::new(blank);
    look_up(rt, alloc, &mut steps);
    match_patterns(rt, alloc, &mut steps);
    match_borders(rt, alloc, &mut steps);
    match_long_ends(rt, alloc, &mut steps);
    look_deep(rt, alloc, &mut steps);
}

#[test]
fn keys_and_patterns_are_looked_up(rt: HostRuntime) {
    look::<Brand>(&rt, rt.alloc(), Blank::new(1));
}
