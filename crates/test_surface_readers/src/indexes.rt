//! Patterns, and index files: written, read node by node, and looked up.
ghost use Rattle.std.specs.Prelude.{◌≡◌, ◌<◌};

use crate::same::{holds, same, shown};
use glob_match::matches;
use index_nodes::{IndexFault, Nodes};
use index_read::{FirstWalk, Index, Pairs, Steps, Values, distinct_texts};
use index_write::{KeyMap, encode};
use km_names::Blob;
use std::alloc::{AllocError, Global};
use std::marker::Brand;
use std::process::Abort;
use std::sync::ledger::{Blank, Ledger};
use test_objects::{is_key, is_text};

/// The file of five keys, `ask`, `ate`, `on`, `once` and `one`, each with its place as the priority
/// and the text `x`.
static FIVE_KEYS: &[u8] = b"\xb0\x07\xf4\x57\0\x02\0\x01\x20\0\0\x5e\
    k\0\0\0\0\x01\0\0\0\0x\0\
    e\0\0\0\0\x01\0\0\0\x01x\0\
    st\xc0\0\0\x0c\xc0\0\0\x18\
    e\0\0\0\0\x01\0\0\0\x03x\0\
    \0\0\0\x01\0\0\0\x04x\0\
    n\0ce\xc0\0\0\x2e\0\0\0\0\x40\0\0\x3a\0\0\0\x01\0\0\0\x02x\0\
    ao\x20\0\0\x24\0\0\0\0\0\0\0\0\0\0\0\0\0\0\0\0\0\0\0\0\0\0\0\0\0\0\0\0\
    \0\0\0\0\0\0\0\0\0\0\0\0\0\0\0\0\0\0\0\0\0\0\0\0\xe0\0\0\x44";

/// Patterns and texts, and whether they match.
static PATTERNS: [(&[u8], &[u8], bool); 8] = [
    (b"*", b"", true),
    (b"a[b", b"a[b", false),
    (b"[]x", b"x", false),
    (b"[!]", b"x", true),
    (b"[a-]", b"-", true),
    (b"[c-a]", b"b", false),
    (b"*a*b", b"xaab", true),
    (b"?", b"", false),
];

fn patterns_match_texts(rt: &impl Abort) {
    for (pattern, text, want) in &PATTERNS {
        holds(rt, matches(pattern, text) == *want);
    }
}

/// Puts a key with its text into a map.
fn add(rt: &impl Abort, map: &mut KeyMap, key: &[u8], place: u32, text: &[u8]) {
    holds(rt, is_key(key));
    holds(rt, is_text(text));
    map.add(key, place, text).expect(rt, "added");
}

/// Returns the file of some keys with their texts, each with its place as the priority.
fn file_of(rt: &impl Abort, alloc: Global, pairs: &[(&[u8], &[u8])]) -> Blob {
    let mut map = KeyMap::new(alloc);
    let mut place = 0;
    for (key, text) in pairs {
        add(rt, &mut map, key, place, text);
        place = place.wrapping_add(1);
    }
    encode(alloc, &map).expect(rt, "a file")
}

/// The file of no key.
static NO_KEYS: &[u8] = b"\xb0\x07\xf4\x57\0\x02\0\x01\0\0\0\x0c";

/// Five keys with their texts.
static FIVE: [(&[u8], &[u8]); 5] = [
    (b"ask", b"x"),
    (b"ate", b"x"),
    (b"on", b"x"),
    (b"once", b"x"),
    (b"one", b"x"),
];

fn keys_are_written(rt: &impl Abort, alloc: Global) {
    let none = file_of(rt, alloc, &[]);
    same(rt, none.as_bytes(), NO_KEYS);
    let five = file_of(rt, alloc, &FIVE);
    same(rt, five.as_bytes(), FIVE_KEYS);
}

/// Files that are no index, with the refusal and its text.
static BAD_FILES: [(&[u8], &str); 4] = [
    (
        b"\xb0\x07\xf4\x57\0\x02\0\x01\x20\0\0\x0c\
            aa\x40\0\0\x12\
            \0\0\0\x01\0\0\0\0x\0",
        r#"(BadNode { offset: 18 }, Ok("bad index node at 18"))"#,
    ),
    (
        b"\xb0\x07\xf4\x57\0\x02\0\x01\x20\0\0\x16\
            \0\0\0\x01\0\0\0\0x\0\
            ab\x40\0\0\x0c\x40\0\0\x0c",
        r#"(Revisited { offset: 12 }, Ok("index node twice at 12"))"#,
    ),
    (
        b"\xb0\x07\xf4\x57\0\x02\0\0\0\0\0\x0c",
        r#"(BadVersion, Ok("bad index version"))"#,
    ),
    (b"\xb0\x07\xf4", r#"(BadMagic, Ok("bad index magic"))"#),
];

/// Adopts the nodes of a file.
fn adopted_nodes(rt: &impl Abort, alloc: Global, file: &[u8]) -> Result<Nodes, IndexFault> {
    let file = Blob::from_slice(alloc, file).expect(rt, "bytes");
    Nodes::adopt(alloc, file)
}

fn bad_files_are_refused(rt: &impl Abort, alloc: Global) {
    for (file, want) in &BAD_FILES {
        let refused = adopted_nodes(rt, alloc, file).err();
        let fault = refused.expect(rt, "a refusal");
        shown(rt, alloc, (fault, fault.text(alloc)), want);
    }
}

/// Reads nodes of the five keys.
fn read_nodes<L: Ledger>(rt: &impl Abort, alloc: Global, steps: &mut Steps<L>) {
    let nodes = adopted_nodes(rt, alloc, FIVE_KEYS).expect(rt, "an index");
    read_root(rt, &nodes, steps);
    drop(nodes);
}

/// Reads the root of the five keys, and the node below it for `o`, which has a value and two
/// children.
fn read_root<L: Ledger>(rt: &impl Abort, nodes: &Nodes, steps: &mut Steps<L>) {
    let root = nodes.node(&nodes.root(), steps);
    same(rt, nodes.prefix(&root), b"");
    holds(rt, nodes.first_value(&root).is_none());
    holds(rt, nodes.child(&root, b'b').is_none());
    let below = nodes.child(&root, b'o').expect(rt, "a child");
    let on = nodes.node(&below, steps);
    same(rt, nodes.prefix(&on), b"n");
    holds(rt, nodes.child(&on, b'e').is_some());
    let place = nodes.first_value(&on).expect(rt, "a value");
    holds(rt, place.priority() == 2);
    same(rt, nodes.text(&place), b"x");
    holds(rt, nodes.next_value(&place).is_none());
    holds(rt, place.start() == 88);
    let run = nodes.run(&place);
    holds(rt, run.start() == 88);
    holds(rt, run.end() == 94);
    holds(rt, nodes.join(&run, &run).is_none());
    holds(rt, nodes.value_after(&place, &run).is_none());
}

/// Adopts an index that is none of the bad ones.
fn adopt(rt: &impl Abort, alloc: Global, file: &[u8]) -> Index {
    let file = Blob::from_slice(alloc, file).expect(rt, "bytes");
    Index::adopt(alloc, file).expect(rt, "an index")
}

// Each lookup is made by a function that promises nothing.

/// Returns the priority and the text of the first value of a key.
fn find_one<'a, L: Ledger>(
    index: &'a Index,
    key: &[u8],
    steps: &mut Steps<L>,
) -> Option<(u32, &'a [u8])> {
    let Some(place) = index.find_one(key, steps) else {
        return None;
    };
    Some((place.priority(), index.text(&place)))
}

/// Returns the values of a key.
fn find<L: Ledger>(
    alloc: Global,
    index: &Index,
    key: &[u8],
    steps: &mut Steps<L>,
) -> Result<Values, AllocError> {
    index.find(alloc, key, steps)
}

/// Returns all pairs.
fn all<L: Ledger>(alloc: Global, index: &Index, steps: &mut Steps<L>) -> Result<Pairs, AllocError> {
    index.all(alloc, steps)
}

/// The pairs of the five keys.
static PAIRS: &str =
    "Ok(List { elements: [Pair { key: \"ask\", value: Value { priority: 0, text: \"x\" } }, \
        Pair { key: \"ate\", value: Value { priority: 1, text: \"x\" } }, \
        Pair { key: \"on\", value: Value { priority: 2, text: \"x\" } }, \
        Pair { key: \"once\", value: Value { priority: 3, text: \"x\" } }, \
        Pair { key: \"one\", value: Value { priority: 4, text: \"x\" } }] })";

/// Looks up keys of five, one by one and all.
fn look_up_keys<L: Ledger>(rt: &impl Abort, alloc: Global, steps: &mut Steps<L>) {
    let index = adopt(rt, alloc, FIVE_KEYS);
    let once = find_one(&index, b"once", steps);
    let onc = find_one(&index, b"onc", steps);
    shown(rt, alloc, (once, onc), "(Some((3, [120])), None)");
    let on = find(alloc, &index, b"on", steps);
    let want = r#"Ok(List { elements: [Value { priority: 2, text: "x" }] })"#;
    shown(rt, alloc, on, want);
    shown(rt, alloc, all(alloc, &index, steps), PAIRS);
    drop(index);
}

/// Patterns with their texts.
static TWO_PATTERNS: [(&[u8], &[u8]); 2] = [(b"pci_x:v0000[!a-f]d*", b"x"), (b"pci_x:v*d99", b"y")];

/// Texts, and the values of the patterns that they match.
static MATCHED: [(&[u8], &str); 3] = [
    (
        b"pci_x:v00001d99",
        "Ok(List { elements: [Value { priority: 0, text: \"x\" }, Value { priority: 1, \
            text: \"y\" }] })",
    ),
    (
        b"pci_x:v0000ad99",
        r#"Ok(List { elements: [Value { priority: 1, text: "y" }] })"#,
    ),
    (b"pci_x", "Ok(List { elements: [] })"),
];

/// Finds the texts of the patterns that a text matches, each once.
fn distinct_texts_are_found(rt: &impl Abort, alloc: Global, index: &Index) {
    let texts = distinct_texts(alloc, index, b"pci_x:v00001d99").expect(rt, "texts");
    let got = (texts.get(0), texts.get(1), texts.get(2));
    shown(rt, alloc, got, "(Some([120]), Some([121]), None)");
}

/// Looks up texts among patterns.
fn look_up_patterns<L: Ledger>(rt: &impl Abort, alloc: Global, steps: &mut Steps<L>) {
    let file = file_of(rt, alloc, &TWO_PATTERNS);
    let index = adopt(rt, alloc, file.as_bytes());
    for (text, want) in &MATCHED {
        shown(rt, alloc, index.wild(alloc, text, steps), want);
    }
    distinct_texts_are_found(rt, alloc, &index);
    drop(index);
}

/// The dependency lines of two modules, by their names.
static TWO_LINES: [(&[u8], &[u8]); 2] = [
    (b"a", b"kernel/a.ko:"),
    (b"b", b"kernel/b.ko: kernel/a.ko"),
];

/// Goes on to the next value, which has this key, priority and text.
fn expect_first(rt: &impl Abort, walk: &mut FirstWalk<'_>, key: &[u8], priority: u32, text: &[u8]) {
    let first = walk.next().expect(rt, "a step").expect(rt, "a value");
    same(rt, walk.key(), key);
    holds(rt, first.priority == priority);
    same(rt, first.text, text);
}

fn first_values_are_walked(rt: &impl Abort, alloc: Global) {
    let file = file_of(rt, alloc, &TWO_LINES);
    let index = adopt(rt, alloc, file.as_bytes());
    let mut walk = FirstWalk::start(alloc, &index).expect(rt, "a walk");
    expect_first(rt, &mut walk, b"a", 0, b"kernel/a.ko:");
    expect_first(rt, &mut walk, b"b", 1, b"kernel/b.ko: kernel/a.ko");
    holds(rt, walk.next().expect(rt, "a step").is_none());
}

/// Counts the steps of all lookups, and one step of its own.
fn count_steps<L: Ledger>(rt: &impl Abort, alloc: Global, blank: Blank)
    requires name { blank.name ≡ L.name }
    requires parts { blank.parts ≡ L.parts }
    requires some { 0 < blank.parts }
{
    let mut steps = Steps::<L>::new(blank);
    steps.tick();
    read_nodes(rt, alloc, &mut steps);
    look_up_keys(rt, alloc, &mut steps);
    look_up_patterns(rt, alloc, &mut steps);
}

fn indexes_are_read(rt: &impl Abort, alloc: Global) {
    count_steps::<Brand>(rt, alloc, Blank::new(1))
}

#[test]
fn indexes_are_called(rt: HostRuntime) {
    patterns_match_texts(&rt);
    keys_are_written(&rt, rt.alloc());
    bad_files_are_refused(&rt, rt.alloc());
    indexes_are_read(&rt, rt.alloc());
    first_values_are_walked(&rt, rt.alloc());
}
