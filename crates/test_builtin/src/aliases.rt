// The fields of built-in modules, the map of their aliases, and its index.
use builtin_index::{BuiltinList, alias_index, builtin_aliases, builtin_fields};
use index_write::{KeyMap, encode};
use km_names::{Blob, FILE_LIMIT};
use std::alloc::{AllocError, Global};
use std::process::Abort;
use test_objects::{bytes_of, is_key, is_text};

/// Returns the fields of a file.
fn fields_of(rt: &impl Abort, alloc: Global, bytes: &[u8]) -> BuiltinList {
    builtin_fields(alloc, bytes).expect(rt, "fields")
}

/// Returns fields, each as a line `MODULE|KEY|VALUE`.
fn fields_text(alloc: Global, fields: &BuiltinList) -> Result<Blob, AllocError> {
    let mut text = Blob::new(alloc);
    for field in fields.as_slice() {
        text.extend(field.module.as_bytes())?;
        text.push(b'|')?;
        text.extend(field.key.as_bytes())?;
        text.push(b'|')?;
        text.extend(field.value.as_bytes())?;
        text.push(b'\n')?;
    }
    Ok(text)
}

/// Returns the file of the map of a file's aliases.
fn map_file(rt: &impl Abort, alloc: Global, bytes: &[u8]) -> Blob {
    assert!(rt; bytes.len() <= FILE_LIMIT, "too long");
    let map = builtin_aliases(alloc, bytes).expect(rt, "a map");
    encode(alloc, &map).expect(rt, "a file")
}

/// Returns the index of a file's aliases.
fn index_file(rt: &impl Abort, alloc: Global, bytes: &[u8]) -> Blob {
    assert!(rt; bytes.len() <= FILE_LIMIT, "too long");
    alias_index(alloc, bytes).expect(rt, "an index")
}

/// Adds a value to a map.
fn add(rt: &impl Abort, map: &mut KeyMap, (key, priority, text): (&str, u32, &str)) {
    assert!(rt; is_key(key.as_bytes()), "no row of an index");
    assert!(rt; is_text(text.as_bytes()), "no row of an index");
    map.add(key.as_bytes(), priority, text.as_bytes())
        .expect(rt, "added");
}

/// Returns the index of these keys, each with the priority and the text of a value.
fn index_of(rt: &impl Abort, alloc: Global, rows: &[(&str, u32, &str)]) -> Blob {
    let mut map = KeyMap::new(alloc);
    for row in rows {
        add(rt, &mut map, *row);
    }
    encode(alloc, &map).expect(rt, "a file")
}

fn same(rt: &impl Abort, got: &[u8], want: &[u8]) {
    assert_eq!(rt; got, want);
}

/// Files, and their fields as lines.
static FIELDS: [(&[u8], &[u8]); 16] = [
    (b"", b""),
    (b"\0\0", b""),
    (
        b"tty.alias=tty-*\0tty.license=GPL\0",
        b"tty|alias|tty-*\ntty|license|GPL\n",
    ),
    // The last piece needs no NUL.
    (b"a.k=v", b"a|k|v\n"),
    // The module is what comes before the first `.`, the key what comes between that and the
    // first `=`.
    (b"a.b.c=v", b"a|b.c|v\n"),
    (b"a.k=v.w=x\0", b"a|k|v.w=x\n"),
    (b"a.=\0", b"a||\n"),
    (b"snd-hda.k=a-b\0", b"snd_hda|k|a-b\n"),
    // What has another form is left out.
    (b"a.k\0", b""),
    (b"a=b.c\0", b""),
    (b"ak=v\0", b""),
    (b"=\0.\0", b""),
    (b".k=v\0", b""),
    (b"a b.k=v\0", b""),
    (b"a\x7f.k=v\0", b""),
    (b"x\0\0a.k=v\0b.k\0c.l=\0", b"a|k|v\nc|l|\n"),
];

/// Compares the fields of a file.
fn expect_fields(rt: &impl Abort, alloc: Global, bytes: &[u8], want: &[u8]) {
    let fields = fields_of(rt, alloc, bytes);
    let text = fields_text(alloc, &fields).expect(rt, "a text");
    same(rt, text.as_bytes(), want);
}

#[test]
fn fields_of_pieces(rt: HostRuntime) {
    for (bytes, want) in &FIELDS {
        expect_fields(&rt, rt.alloc(), bytes, want);
    }
}

/// The index of the one alias of a file, in digits.
static TTY: &str =
    "b007f457 00020001 2000001d 74795f2a00 00000001 00000000 74747900 74 74 c000000c";

/// Checks the bytes of an index.
fn expect_tty(rt: &impl Abort, alloc: Global) {
    let index = index_file(rt, alloc, b"tty.alias=tty-*\0tty.license=GPL\0");
    let want = bytes_of(alloc, TTY).expect(rt, "digits");
    same(rt, index.as_bytes(), want.as_bytes());
    assert!(rt; index.len() == 35);
}

/// A file, and the values of its index: each a key, a priority and a text.
type AliasRow = (&'static str, &'static [(&'static str, u32, &'static str)]);

/// Files and their aliases.
static ALIASES: [AliasRow; 7] = [
    ("", &[]),
    ("a.license=GPL\0", &[]),
    // A module's place is that in which its first field of any key has it; equal values are kept.
    (
        "b.license=GPL\0a.alias=m\0b.alias=m\0a.alias=m\0",
        &[("m", 0, "b"), ("m", 1, "a"), ("m", 1, "a")],
    ),
    (
        "z.alias=m\0a.alias=m\0z.alias=n\0",
        &[("m", 0, "z"), ("n", 0, "z"), ("m", 1, "a")],
    ),
    // Names and aliases take their normal forms.
    (
        "snd-a.alias=x-[a-b]-y\0snd_a.alias=w\0",
        &[("x_[a-b]_y", 0, "snd_a"), ("w", 0, "snd_a")],
    ),
    // What can't be used is left out, and so are other keys.
    (
        "c.alias=bad[x\0c.alias=\0c.alias=m p\0c.aliases=q\0c.alia=r\0c.x.alias=s\0c.alias=t\0",
        &[("t", 0, "c")],
    ),
    ("c.alias\0=c.alias=m\0d.alias=n\0", &[("n", 0, "d")]),
];

/// Compares the index of a file's aliases, by the map and without it.
fn expect_aliases(rt: &impl Abort, alloc: Global, row: &AliasRow) {
    let (text, values) = row;
    let want = index_of(rt, alloc, values);
    let index = index_file(rt, alloc, text.as_bytes());
    same(rt, index.as_bytes(), want.as_bytes());
    let file = map_file(rt, alloc, text.as_bytes());
    same(rt, file.as_bytes(), want.as_bytes());
}

#[test]
fn aliases_of_pieces(rt: HostRuntime) {
    expect_tty(&rt, rt.alloc());
    for row in &ALIASES {
        expect_aliases(&rt, rt.alloc(), row);
    }
}
