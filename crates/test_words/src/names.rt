// Names of modules, paths, aliases, lines, words, strings and numbers.
use crate::same::{same, same_answer, same_length, same_number, same_option};
use km_names::{
    Lines, PathText, Texts, conf_lines, first_nul, hexadecimal, is_compressed, is_graphic, join,
    module_name, near_nul, normal_alias, split_word, string_at, words,
};
use std::alloc::Global;
use std::process::Abort;

/// Paths, the names of their modules, and whether they are paths of compressed modules.
static PATHS: [(&[u8], &[u8], bool); 11] = [
    (b"kernel/fs/ext4/ext4.ko", b"ext4", false),
    (b"updates/snd-hda.v2.ko.xz", b"snd_hda", true),
    (b"a-b", b"a_b", false),
    (b"kernel/.ko", b"", false),
    (b"", b"", false),
    (b"/m/a.ko.xz", b"a", true),
    (b"a.ko.gz", b"a", true),
    (b"a.ko.zst", b"a", true),
    (b"a.ko", b"a", false),
    (b"a.xz", b"a", false),
    (b"a.ko.xz/b", b"b", false),
];

/// Folders, what is below them, and the paths of that.
static JOINED: [(&[u8], &[u8], &[u8]); 4] = [
    (b"/", b"lib/modules", b"/lib/modules"),
    (b"/r//", b"a", b"/r/a"),
    (b"/r", b"/a", b"/r//a"),
    (b"", b"a", b"/a"),
];

/// Aliases, and their normal forms.
static ALIASES: [(&[u8], Option<&[u8]>); 6] = [
    (b"pci-x:v0000[!a-f]d*", Some(b"pci_x:v0000[!a-f]d*")),
    (b"bad[x", None),
    (b"bad]x", None),
    (b"[[-]-", Some(b"[[-]_")),
    (b"[]]", None),
    (b"", Some(b"")),
];

// Each call is in a function of its own that promises nothing.

fn path_of(rt: &impl Abort, alloc: Global, text: &[u8]) -> PathText {
    PathText::from_slice(alloc, text).expect(rt, "a path")
}

fn name_of(rt: &impl Abort, alloc: Global, path: &PathText) -> Vec<u8> {
    let name = module_name(alloc, path).expect(rt, "a name");
    name.into_vec().expect(rt, "bytes")
}

fn joined(rt: &impl Abort, alloc: Global, folder: &[u8], rest: &[u8]) -> Vec<u8> {
    let folder = path_of(rt, alloc, folder);
    let path = join(alloc, &folder, rest).expect(rt, "joined");
    path.into_vec().expect(rt, "bytes")
}

fn normal_form(rt: &impl Abort, alloc: Global, text: &[u8]) -> Option<Vec<u8>> {
    match normal_alias(alloc, text).expect(rt, "an answer") {
        Some(normal) => Some(normal.into_vec().expect(rt, "bytes")),
        None => None,
    }
}

fn expect_path(rt: &impl Abort, alloc: Global, path: &[u8], name: &[u8], compressed: bool) {
    let path = path_of(rt, alloc, path);
    same(rt, name_of(rt, alloc, &path).as_slice(), name);
    same_answer(rt, is_compressed(&path), compressed);
}

#[test]
fn paths_and_aliases(rt: HostRuntime) {
    let alloc = rt.alloc();
    for (path, name, compressed) in &PATHS {
        expect_path(&rt, alloc, path, name, *compressed);
    }
    for (folder, rest, path) in &JOINED {
        same(&rt, joined(&rt, alloc, folder, rest).as_slice(), path);
    }
    for (text, want) in &ALIASES {
        same_option(&rt, normal_form(&rt, alloc, text).as_deref(), *want);
    }
}

/// A file in which a backslash joins lines. Only the lines of the file are asked for one; a comment
/// goes on like any other.
static CONFIGURATION: &[u8] =
    b"\n  options a x=1 \\\n\ty=2 \r\n# no \\\n options b\na\\\\\n\nb\n \t\nlast\\";

/// Its lines, with their numbers.
static LINES: [(u32, &[u8]); 4] = [
    (2, b"options a x=1 \ty=2"),
    (6, b"a\\"),
    (8, b"b"),
    (10, b"last"),
];

/// A line, and its words after the first.
static WORDS: [&[u8]; 3] = [b"a", b"pre:", b"b"];

fn lines_of(rt: &impl Abort, alloc: Global, text: &[u8]) -> Lines {
    assert!(rt; text.len() <= 67_108_864);
    conf_lines(alloc, text).expect(rt, "lines")
}

fn words_of(rt: &impl Abort, alloc: Global, text: &[u8]) -> Texts {
    words(alloc, text).expect(rt, "words")
}

/// Checks that the words of a line begin after the first.
fn expect_words(rt: &impl Abort, alloc: Global) {
    let (word, rest) = split_word(b"softdep \ta  pre: b ");
    same(rt, word, b"softdep");
    same(rt, rest, b"a  pre: b");
    let list = words_of(rt, alloc, rest);
    same_length(rt, list.len(), WORDS.len());
    for (word, want) in list.as_slice().iter().zip(&WORDS) {
        same(rt, word.as_bytes(), want);
    }
}

/// Checks the lines of the configuration.
fn expect_lines(rt: &impl Abort, alloc: Global) {
    let lines = lines_of(rt, alloc, CONFIGURATION);
    same_length(rt, lines.len(), LINES.len());
    for (line, (number, text)) in lines.as_slice().iter().zip(&LINES) {
        same_number(rt, line.number as u64, *number as u64);
        same(rt, line.text.as_bytes(), text);
    }
}

#[test]
fn lines_and_words(rt: HostRuntime) {
    expect_lines(&rt, rt.alloc());
    expect_words(&rt, rt.alloc());
}

/// Places in a table of strings, and the strings there.
static STRINGS: [(usize, Option<&[u8]>); 7] = [
    (0, Some(b"")),
    (1, Some(b".text")),
    (3, Some(b"ext")),
    (7, Some(b".data")),
    (13, None),
    (16, None),
    (17, None),
];

/// Bytes, the place of their first NUL, and that place if it is one of the first 32.
static NULS: [(&[u8], Option<usize>, Option<usize>); 6] = [
    (b"", None, None),
    (b"few\0", Some(3), None),
    (b"0123456789abcdef0123456789abcdef", None, None),
    (b"012\x00456789abcdef0123456789\0bcdef", Some(3), Some(3)),
    (b"0123456789abcdef0123456789abcde\0", Some(31), Some(31)),
    (b"0123456789abcdef0123456789abcdef\0", Some(32), None),
];

/// Texts, whether they are visible words, and the hexadecimal numbers that they are.
static NUMBERS: [(&[u8], bool, Option<u64>); 8] = [
    (b"", false, None),
    (b"ffffffff81000000", true, Some(0xffff_ffff_8100_0000)),
    (b"0Ff", true, Some(255)),
    (b"+1", true, None),
    (b"0x1", true, None),
    (b"1 ", false, None),
    (b"\x7f", false, None),
    (b"00000000000000001", true, None),
];

#[test]
fn strings_and_numbers(rt: HostRuntime) {
    for (at, string) in &STRINGS {
        same_option(&rt, string_at(b"\0.text\0.data\0cut", *at), *string);
    }
    for (bytes, first, near) in &NULS {
        assert_eq!(rt; first_nul(bytes), *first);
        assert_eq!(rt; near_nul(bytes), *near);
    }
    for (text, graphic, number) in &NUMBERS {
        same_answer(&rt, is_graphic(text), *graphic);
        assert_eq!(rt; hexadecimal(text), *number);
    }
}
