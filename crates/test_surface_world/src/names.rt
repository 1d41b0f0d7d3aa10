//! Names, paths, aliases, lines of configuration, lists and words.

use crate::lists::{names, path};
use crate::same::{holds, shown};
use km_names::{TreeIndex, Word, conf_lines, is_compressed, join, module_name, normal_alias};
use std::alloc::Global;
use std::process::Abort;

fn lists_are_made_and_read(rt: &impl Abort, alloc: Global) {
    let list = names(rt, alloc, &[b"fat".as_slice(), b"", b"vfat"]);
    let items = (list.len(), list.get(2), list.get(3));
    shown(rt, alloc, items, r#"(3, Some("vfat"), None)"#);
    shown(rt, alloc, list, r#"List { elements: ["fat", "", "vfat"] }"#);
}

fn texts_are_made_and_read(rt: &impl Abort, alloc: Global) {
    let path = path(rt, alloc, b"/lib");
    let bytes = (path.len(), path.get(1), path.get(4), path.as_bytes());
    shown(rt, alloc, bytes, "(4, Some(108), None, [47, 108, 105, 98])");
    holds(rt, TreeIndex(3).0 == 3);
}

fn words_are_texts(rt: &impl Abort, alloc: Global) {
    let word = Word::from_text(alloc, "-\u{e4}").expect(rt, "a word");
    holds(rt, word.as_str() == "-\u{e4}");
    let bytes = (word.len(), word.get(2), word.get(3), word.as_bytes());
    shown(rt, alloc, bytes, "(3, Some(164), None, [45, 195, 164])");
}

/// Paths, with their module names, and whether they name a compressed file.
static PATHS: [(&[u8], &str); 5] = [
    (b"kernel/snd-hda.v2.ko.xz", r#"(Ok("snd_hda"), true)"#),
    (b"a-b/c.ko", r#"(Ok("c"), false)"#),
    (b"a.ko.gz", r#"(Ok("a"), true)"#),
    (b"-.ko.zst", r#"(Ok("_"), true)"#),
    (b"kernel/", r#"(Ok(""), false)"#),
];

fn paths_have_module_names(rt: &impl Abort, alloc: Global) {
    for (text, want) in &PATHS {
        let path = path(rt, alloc, text);
        shown(
            rt,
            alloc,
            (module_name(alloc, &path), is_compressed(&path)),
            want,
        );
    }
}

/// Folders, what follows them, and the path of both.
static FOLDERS: [(&[u8], &[u8], &str); 3] = [
    (b"/", b"lib/modules", r#"Ok("/lib/modules")"#),
    (b"/r//", b"a.ko", r#"Ok("/r/a.ko")"#),
    (b"r", b"", r#"Ok("r/")"#),
];

fn paths_below_folders(rt: &impl Abort, alloc: Global) {
    for (dir, rest, want) in &FOLDERS {
        let dir = path(rt, alloc, dir);
        shown(rt, alloc, join(alloc, &dir, rest), want);
    }
}

/// Aliases with their normal forms, of those that have one.
static ALIASES: [(&[u8], &str); 5] = [
    (b"pci-x:v0000[!a-f]d*", r#"Ok(Some("pci_x:v0000[!a-f]d*"))"#),
    (b"bad[x", "Ok(None)"),
    (b"a]b", "Ok(None)"),
    (b"[]-]", "Ok(None)"),
    (b"[[-]-", r#"Ok(Some("[[-]_"))"#),
];

fn aliases_have_a_normal_form(rt: &impl Abort, alloc: Global) {
    for (text, want) in &ALIASES {
        shown(rt, alloc, normal_alias(alloc, text), want);
    }
}

/// A configuration: a comment of two lines, an empty one, and two joined ones.
static CONFIGURATION: &[u8] =
    b"# a comment \\\nthat goes on\n\n  alias a \\\n b\t\r\noptions x y\\";

/// Its joined lines.
static LINES: &str = "Ok(List { elements: [Line { number: 4, text: \"alias a  b\" }, \
        Line { number: 6, text: \"options x y\" }] })";

fn lines_of_configuration_are_joined(rt: &impl Abort, alloc: Global) {
    holds(rt, CONFIGURATION.len() <= 67_108_864);
    shown(rt, alloc, conf_lines(alloc, CONFIGURATION), LINES);
}

#[test]
fn names_are_called(rt: HostRuntime) {
    lists_are_made_and_read(&rt, rt.alloc());
    texts_are_made_and_read(&rt, rt.alloc());
    words_are_texts(&rt, rt.alloc());
    paths_have_module_names(&rt, rt.alloc());
    paths_below_folders(&rt, rt.alloc());
    aliases_have_a_normal_form(&rt, rt.alloc());
    lines_of_configuration_are_joined(&rt, rt.alloc());
}
