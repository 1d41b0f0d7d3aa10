//! The search list of a configuration, and the tree that it chooses.

use crate::configuration::one_file;
use crate::lists::{names, paths};
use crate::same::shown;
use km_names::ConfFault;
use mod_tree::{Search, Tree, TreeFault, choose, parse_search};
use std::alloc::Global;
use std::process::Abort;

/// Reads the search list of a configuration of one file.
fn search_of(rt: &impl Abort, alloc: Global, text: &[u8]) -> Result<Search, ConfFault> {
    let files = one_file(rt, alloc, text);
    parse_search(alloc, &files)
}

/// Configurations, and their search lists.
static SEARCHES: [(&[u8], &str); 3] = [
    (b"", r#"Ok(List { elements: ["updates", "built-in"] })"#),
    (
        b"search extra\n# c\nsearch built-in a-b",
        r#"Ok(List { elements: ["extra", "built-in", "a-b"] })"#,
    ),
    (
        b"\noverride a * b",
        r#"Err(BadLine { file: "/e/a.conf", line: 2 })"#,
    ),
];

fn search_lines_are_read(rt: &impl Abort, alloc: Global) {
    for (text, want) in &SEARCHES {
        shown(rt, alloc, search_of(rt, alloc, text), want);
    }
}

/// Chooses modules of a listing by a search list of these words.
fn chosen(
    rt: &impl Abort,
    alloc: Global,
    listed: &[&[u8]],
    order: &[u8],
    words: &[&[u8]],
) -> Result<Tree, TreeFault> {
    let search: Search = names(rt, alloc, words);
    choose(alloc, &paths(rt, alloc, listed), order, &search)
}

/// Paths of a folder, with one module in two places.
static LISTED: [&[u8]; 3] = [b"updates/a.ko", b"kernel/b.ko", b"kernel/a.ko"];

/// First words of a search list, modules.order, and the tree.
static CHOICES: [(&[u8], &[u8], &str); 2] = [
    (
        b"updates",
        b"",
        r#"Some(List { elements: ["kernel/b.ko", "updates/a.ko"] })"#,
    ),
    (
        b"kernel",
        b"kernel/b.ko\nkernel/a.ko\n",
        r#"Some(List { elements: ["kernel/b.ko", "kernel/a.ko"] })"#,
    ),
];

fn a_search_list_of_ones_own_chooses(rt: &impl Abort, alloc: Global) {
    for (first, order, want) in &CHOICES {
        let tree = chosen(rt, alloc, &LISTED, order, &[first, b"built-in"]).ok();
        shown(rt, alloc, tree, want);
    }
}

/// Paths of which two aren't those of modules.
static BAD_PATHS: [&[u8]; 3] = [b"z .ko", b"a:.ko", b"b b"];

fn a_bad_path_is_reported(rt: &impl Abort, alloc: Global) {
    let Err(TreeFault::BadPath { path }) = chosen(rt, alloc, &BAD_PATHS, b"", &[]) else {
        panic!(rt; "not refused");
    };
    shown(rt, alloc, path, r#""a:.ko""#);
}

#[test]
fn search_lists_are_called(rt: HostRuntime) {
    search_lines_are_read(&rt, rt.alloc());
    a_search_list_of_ones_own_chooses(&rt, rt.alloc());
    a_bad_path_is_reported(&rt, rt.alloc());
}
