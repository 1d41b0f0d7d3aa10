// The tree of a listing, search lists, and dependency lines.
ghost use Rattle.std.specs.Prelude.{◌≤◌, length, All, IfOk};
ghost use Rattle.km_names.specs.Limit.{file_limit};

use crate::same::{same, same_number, same_option};
use km_names::{Bytes, ConfFault, ConfFiles, List, PathText, Paths};
use mod_tree::{Search, TreeFault, choose, line_path, parse_search};
use std::alloc::{AllocError, Global};
use std::process::Abort;
use test_objects::{RowFault, conf_file};

fn paths_of(rt: &impl Abort, alloc: Global, texts: &[&[u8]]) -> Paths {
    let mut paths = Paths::new(alloc);
    for text in texts {
        let path = PathText::from_slice(alloc, text).expect(rt, "a path");
        paths.push(path).expect(rt, "paths");
    }
    paths
}

fn file_of(alloc: Global, text: &[u8]) -> Result<ConfFiles, RowFault>
    ensures { IfOk result (λ files. All (λ file. length file.bytes ≤ file_limit) files) }
{
    let mut files = ConfFiles::new(alloc);
    files.push(conf_file(alloc, b"/etc/depmod.d/a.conf", text)?)?;
    Ok(files)
}

/// Reads the search list of a file.
fn search_of(rt: &impl Abort, alloc: Global, text: &[u8]) -> Result<Search, ConfFault> {
    let files = file_of(alloc, text).expect(rt, "a file");
    parse_search(alloc, &files)
}

/// Returns each item on a line of its own: of the tree that is chosen, or the bad path.
fn chosen(rt: &impl Abort, alloc: Global, paths: &Paths, order: &[u8], search: &Search) -> Vec<u8> {
    match choose(alloc, paths, order, search) {
        Ok(tree) => lines_of(alloc, &tree).expect(rt, "lines"),
        Err(TreeFault::BadPath { path }) => path.into_vec().expect(rt, "bytes"),
        Err(TreeFault::TooManyModules { .. }) => panic!(rt; "few paths"),
        Err(TreeFault::Memory) => panic!(rt; "no memory"),
    }
}

/// Returns each item on a line of its own.
fn lines_of<K>(alloc: Global, items: &List<Bytes<K>>) -> Result<Vec<u8>, AllocError> {
    let mut text = Vec::new(alloc);
    for item in items.as_slice() {
        text.extend_from_slice(item.as_bytes())?;
        text.push(b'\n')?;
    }
    Ok(text)
}

/// The paths of a listing.
static LISTED: [&[u8]; 8] = [
    b"updates/a.ko",
    b"kernel/b.ko",
    b"kernel/a.ko",
    b"extra/a.ko.xz",
    b"kernel/drivers/a.ko",
    b"kernel/c-d.ko",
    b"kernel/c_d.ko",
    b"notes.txt",
];

/// Search lines, lines of modules.order, and the tree of the listing.
static TREES: [(&[u8], &[u8], &[u8]); 4] = [
    (
        b"search updates built-in",
        b"",
        b"kernel/b.ko\nkernel/c-d.ko\nupdates/a.ko\n",
    ),
    (
        b"search extra updates",
        b"kernel/c-d.ko\n\nkernel/b.ko\r\nupdates/a.ko\nkernel/c-d.ko",
        b"kernel/c-d.ko\nextra/a.ko.xz\nkernel/b.ko\n",
    ),
    (
        b"search built-in\nsearch updates",
        b"kernel/none.ko\nupdates/a.ko\nkernel/b.ko",
        b"kernel/b.ko\nextra/a.ko.xz\nkernel/c-d.ko\n",
    ),
    (
        b"search kernel/drivers kernel",
        b"c_d\nkernel/c_d.ko\n",
        b"kernel/b.ko\nkernel/c-d.ko\nkernel/drivers/a.ko\n",
    ),
];

/// Listings with bad paths. The least bad path is named.
static BAD_PATHS: [[&[u8]; 3]; 2] = [
    [b"kernel/b c.ko", b"kernel/a:.ko.gz", b"kernel/a\xff"],
    [b"z/\x7f.ko", b"kernel/a:.ko.gz", b"kernel/a.ko"],
];

/// Compares what is chosen of a listing by a text of depmod.d and a modules.order.
fn expect_chosen(
    rt: &impl Abort,
    alloc: Global,
    listed: &[&[u8]],
    text: &[u8],
    order: &[u8],
    want: &[u8],
) {
    let paths = paths_of(rt, alloc, listed);
    let search = search_of(rt, alloc, text).expect(rt, "a search list");
    same(
        rt,
        chosen(rt, alloc, &paths, order, &search).as_slice(),
        want,
    );
}

#[test]
fn trees_of_listings(rt: HostRuntime) {
    let alloc = rt.alloc();
    for (search, order, want) in &TREES {
        expect_chosen(&rt, alloc, &LISTED, search, order, want);
    }
    for listed in &BAD_PATHS {
        expect_chosen(&rt, alloc, listed, b"", b"", b"kernel/a:.ko.gz");
    }
}

/// Texts of depmod.d, and their search lists, each word on a line.
static SEARCHES: [(&[u8], &[u8]); 2] = [
    (b"# none\n", b"updates\nbuilt-in\n"),
    (
        b"search a built-in\n search  b-c \\\n d",
        b"a\nbuilt-in\nb-c\nd\n",
    ),
];

/// Texts whose second line is the first bad one.
static BAD_SEARCHES: [&[u8]; 3] = [
    b"search a\nsearch",
    b"search a\noverride a * b\nsearch",
    b"\nalias a b",
];

/// Compares a search list.
fn expect_search(rt: &impl Abort, alloc: Global, text: &[u8], want: &[u8]) {
    let search = search_of(rt, alloc, text).expect(rt, "a search list");
    let lines = lines_of(alloc, &search).expect(rt, "lines");
    same(rt, lines.as_slice(), want);
}

/// Checks that the second line is the first bad one.
fn expect_bad_search(rt: &impl Abort, alloc: Global, text: &[u8]) {
    match search_of(rt, alloc, text) {
        Err(ConfFault::BadLine { file, line }) => {
            same(rt, file.as_bytes(), b"/etc/depmod.d/a.conf");
            same_number(rt, line as u64, 2);
        }
        _ => panic!(rt; "no bad line"),
    }
}

#[test]
fn search_lists(rt: HostRuntime) {
    for (text, want) in &SEARCHES {
        expect_search(&rt, rt.alloc(), text, want);
    }
    for text in &BAD_SEARCHES {
        expect_bad_search(&rt, rt.alloc(), text);
    }
}

/// Dependency lines with what is before their `:`, and texts that are no such lines.
static DEPENDENCY_LINES: [(&[u8], Option<&[u8]>); 15] = [
    (b"kernel/a.ko:", Some(b"kernel/a.ko")),
    (
        b"kernel/b.ko.xz: kernel/a.ko kernel/c.ko.gz",
        Some(b"kernel/b.ko.xz"),
    ),
    (b".ko:", Some(b".ko")),
    (b"", None),
    (b":", None),
    (b"kernel/a.ko", None),
    (b"kernel/a:", None),
    (b"kernel/a b.ko:", None),
    (b"kernel/a.ko: ", None),
    (b"kernel/a.ko:kernel/b.ko", None),
    (b"kernel/a.ko:  kernel/b.ko", None),
    (b"kernel/a.ko: kernel/b.ko ", None),
    (b"kernel/a.ko: kernel/b", None),
    (b"kernel/a.ko: kernel/b.ko:", None),
    (b"kernel/a.ko: kernel/b.ko\n", None),
];

#[test]
fn dependency_lines(rt: HostRuntime) {
    for (line, want) in &DEPENDENCY_LINES {
        same_option(&rt, line_path(line), *want);
    }
}
