//! The tree of a trial.

use crate::lists::path;
use crate::outside::expect_file;
use crate::same::holds;
use km_outside::MemFiles;
use std::alloc::Global;
use std::process::Abort;
use tree_gen::generate;

/// Paths below the folder of a trial of two modules, and whether files are there.
static TREE: [(&[u8], bool); 3] = [
    (b"/t/lib/modules/trial/kernel/m0001.ko", true),
    (b"/t/lib/modules/trial/kernel/m0002.ko", false),
    (b"/t/Module.symvers", true),
];

/// Stops unless a file is there or not, as is said.
fn expect_there(rt: &impl Abort, alloc: Global, files: &MemFiles, at: &[u8], is_there: bool) {
    let at = path(rt, alloc, at);
    holds(rt, files.get(&at).is_some() == is_there);
}

/// Makes the tree of a trial of two modules.
fn tree_of_two(rt: &impl Abort, alloc: Global) -> MemFiles {
    generate(alloc, 1, 2).expect(rt, "a tree")
}

fn a_tree_is_made(rt: &impl Abort, alloc: Global) {
    let files = tree_of_two(rt, alloc);
    let map = b"ffffffff81000000 T printk\n".as_slice();
    expect_file(rt, alloc, &files, b"/t/System.map", Some(map));
    for (at, is_there) in &TREE {
        expect_there(rt, alloc, &files, at, *is_there);
    }
    drop(files);
}

#[test]
fn a_tree_is_called(rt: HostRuntime) {
    a_tree_is_made(&rt, rt.alloc());
}
