// The call of `depmod` by itself, with the words after the command's name.
use km_names::Word;
use kmod_cli::depmod;
use std::alloc::Global;
use std::process::Abort;
use test_rows::{Objects, PLAIN, SYMVERS, TWO, TWO_FILES, TreeRow, compare_all, words_of};

/// Two modules that are indexed. All files of the index are there, and no other file is changed.
static TREE: TreeRow<'static> = TreeRow {
    modules: TWO,
    files: &[SYMVERS],
    index: &TWO_FILES,
    replaced: 9,
    ..PLAIN
};

/// Runs depmod, and promises nothing.
fn depmod_over(alloc: Global, words: &[Word], objects: &mut Objects) {
    let (files, out, err) = (&mut objects.files, &mut objects.out, &mut objects.err);
    objects.status = depmod(alloc, words, files, out, err);
}

/// Indexes the two modules.
fn expect_depmod(rt: &impl Abort, alloc: Global, objects: &mut Objects) {
    objects.fill(alloc, &TREE).expect(rt, "objects");
    objects.want_after(alloc, &TREE).expect(rt, "files");
    let words = words_of(alloc, "-b /r -E /r/Module.symvers 6.1.0").expect(rt, "words");
    depmod_over(alloc, words.as_slice(), objects);
    compare_all(alloc, objects, ("", 0, "", ""), "depmod").expect(rt, "an index");
}

#[test]
fn depmod_is_called_by_itself(rt: HostRuntime) {
    let mut objects = Objects::new(rt.alloc()).expect(&rt, "objects");
    expect_depmod(&rt, rt.alloc(), &mut objects);
    drop(objects);
}
