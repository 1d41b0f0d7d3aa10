// The call of `modprobe` by itself, with the words after the command's name.
use km_names::Word;
use kmod_cli::modprobe;
use std::alloc::Global;
use std::process::Abort;
use test_rows::{INDEX, INDEXED, Objects, TWO, TreeRow, compare_all, run_first, words_of};

/// Two modules.
static TREE: TreeRow<'static> = TreeRow {
    modules: TWO,
    ..INDEXED
};

/// Runs modprobe, and promises nothing.
fn modprobe_over(alloc: Global, words: &[Word], objects: &mut Objects) {
    let (files, out, err) = (&mut objects.files, &mut objects.out, &mut objects.err);
    objects.status = modprobe(alloc, words, files, out, err);
}

/// The plan of the second of two modules.
static PLAN: &str =
    "insmod /r/lib/modules/6.1.0/kernel/a.ko\ninsmod /r/lib/modules/6.1.0/kernel/b.ko\n";

/// Plans the second module. No file is changed.
fn expect_modprobe(rt: &impl Abort, alloc: Global, objects: &mut Objects) {
    objects.fill(alloc, &TREE).expect(rt, "objects");
    run_first(alloc, objects, INDEX).expect(rt, "an index");
    let words = words_of(alloc, "-d /r -S 6.1.0 -n b").expect(rt, "words");
    modprobe_over(alloc, words.as_slice(), objects);
    compare_all(alloc, objects, ("", 0, PLAN, ""), "modprobe").expect(rt, "a plan");
}

#[test]
fn modprobe_is_called_by_itself(rt: HostRuntime) {
    let mut objects = Objects::new(rt.alloc()).expect(&rt, "objects");
    expect_modprobe(&rt, rt.alloc(), &mut objects);
    drop(objects);
}
