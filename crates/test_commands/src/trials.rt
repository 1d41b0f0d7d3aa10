// Whole runs of trials. A separate program worked out the digests of images from the made trees. An
// image has 8192 bytes, which are 0 except for the address of `printk` at byte 4096 and, after the
// first, the address of `s0000` at byte 4104.
use test_rows::{PLAIN, Row, TreeRow, USAGE, run_tree};

/// Trees of one, two and three modules.
static TRIALS: TreeRow<'static> = TreeRow {
    rows: &[
        (
            "trial 1 1",
            0,
            "modules 1\n\
         dependencies 0\n\
         planned 1\n\
         loaded 1\n\
         images c6c95917cef2d89bf138a45b46ef4155f44b4dba3fdef5bd3e0dd145c1741227\n",
            "",
        ),
        (
            "trial 1 2",
            0,
            "modules 2\n\
         dependencies 1\n\
         planned 2\n\
         loaded 2\n\
         images 6e01d8a1a0adb080eac0b219e0d389f1fd57a7baed14adfbaa0d581bd54b07a0\n",
            "",
        ),
        (
            "trial 1 3",
            0,
            "modules 3\n\
         dependencies 2\n\
         planned 3\n\
         loaded 3\n\
         images fe1d27353d8fe48d7d22f38f5a781d684f526252c8b571272bde9301d03a620a\n",
            "",
        ),
    ],
    ..PLAIN
};

/// Returns that tree.
fn trials() -> &'static TreeRow<'static> {
    &TRIALS
}

/// Words that aren't understood.
static NOT_UNDERSTOOD: TreeRow<'static> = TreeRow {
    rows: &[
        ("trial 1 0", 2, "", USAGE),
        ("trial 1 2001", 2, "", USAGE),
        ("trial 18446744073709551616 1", 2, "", USAGE),
        ("trial 1", 2, "", USAGE),
    ],
    ..PLAIN
};

/// Returns that tree.
fn not_understood() -> &'static TreeRow<'static> {
    &NOT_UNDERSTOOD
}

/// A tree of 2,000 modules. A separate program worked out its digest and its dependencies.
const OF_MANY: Row = (
    "trial 7 2000",
    0,
    "modules 2000\n\
     dependencies 135792\n\
     planned 2000\n\
     loaded 2000\n\
     images 522c29431e76887306aa87c75dfa4d8e4fbdce7e5c514bea39cc3705b92aedb8\n",
    "",
);

/// Two runs over it, which give the same.
static MANY: TreeRow<'static> = TreeRow {
    rows: &[OF_MANY, OF_MANY],
    ..PLAIN
};

/// Returns that tree.
fn many() -> &'static TreeRow<'static> {
    &MANY
}

#[test]
fn made_trees_are_indexed_and_loaded(rt: HostRuntime) {
    run_tree(rt.alloc(), trials()).expect(&rt, "trials");
    run_tree(rt.alloc(), not_understood()).expect(&rt, "words");
}

#[test]
fn a_tree_of_many_modules(rt: HostRuntime) {
    run_tree(rt.alloc(), many()).expect(&rt, "trials of many modules");
}
