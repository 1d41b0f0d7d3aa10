// Modules that are shown by their paths.
use km_names::PathText;
use outside_calls::CallKind;
use std::alloc::Global;
use std::process::Abort;
use test_objects::{EMPTY_SHEET, LICENSE_OBJECT, NO_MORE, SheetRow};
use test_rows::{
    Failing, FileRow, Objects, PLAIN, Row, TreeRow, USAGE, compare_seen, image, run_over, run_tree,
    run_trees, run_words,
};

/// A module with two parameters, one of them without a text.
const PARAMETERS: SheetRow = SheetRow {
    texts: &[
        b"license=GPL",
        b"parm=depth:how deep",
        b"parmtype=depth:int",
        b"parmtype=raw:bool",
        b"alias=fs-x",
    ],
    ..EMPTY_SHEET
};

/// A module with empty texts and one that is only a key.
const LONE_KEY: SheetRow = SheetRow {
    texts: &[b"license=GPL", b"", b"", b"lone", b"author=A"],
    ..EMPTY_SHEET
};

/// A module with a license.
const LICENSED: SheetRow = SheetRow {
    texts: &[b"license=GPL"],
    ..EMPTY_SHEET
};

/// What is shown of modules by their paths.
static BY_PATH: [Row; 25] = [
    ("modinfo -F license /m/a.ko", 0, "GPL\n", ""),
    (
        "modinfo /m/a.ko",
        0,
        "filename:       /m/a.ko\nlicense:        GPL\n",
        "",
    ),
    ("modinfo -F author /m/a.ko", 0, "", ""),
    ("modinfo -F licens /m/a.ko", 0, "", ""),
    (
        "modinfo /m/lone.ko",
        0,
        "filename:       /m/lone.ko\nlicense:        GPL\nlone:           \nauthor:         A\n",
        "",
    ),
    (
        "modinfo /m/p.ko",
        0,
        "filename:       /m/p.ko\n\
         license:        GPL\n\
         alias:          fs-x\n\
         parm:           depth:how deep (int)\n\
         parm:           raw:bool\n",
        "",
    ),
    (
        "modinfo -p -0 /m/p.ko",
        0,
        "depth:how deep (int)\0raw:bool\0",
        "",
    ),
    (
        "modinfo -F parm /m/p.ko",
        0,
        "depth:how deep (int)\nraw:bool\n",
        "",
    ),
    ("modinfo -Flicense /m/a.ko", 0, "GPL\n", ""),
    ("modinfo /m/a.ko --field=license", 0, "GPL\n", ""),
    ("modinfo -F=license /m/a.ko", 0, "GPL\n", ""),
    (
        "modinfo -- /m/a.ko",
        0,
        "filename:       /m/a.ko\nlicense:        GPL\n",
        "",
    ),
    ("modinfo -n /m/a.ko", 0, "/m/a.ko\n", ""),
    ("modinfo -F filename /m/a.ko", 0, "/m/a.ko\n", ""),
    ("modinfo -0l /m/a.ko /m/p.ko", 0, "GPL\0GPL\0", ""),
    ("modinfo -F - /m/a.ko", 0, "", ""),
    ("modinfo -a /m/lone.ko /m/a.ko", 0, "A\n", ""),
    ("modinfo --description /m/a.ko", 0, "", ""),
    (
        "modinfo -F license /m/none.ko",
        1,
        "",
        "kmod: no file /m/none.ko\n",
    ),
    (
        "modinfo -F license /m/cut.ko",
        1,
        "",
        "kmod: /m/cut.ko: truncated at 96 need 192\n",
    ),
    (
        "modinfo /m/a.ko.xz",
        1,
        "",
        "kmod: /m/a.ko.xz: compressed\n",
    ),
    (
        "modinfo -l /m/a.ko /m/none.ko /m/p.ko",
        1,
        "GPL\n",
        "kmod: no file /m/none.ko\n",
    ),
    (
        "modinfo -l /m/a.ko /m/a.ko.zst",
        1,
        "GPL\n",
        "kmod: /m/a.ko.zst: compressed\n",
    ),
    ("modinfo -", 1, "", "kmod: no file -\n"),
    ("modinfo -- -F", 1, "", "kmod: no file -F\n"),
];

/// Returns these rows.
fn by_path() -> &'static [Row] {
    &BY_PATH
}

/// One module.
const ONE: TreeRow<'static> = TreeRow {
    modules: &[("/m/a.ko", &LICENSED, &NO_MORE)],
    ..PLAIN
};

/// Words that aren't understood.
static NOT_UNDERSTOOD: TreeRow<'static> = TreeRow {
    rows: &[
        ("", 2, "", USAGE),
        (" ", 2, "", USAGE),
        ("modprobe", 2, "", USAGE),
        ("modinf /m/a.ko", 2, "", USAGE),
        ("modinfo", 2, "", USAGE),
        ("modinfo ", 2, "", USAGE),
        ("modinfo -l -l /m/a.ko", 2, "", USAGE),
        ("modinfo -ll /m/a.ko", 2, "", USAGE),
        ("modinfo -l -p /m/a.ko", 2, "", USAGE),
        ("modinfo -n --field=license /m/a.ko", 2, "", USAGE),
        ("modinfo -0 --null /m/a.ko", 2, "", USAGE),
        ("modinfo -F -x /m/a.ko", 2, "", USAGE),
        ("modinfo -F  /m/a.ko", 2, "", USAGE),
        ("modinfo --field= /m/a.ko", 2, "", USAGE),
        ("modinfo -F license", 2, "", USAGE),
        ("modinfo -b /r /m/a.ko", 2, "", USAGE),
        ("modinfo -k 6/1 a", 2, "", USAGE),
        ("modinfo -k / a", 2, "", USAGE),
        ("modinfo -k -6 a", 2, "", USAGE),
        ("modinfo -k 6.1.0 -b  a", 2, "", USAGE),
        ("modinfo -k 6.1.0 -k 6.2.0 a", 2, "", USAGE),
        ("modinfo -x /m/a.ko", 2, "", USAGE),
        ("modinfo --lic /m/a.ko", 2, "", USAGE),
        ("modinfo --help", 2, "", USAGE),
    ],
    ..ONE
};

/// Returns that tree.
fn not_understood() -> &'static TreeRow<'static> {
    &NOT_UNDERSTOOD
}

/// What fails while modules are shown, and the row then. The first module is printed before the
/// second is read. If the line of a refusal can't be written there is none.
static FAILING: [TreeRow<'static>; 5] = [
    TreeRow {
        failing: Failing::Call(CallKind::Read, 0),
        rows: &[(
            "modinfo -F license /m/a.ko",
            3,
            "",
            "kmod: file fault /m/a.ko\n",
        )],
        ..ONE
    },
    TreeRow {
        failing: Failing::Call(CallKind::Read, 1),
        rows: &[(
            "modinfo -l /m/a.ko /m/a.ko",
            3,
            "GPL\n",
            "kmod: file fault /m/a.ko\n",
        )],
        ..ONE
    },
    TreeRow {
        failing: Failing::Write(0),
        rows: &[("modinfo -F license /m/a.ko", 3, "", "kmod: output fault\n")],
        ..ONE
    },
    TreeRow {
        failing: Failing::Write(1),
        rows: &[(
            "modinfo -l /m/a.ko /m/a.ko",
            3,
            "GPL\n",
            "kmod: output fault\n",
        )],
        ..ONE
    },
    TreeRow {
        failing: Failing::Line(0),
        rows: &[("modinfo -F license /m/none.ko", 3, "", "")],
        ..ONE
    },
];

/// Returns these trees.
fn failing() -> &'static [TreeRow<'static>] {
    &FAILING
}

/// Modules at paths.
static MODULES: TreeRow<'static> = TreeRow {
    modules: &[
        ("/m/p.ko", &PARAMETERS, &NO_MORE),
        ("/m/lone.ko", &LONE_KEY, &NO_MORE),
    ],
    ..PLAIN
};

/// Puts two modules that are byte by byte, one of them cut.
fn put_modules(rt: &impl Abort, alloc: Global, objects: &mut Objects) {
    let whole = FileRow {
        path: "/m/a.ko",
        bytes: &LICENSE_OBJECT,
    };
    let cut = FileRow {
        path: "/m/cut.ko",
        bytes: &LICENSE_OBJECT[..287],
    };
    objects.put_files(alloc, &[whole, cut]).expect(rt, "files");
}

/// Runs a row over these modules. No file is changed.
fn expect_shown(rt: &impl Abort, alloc: Global, row: Row) {
    let mut objects = Objects::new(alloc).expect(rt, "objects");
    put_modules(rt, alloc, &mut objects);
    run_over(alloc, &mut objects, &MODULES, row).expect(rt, "a module by its path");
    drop(objects);
}

/// What is said of a file past the limit.
static TOO_LARGE: Row = (
    "modinfo -F license /m/a.ko",
    1,
    "",
    "kmod: /m/a.ko: too large\n",
);

/// Puts a file of so many zeros.
fn put_zeros(rt: &impl Abort, alloc: Global, objects: &mut Objects, length: usize) {
    let bytes = image(alloc, length, &[]).expect(rt, "zeros");
    let path = PathText::from_slice(alloc, b"/m/a.ko").expect(rt, "a path");
    let put = objects.files.put(&path, bytes.as_slice());
    put.expect(rt, "a file more");
}

/// Runs words over a file past the limit.
fn expect_too_large(rt: &impl Abort, alloc: Global) {
    let (words, ..) = TOO_LARGE;
    let mut objects = Objects::new(alloc).expect(rt, "objects");
    put_zeros(rt, alloc, &mut objects, 67_108_865);
    run_words(alloc, &mut objects, words).expect(rt, "words");
    compare_seen(alloc, &objects, TOO_LARGE, words).expect(rt, "a file past the limit");
    drop(objects);
}

#[test]
fn modules_are_shown_by_their_paths(rt: HostRuntime) {
    let alloc = rt.alloc();
    for row in by_path() {
        expect_shown(&rt, alloc, *row);
    }
    run_tree(alloc, not_understood()).expect(&rt, "words that aren't understood");
    run_trees(alloc, failing()).expect(&rt, "calls that fail");
}

#[test]
fn a_file_past_the_limit_is_too_large(rt: HostRuntime) {
    expect_too_large(&rt, rt.alloc());
}
