// Trees that are changed: indexed again, and with a module that is damaged.
use crate::indexes::WITH_C;
use crate::sheets::{GIVES_FC, GIVES_LONG, LONG_VERSION_17, NEEDS_LONG};
use outside_calls::CallKind;
use std::alloc::Global;
use std::process::Abort;
use test_objects::{NO_MORE, object_with};
use test_rows::{
    DONE, Failing, FileRow, INDEX, KEPT, ModuleRow, Objects, Row, TWO, TWO_FILES, TreeRow,
    run_next, run_over,
};

/// Two modules that are indexed for the first time. The third replacement after that fails.
static FIRST: TreeRow<'static> = TreeRow {
    name: "the first index",
    modules: TWO,
    is_old: false,
    failing: Failing::Call(CallKind::Replace, 11),
    index: &TWO_FILES,
    ..DONE
};

/// What comes out first.
static FIRST_ROW: Row = (INDEX, 0, "", "");

/// The same with `c`: two files are new, and seven are as the first index left them.
static SECOND: TreeRow<'static> = TreeRow {
    name: "the second index",
    index: &WITH_C,
    replaced: 2,
    ..DONE
};

/// What comes out then.
static SECOND_ROW: Row = (
    INDEX,
    3,
    "",
    "kmod: file fault /r/lib/modules/6.1.0/modules.alias\n",
);

/// The module that is added.
static C: [ModuleRow<'static>; 1] = [("kernel/c.ko", &GIVES_FC, &NO_MORE)];

/// Indexes a tree twice, the second time with one module more.
fn expect_second(rt: &impl Abort, alloc: Global) {
    let mut objects = Objects::new(alloc).expect(rt, "objects");
    run_over(alloc, &mut objects, &FIRST, FIRST_ROW).expect(rt, "the first index");
    objects.put_modules(alloc, &C).expect(rt, "a module");
    run_next(alloc, &mut objects, &SECOND, SECOND_ROW).expect(rt, "the second index");
    drop(objects);
}

/// The names of versions in the extended form have no end.
static CUT: TreeRow<'static> = TreeRow {
    name: "names of versions without an end",
    modules: &[("kernel/a.ko", &GIVES_LONG, &NO_MORE)],
    ..KEPT
};

/// What comes out of it.
static CUT_ROW: Row = (INDEX, 1, "", "kmod: kernel/b.ko: bad versions\n");

/// Returns where the last run of 60 or more bytes `x` ends, in a file that has other bytes after
/// it.
fn end_of_last_name(bytes: &[u8]) -> Option<usize> {
    let mut end = None;
    let mut length: usize = 0;
    for (at, byte) in bytes.iter().enumerate() {
        if *byte == b'x' {
            length = length.saturating_add(1);
        } else {
            if length >= 60 {
                end = Some(at);
            }
            length = 0;
        }
    }
    end
}

/// Returns an object in which the name of a version has no NUL.
fn cut_object(rt: &impl Abort, alloc: Global) -> Vec<u8> {
    let object = object_with(alloc, &NEEDS_LONG, &LONG_VERSION_17).expect(rt, "an object");
    let mut bytes = Vec::from_slice(alloc, object.as_bytes()).expect(rt, "a copy");
    cut_last_name(rt, &mut bytes);
    bytes
}

/// Replaces the NUL of the last name by another byte.
fn cut_last_name(rt: &impl Abort, bytes: &mut Vec<u8>) {
    let end = end_of_last_name(bytes.as_slice()).expect(rt, "no name");
    let nul = bytes.get_mut(end).expect(rt, "no byte");
    assert_eq!(rt; *nul, 0);
    *nul = b'x';
}

/// Indexes a tree in which a module has a name of a version without its NUL.
fn expect_bad_versions(rt: &impl Abort, alloc: Global) {
    let bytes = cut_object(rt, alloc);
    let file = FileRow {
        path: "/r/lib/modules/6.1.0/kernel/b.ko",
        bytes: bytes.as_slice(),
    };
    let mut objects = Objects::new(alloc).expect(rt, "objects");
    objects.put_files(alloc, &[file]).expect(rt, "a file");
    run_over(alloc, &mut objects, &CUT, CUT_ROW).expect(rt, "a module that is cut");
    drop(objects);
}

#[test]
fn changed_trees_are_indexed_or_refused(rt: HostRuntime) {
    expect_second(&rt, rt.alloc());
    expect_bad_versions(&rt, rt.alloc());
}
