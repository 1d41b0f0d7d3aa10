// Whether versions agree, and who may use an export.
use crate::same::same_answer;
use km_names::{Name, Names};
use std::alloc::Global;
use std::process::Abort;
use symbol_binding::{agree, may_use, sees};

/// Versions of 64 and of 32 bits, and whether they agree.
static VERSIONS: [(Option<u64>, Option<u64>, bool); 5] = [
    (Some(0x1234_5678), None, true),
    (None, Some(0), true),
    (None, None, true),
    (Some(0x1234_5678), Some(0x1234_5678), true),
    (Some(0x1_1234_5678), Some(0x1234_5678), false),
];

/// Whether a module is free and an export GPL-only, and whether it is seen.
static SEEN: [(bool, bool, bool); 4] = [
    (true, true, true),
    (true, false, true),
    (false, false, true),
    (false, true, false),
];

/// Namespaces, and whether a module that imports two may use their exports, and one that imports
/// none.
static SPACES: [(&[u8], bool, bool); 3] = [
    (b"", true, true),
    (b"NS", true, false),
    (b"N", false, false),
];

/// Returns two namespaces that are imported.
fn imports_of(rt: &impl Abort, alloc: Global) -> Names {
    let mut imports = Names::new(alloc);
    for text in [b"OTHER".as_slice(), b"NS"] {
        let name = Name::from_slice(alloc, text).expect(rt, "a name");
        imports.push(name).expect(rt, "names");
    }
    imports
}

/// Checks who may use the exports of the namespaces of a table.
fn expect_spaces(rt: &impl Abort, alloc: Global) {
    let none = Names::new(alloc);
    let two = imports_of(rt, alloc);
    for (space, of_two, of_none) in &SPACES {
        same_answer(rt, may_use(&two, space), *of_two);
        same_answer(rt, may_use(&none, space), *of_none);
    }
}

#[test]
fn exports_for_some_modules(rt: HostRuntime) {
    for (a, b, agreed) in &VERSIONS {
        same_answer(&rt, agree(*a, *b), *agreed);
        same_answer(&rt, agree(*b, *a), *agreed);
    }
    for (free, gpl, seen) in &SEEN {
        same_answer(&rt, sees(*free, *gpl), *seen);
    }
    expect_spaces(&rt, rt.alloc());
}
