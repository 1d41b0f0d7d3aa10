//! Modules that are refused.

use crate::facts::{BUILT_AGAINST_11, GPL_AND_SPACES, LONG_NEED, THREE};
use crate::facts_row::module_at;
use crate::same::same;
use elf_object::Object;
use km_names::{Blob, FILE_LIMIT, le_u64_at};
use module_facts::ModuleFault;
use std::alloc::Global;
use std::process::Abort;
use test_objects::{MoreRow, NEEDS, NeedRow, PlaceRow, SheetRow, object_of, object_with};

/// Returns why there is no module of these bytes at the path.
fn fault_at(rt: &impl Abort, alloc: Global, path: &[u8], bytes: Blob) -> ModuleFault {
    let refused = module_at(rt, alloc, path, bytes).err();
    refused.expect(rt, "a refusal")
}

/// Checks the text of a fault.
fn expect_text(rt: &impl Abort, alloc: Global, fault: &ModuleFault, want: &[u8]) {
    same(rt, fault.text(alloc).expect(rt, "a text").as_bytes(), want);
}

/// Checks that the module of a sheet at the path has this fault.
fn expect_fault(rt: &impl Abort, alloc: Global, path: &[u8], sheet: &SheetRow, want: &[u8]) {
    let bytes = object_of(alloc, sheet).expect(rt, "an object");
    expect_text(rt, alloc, &fault_at(rt, alloc, path, bytes), want);
}

/// The same with a relocation type that isn't known.
static UNKNOWN_TYPE: SheetRow = SheetRow {
    texts: &[],
    versions: &[],
    exports: &[],
    needs: &[NeedRow {
        name: b"fa",
        weak: false,
    }],
    places: &[PlaceRow {
        kind: 9,
        symbol: b"fa",
        addend: 0,
    }],
};

/// Two needs and two words.
static TWO_WORDS: SheetRow = SheetRow {
    texts: &[],
    versions: &[],
    exports: &[],
    needs: &[
        NeedRow {
            name: b"fa",
            weak: false,
        },
        NeedRow {
            name: b"fb",
            weak: false,
        },
    ],
    places: &[
        PlaceRow {
            kind: 1,
            symbol: b"fa",
            addend: 0,
        },
        PlaceRow {
            kind: 1,
            symbol: b"fb",
            addend: 0,
        },
    ],
};

/// Returns where the second entry of the section `.rela.data`, the fifth, is in the file.
fn second_relocation(rt: &impl Abort, bytes: &[u8]) -> usize {
    assert!(rt; bytes.len() >= 48);
    let header = le_u64_at(bytes, 40).saturating_add(64 * 5 + 24);
    assert!(rt; header < 4096 && header as usize + 8 <= bytes.len());
    let content = le_u64_at(bytes, header as usize);
    assert!(rt; content < 4096);
    content as usize + 24
}

/// Checks an object whose second word's place moves into the first.
fn expect_overlap(rt: &impl Abort, alloc: Global) {
    let mut bytes = object_of(alloc, &TWO_WORDS)
        .expect(rt, "an object")
        .into_vec()
        .expect(rt, "bytes");
    let entry = second_relocation(rt, bytes.as_slice());
    assert!(rt; entry < bytes.len());
    assert!(rt; bytes[entry] == 8);
    bytes[entry] = 4;
    let fault = fault_at(rt, alloc, b"/m/x.ko", Blob::from_vec(bytes));
    expect_text(rt, alloc, &fault, b"overlapping places in section 2 at 4");
}

/// Reads an object.
fn object_at(rt: &impl Abort, alloc: Global, bytes: &Blob) -> Object {
    let copy = Blob::from_slice(alloc, bytes.as_bytes()).expect(rt, "a copy");
    assert!(rt; copy.len() <= FILE_LIMIT);
    Object::read(alloc, copy).expect(rt, "an object")
}

/// Returns where the section of this name ends in the file.
fn section_end(rt: &impl Abort, alloc: Global, bytes: &Blob, section: &[u8]) -> u64 {
    let object = object_at(rt, alloc, bytes);
    match object.section_named(section) {
        Some(i) => object
            .section(i)
            .offset
            .saturating_add(object.section(i).size),
        None => panic!(rt; "no such section"),
    }
}

/// Returns the object with another byte before this place.
fn with_byte_before(rt: &impl Abort, bytes: Blob, end: u64, byte: u8) -> Blob {
    let mut changed = bytes.into_vec().expect(rt, "bytes");
    assert!(rt; end > 0 && end <= 65536 && end as usize <= changed.len());
    let last = end as usize - 1;
    assert!(rt; changed[last] == 0);
    changed[last] = byte;
    Blob::from_vec(changed)
}

/// Checks that the module without the NUL that ends a section has this fault.
fn expect_fault_without_nul(
    rt: &impl Abort,
    alloc: Global,
    (sheet, more): (&SheetRow, &MoreRow),
    section: &[u8],
    want: &[u8],
) {
    let bytes = object_with(alloc, sheet, more).expect(rt, "an object");
    let end = section_end(rt, alloc, &bytes, section);
    let changed = with_byte_before(rt, bytes, end, b'x');
    let fault = fault_at(rt, alloc, b"kernel/b.ko", changed);
    expect_text(rt, alloc, &fault, want);
}

/// Checks that the first fault is named: the path's, then the object's. A name or a namespace
/// without a NUL is refused.
#[test]
fn faults_are_named(rt: HostRuntime) {
    let alloc = rt.alloc();
    expect_fault(&rt, alloc, b"/m/x.ko.zst", &NEEDS, b"compressed");
    expect_fault(
        &rt,
        alloc,
        b"/m/x.ko",
        &UNKNOWN_TYPE,
        b"unknown relocation 5 0 9",
    );
    expect_overlap(&rt, alloc);
    expect_fault_without_nul(
        &rt,
        alloc,
        (&LONG_NEED, &BUILT_AGAINST_11),
        b"__version_ext_names",
        b"bad versions",
    );
    expect_fault_without_nul(
        &rt,
        alloc,
        (&THREE, &GPL_AND_SPACES),
        b"__ksymtab_strings",
        b"bad namespace of fb",
    );
}
