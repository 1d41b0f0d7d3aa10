// The readers over bytes that were written by hand, with one change or more, and the texts of
// faults.

ghost use Rattle.std.specs.Prelude.{◌≡◌, length, IfOk};

use elf_object::{Object, ObjectFault, ObjectView, RelaPlace, SectionFault, Sections};
use km_names::Blob;
use std::alloc::{AllocError, Global};
use std::process::Abort;
use test_objects::LICENSE_OBJECT;

/// A file with code, two relocations of it, and the symbols `f`, defined, and `g`, weak and
/// undefined. Symbol 0 has a name outside of the string table.
static CODE: [u8; 640] = [
    0x7f, 0x45, 0x4c, 0x46, 0x02, 0x01, 0x01, 0x00, 0x00, 0x00, 0x00, 0x00, 0x00, 0x00, 0x00, 0x00,
    0x01, 0x00, 0x3e, 0x00, 0x01, 0x00, 0x00, 0x00, 0x00, 0x00, 0x00, 0x00, 0x00, 0x00, 0x00, 0x00,
    0x00, 0x00, 0x00, 0x00, 0x00, 0x00, 0x00, 0x00, 0x00, 0x01, 0x00, 0x00, 0x00, 0x00, 0x00, 0x00,
    0x00, 0x00, 0x00, 0x00, 0x40, 0x00, 0x00, 0x00, 0x00, 0x00, 0x40, 0x00, 0x06, 0x00, 0x05, 0x00,
    0x00, 0x00, 0x00, 0x00, 0x00, 0x00, 0x00, 0x00, 0x00, 0x00, 0x00, 0x00, 0x00, 0x00, 0x00, 0x00,
    0x00, 0x00, 0x00, 0x00, 0x00, 0x00, 0x00, 0x00, 0x02, 0x00, 0x00, 0x00, 0x02, 0x00, 0x00, 0x00,
    0xfc, 0xff, 0xff, 0xff, 0xff, 0xff, 0xff, 0xff, 0x08, 0x00, 0x00, 0x00, 0x00, 0x00, 0x00, 0x00,
    0x01, 0x00, 0x00, 0x00, 0x01, 0x00, 0x00, 0x00, 0x05, 0x00, 0x00, 0x00, 0x00, 0x00, 0x00, 0x00,
    0x63, 0x00, 0x00, 0x00, 0x00, 0x00, 0x00, 0x00, 0x00, 0x00, 0x00, 0x00, 0x00, 0x00, 0x00, 0x00,
    0x00, 0x00, 0x00, 0x00, 0x00, 0x00, 0x00, 0x00, 0x01, 0x00, 0x00, 0x00, 0x12, 0x00, 0x01, 0x00,
    0x04, 0x00, 0x00, 0x00, 0x00, 0x00, 0x00, 0x00, 0x08, 0x00, 0x00, 0x00, 0x00, 0x00, 0x00, 0x00,
    0x03, 0x00, 0x00, 0x00, 0x20, 0x00, 0x00, 0x00, 0x00, 0x00, 0x00, 0x00, 0x00, 0x00, 0x00, 0x00,
    0x00, 0x00, 0x00, 0x00, 0x00, 0x00, 0x00, 0x00, 0x00, 0x66, 0x00, 0x67, 0x00, 0x00, 0x00, 0x00,
    0x00, 0x2e, 0x74, 0x65, 0x78, 0x74, 0x00, 0x2e, 0x72, 0x65, 0x6c, 0x61, 0x2e, 0x74, 0x65, 0x78,
    0x74, 0x00, 0x2e, 0x73, 0x79, 0x6d, 0x74, 0x61, 0x62, 0x00, 0x2e, 0x73, 0x74, 0x72, 0x74, 0x61,
    0x62, 0x00, 0x2e, 0x73, 0x68, 0x73, 0x74, 0x72, 0x74, 0x61, 0x62, 0x00, 0x00, 0x00, 0x00, 0x00,
    0x00, 0x00, 0x00, 0x00, 0x00, 0x00, 0x00, 0x00, 0x00, 0x00, 0x00, 0x00, 0x00, 0x00, 0x00, 0x00,
    0x00, 0x00, 0x00, 0x00, 0x00, 0x00, 0x00, 0x00, 0x00, 0x00, 0x00, 0x00, 0x00, 0x00, 0x00, 0x00,
    0x00, 0x00, 0x00, 0x00, 0x00, 0x00, 0x00, 0x00, 0x00, 0x00, 0x00, 0x00, 0x00, 0x00, 0x00, 0x00,
    0x00, 0x00, 0x00, 0x00, 0x00, 0x00, 0x00, 0x00, 0x00, 0x00, 0x00, 0x00, 0x00, 0x00, 0x00, 0x00,
    0x01, 0x00, 0x00, 0x00, 0x01, 0x00, 0x00, 0x00, 0x06, 0x00, 0x00, 0x00, 0x00, 0x00, 0x00, 0x00,
    0x00, 0x00, 0x00, 0x00, 0x00, 0x00, 0x00, 0x00, 0x40, 0x00, 0x00, 0x00, 0x00, 0x00, 0x00, 0x00,
    0x10, 0x00, 0x00, 0x00, 0x00, 0x00, 0x00, 0x00, 0x00, 0x00, 0x00, 0x00, 0x00, 0x00, 0x00, 0x00,
    0x10, 0x00, 0x00, 0x00, 0x00, 0x00, 0x00, 0x00, 0x00, 0x00, 0x00, 0x00, 0x00, 0x00, 0x00, 0x00,
    0x07, 0x00, 0x00, 0x00, 0x04, 0x00, 0x00, 0x00, 0x40, 0x00, 0x00, 0x00, 0x00, 0x00, 0x00, 0x00,
    0x00, 0x00, 0x00, 0x00, 0x00, 0x00, 0x00, 0x00, 0x50, 0x00, 0x00, 0x00, 0x00, 0x00, 0x00, 0x00,
    0x30, 0x00, 0x00, 0x00, 0x00, 0x00, 0x00, 0x00, 0x03, 0x00, 0x00, 0x00, 0x01, 0x00, 0x00, 0x00,
    0x08, 0x00, 0x00, 0x00, 0x00, 0x00, 0x00, 0x00, 0x18, 0x00, 0x00, 0x00, 0x00, 0x00, 0x00, 0x00,
    0x12, 0x00, 0x00, 0x00, 0x02, 0x00, 0x00, 0x00, 0x00, 0x00, 0x00, 0x00, 0x00, 0x00, 0x00, 0x00,
    0x00, 0x00, 0x00, 0x00, 0x00, 0x00, 0x00, 0x00, 0x80, 0x00, 0x00, 0x00, 0x00, 0x00, 0x00, 0x00,
    0x48, 0x00, 0x00, 0x00, 0x00, 0x00, 0x00, 0x00, 0x04, 0x00, 0x00, 0x00, 0x01, 0x00, 0x00, 0x00,
    0x08, 0x00, 0x00, 0x00, 0x00, 0x00, 0x00, 0x00, 0x18, 0x00, 0x00, 0x00, 0x00, 0x00, 0x00, 0x00,
    0x1a, 0x00, 0x00, 0x00, 0x03, 0x00, 0x00, 0x00, 0x00, 0x00, 0x00, 0x00, 0x00, 0x00, 0x00, 0x00,
    0x00, 0x00, 0x00, 0x00, 0x00, 0x00, 0x00, 0x00, 0xc8, 0x00, 0x00, 0x00, 0x00, 0x00, 0x00, 0x00,
    0x08, 0x00, 0x00, 0x00, 0x00, 0x00, 0x00, 0x00, 0x00, 0x00, 0x00, 0x00, 0x00, 0x00, 0x00, 0x00,
    0x01, 0x00, 0x00, 0x00, 0x00, 0x00, 0x00, 0x00, 0x00, 0x00, 0x00, 0x00, 0x00, 0x00, 0x00, 0x00,
    0x22, 0x00, 0x00, 0x00, 0x03, 0x00, 0x00, 0x00, 0x00, 0x00, 0x00, 0x00, 0x00, 0x00, 0x00, 0x00,
    0x00, 0x00, 0x00, 0x00, 0x00, 0x00, 0x00, 0x00, 0xd0, 0x00, 0x00, 0x00, 0x00, 0x00, 0x00, 0x00,
    0x2c, 0x00, 0x00, 0x00, 0x00, 0x00, 0x00, 0x00, 0x00, 0x00, 0x00, 0x00, 0x00, 0x00, 0x00, 0x00,
    0x01, 0x00, 0x00, 0x00, 0x00, 0x00, 0x00, 0x00, 0x00, 0x00, 0x00, 0x00, 0x00, 0x00, 0x00, 0x00,
];

/// Changes of a file: places, and the bytes there.
type Changes = &'static [(usize, u8)];

/// Returns the bytes of a file with some bytes changed, each at a place.
fn changed(alloc: Global, file: &[u8], changes: &[(usize, u8)]) -> Result<Blob, AllocError>
    ensures { IfOk result (λ bytes. length bytes ≡ length file.now) }
{
    let mut bytes = Vec::from_slice(alloc, file)?;
    for (at, byte) in changes {
        if *at < bytes.len() {
            bytes[*at] = *byte;
        }
    }
    Ok(Blob::from_vec(bytes))
}

// Each call is in a function of its own that promises nothing: a test compares what the call
// answered, and neither its contract nor the bytes need be carried along.

/// Returns the first bytes of `LICENSE_OBJECT`, with these changes, as sections.
fn sections_of(
    alloc: Global,
    length: usize,
    changes: &[(usize, u8)],
) -> Result<Sections, SectionFault> {
    let start = LICENSE_OBJECT.get(..length).unwrap_or(&[]);
    Sections::read(alloc, changed(alloc, start, changes)?)
}

/// Returns why these aren't sections.
fn fault_of_sections(
    alloc: Global,
    length: usize,
    changes: &[(usize, u8)],
) -> Option<SectionFault> {
    sections_of(alloc, length, changes).err()
}

/// Returns `CODE`, with these changes, as an object.
fn object_of(alloc: Global, changes: &[(usize, u8)]) -> Result<Object, ObjectFault> {
    Object::read(alloc, changed(alloc, &CODE, changes)?)
}

/// Returns why that isn't an object.
fn fault_of_object(alloc: Global, changes: &[(usize, u8)]) -> Option<ObjectFault> {
    object_of(alloc, changes).err()
}

/// Returns `CODE` as it is viewed.
fn view_of(rt: &impl Abort, alloc: Global) -> ObjectView<'static> {
    ObjectView::read(alloc, &CODE).expect(rt, "a view")
}

/// Returns an object as it is viewed.
fn view_of_object<'a>(rt: &impl Abort, alloc: Global, object: &'a Object) -> ObjectView<'a> {
    object.view(alloc).expect(rt, "a view")
}

fn same(rt: &impl Abort, got: &[u8], want: &[u8]) {
    assert_eq!(rt; got, want);
}

fn same_numbers(rt: &impl Abort, got: [u64; 4], want: [u64; 4]) {
    assert_eq!(rt; got, want);
}

fn same_place(rt: &impl Abort, got: Option<u32>, want: Option<u32>) {
    assert_eq!(rt; got, want);
}

fn same_fault(rt: &impl Abort, got: Option<SectionFault>, want: Option<SectionFault>) {
    assert_eq!(rt; got, want, "{want:?}");
}

fn same_object_fault(rt: &impl Abort, got: Option<ObjectFault>, want: Option<ObjectFault>) {
    assert_eq!(rt; got, want, "{want:?}");
}

/// Checks the sections of `LICENSE_OBJECT`.
fn expect_sections(rt: &impl Abort, sections: &Sections) {
    assert_eq!(rt; sections.section_count(), 3);
    same_place(rt, sections.section_named(b".modinfo"), Some(1));
    same_place(rt, sections.section_named(b".text"), None);
    let texts = sections.section(1);
    same(rt, texts.name.as_bytes(), b".modinfo");
    let numbers = [texts.kind as u64, texts.flags, texts.offset, texts.size];
    same_numbers(rt, numbers, [1, 2, 64, 12]);
    let numbers = [
        texts.link as u64,
        texts.info as u64,
        texts.align,
        texts.kept as u64,
    ];
    same_numbers(rt, numbers, [0, 0, 1, 0]);
    same(rt, sections.section_bytes(1), b"license=GPL\0");
    same(rt, sections.section_bytes(0), b"");
}

/// Returns the fault of the first bytes of `LICENSE_OBJECT`.
fn fault_of_start(length: usize) -> SectionFault {
    match length {
        0..4 => SectionFault::NotElf,
        4..64 => SectionFault::Truncated {
            offset: 0,
            need: 64,
        },
        _ => SectionFault::Truncated {
            offset: 96,
            need: 192,
        },
    }
}

/// Checks that each shorter file is refused.
fn expect_starts_refused(rt: &impl Abort, alloc: Global) {
    for length in 0..288 {
        let got = fault_of_sections(alloc, length, &[]);
        let want = Some(fault_of_start(length));
        assert!(rt; got == want, "the first {length} bytes");
    }
}

/// Changes of `LICENSE_OBJECT`, and the fault that each is refused with.
static SECTION_FAULTS: [(Changes, SectionFault); 12] = [
    (&[(4, 1)], SectionFault::WrongClass),
    (&[(18, 40)], SectionFault::WrongMachine),
    (&[(16, 2)], SectionFault::NotRelocatable),
    (&[(60, 0)], SectionFault::BadSection { index: 0 }),
    (&[(62, 1)], SectionFault::BadSection { index: 1 }),
    (&[(62, 0)], SectionFault::BadSection { index: 0 }),
    (
        &[
            (40, 255),
            (41, 255),
            (42, 255),
            (43, 255),
            (44, 255),
            (45, 255),
            (46, 255),
            (47, 255),
        ],
        SectionFault::Truncated {
            offset: u64::MAX,
            need: 192,
        },
    ),
    (
        &[(192, 0), (193, 16)],
        SectionFault::Truncated {
            offset: 64,
            need: 4096,
        },
    ),
    (&[(160, 20)], SectionFault::BadString { offset: 20 }),
    (&[(100, 1)], SectionFault::BadSection { index: 0 }),
    (&[(160, 20), (4, 1)], SectionFault::WrongClass),
    (
        &[(160, 20), (192, 0), (193, 16)],
        SectionFault::Truncated {
            offset: 64,
            need: 4096,
        },
    ),
];

#[test]
fn sections_are_read_or_refused(rt: HostRuntime) {
    let alloc = rt.alloc();
    expect_sections(&rt, &sections_of(alloc, 288, &[]).expect(&rt, "sections"));
    expect_starts_refused(&rt, alloc);
    for (changes, fault) in &SECTION_FAULTS {
        same_fault(&rt, fault_of_sections(alloc, 288, changes), Some(*fault));
    }
}

/// Names of a section, and whether it is kept. Names for the loading aren't.
static NAMES: [(&[u8], bool); 6] = [
    (b".text\0", true),
    (b".modinfo\0", false),
    (b"__versions\0", false),
    (b"__version_ext_crcs\0", false),
    (b"__version_ext_names\0", false),
    (b"__version_ext\0", true),
];

/// Returns the sections of `CODE` with another name of the first.
fn renamed(rt: &impl Abort, alloc: Global, name: &[u8]) -> Sections {
    let mut bytes = Vec::from_slice(alloc, &CODE).expect(rt, "bytes");
    for (byte, new) in bytes.iter_mut().skip(209).zip(name) {
        *byte = *new;
    }
    Sections::read(alloc, Blob::from_vec(bytes)).expect(rt, "sections")
}

/// Checks whether a section of this name is kept.
fn expect_kept(rt: &impl Abort, alloc: Global, name: &[u8], kept: bool) {
    let sections = renamed(rt, alloc, name);
    assert_eq!(rt; sections.section_count(), 6);
    assert!(rt; sections.section(1).kept == kept, "{name:?}");
}

/// The symbols of `CODE`: their names, bindings, sections and values.
static SYMBOLS: [(&[u8], u8, u16, u64); 3] = [(b"", 0, 0, 0), (b"f", 1, 1, 4), (b"g", 2, 0, 0)];

/// The places of `CODE`.
static PLACES: [RelaPlace; 2] = [
    RelaPlace {
        section: 2,
        entry: 0,
        target: 1,
        offset: 0,
        symbol: 2,
        kind: 2,
        addend: -4,
    },
    RelaPlace {
        section: 2,
        entry: 1,
        target: 1,
        offset: 8,
        symbol: 1,
        kind: 1,
        addend: 5,
    },
];

/// Checks the sections of `CODE`.
fn expect_parts(rt: &impl Abort, object: &Object) {
    assert_eq!(rt; object.section_count(), 6);
    same_place(rt, object.section_named(b".rela.text"), Some(2));
    assert!(rt; object.section(1).kept && !object.section(2).kept);
    same(rt, object.section_bytes(4), b"\0f\0g\0\0\0\0");
}

/// Checks the symbols of `CODE`.
fn expect_symbols(rt: &impl Abort, object: &Object) {
    assert_eq!(rt; object.symbol_count(), 3);
    for i in 0..3 {
        let (name, binding, section, value) = SYMBOLS[i as usize];
        let symbol = object.symbol(i);
        same(rt, symbol.name.as_bytes(), name);
        let numbers = [
            symbol.binding as u64,
            symbol.section as u64,
            symbol.value,
            0,
        ];
        same_numbers(rt, numbers, [binding as u64, section as u64, value, 0]);
    }
}

/// Checks the places of `CODE`.
fn expect_places(rt: &impl Abort, object: &Object) {
    assert_eq!(rt; object.place_count(), 2);
    for i in 0..2 {
        assert_eq!(rt; *object.place(i), PLACES[i as usize]);
    }
}

/// Checks that a view shows the sections and the symbols of `CODE`.
fn expect_shown(rt: &impl Abort, view: &ObjectView) {
    assert_eq!(rt; view.section_count(), 6);
    same_place(rt, view.section_named(b".rela.text"), Some(2));
    assert!(rt; view.section(1).kept && !view.section(2).kept);
    same(rt, view.section_bytes(4), b"\0f\0g\0\0\0\0");
    assert_eq!(rt; view.symbol_count(), 3);
    let symbol = view.symbol(1);
    same(rt, symbol.name, b"f");
    let numbers = [
        symbol.binding as u64,
        symbol.section as u64,
        symbol.value,
        0,
    ];
    same_numbers(rt, numbers, [1, 1, 4, 0]);
}

#[test]
fn objects_are_read_and_viewed(rt: HostRuntime) {
    let alloc = rt.alloc();
    for (name, kept) in &NAMES {
        expect_kept(&rt, alloc, name, *kept);
    }
    let object = object_of(alloc, &[]).expect(&rt, "an object");
    expect_parts(&rt, &object);
    expect_symbols(&rt, &object);
    expect_places(&rt, &object);
    expect_shown(&rt, &view_of(&rt, alloc));
    expect_shown(&rt, &view_of_object(&rt, alloc, &object));
}

/// Changes of `CODE`, and the fault that each is refused with, if any.
static OBJECT_FAULTS: [(Changes, Option<ObjectFault>); 25] = [
    (
        &[(4, 1)],
        Some(ObjectFault::Shape(SectionFault::WrongClass)),
    ),
    (&[(388, 9)], Some(ObjectFault::RelSection { index: 2 })),
    (&[(504, 25)], Some(ObjectFault::BadTable { index: 3 })),
    (&[(480, 73)], Some(ObjectFault::BadTable { index: 3 })),
    (&[(428, 0)], Some(ObjectFault::BadTable { index: 2 })),
    (&[(424, 1)], Some(ObjectFault::BadTable { index: 2 })),
    (
        &[(580, 2)],
        Some(ObjectFault::Shape(SectionFault::BadSection { index: 5 })),
    ),
    (
        &[(152, 100)],
        Some(ObjectFault::Shape(SectionFault::BadString { offset: 100 })),
    ),
    (
        &[(158, 255), (159, 255)],
        Some(ObjectFault::ExtendedIndex { index: 1 }),
    ),
    (
        &[(158, 0xf2), (159, 255)],
        Some(ObjectFault::CommonSymbol { index: 1 }),
    ),
    (
        &[(158, 0xf3), (159, 255)],
        Some(ObjectFault::BadSymbol { index: 1 }),
    ),
    (&[(158, 6)], Some(ObjectFault::BadSymbol { index: 1 })),
    (&[(156, 0x32)], Some(ObjectFault::BadSymbol { index: 1 })),
    (&[(180, 0x02)], Some(ObjectFault::BadSymbol { index: 2 })),
    (&[(368, 3)], Some(ObjectFault::BadAlign { index: 1 })),
    (
        &[(92, 3)],
        Some(ObjectFault::BadRela {
            section: 2,
            entry: 0,
        }),
    ),
    (
        &[(88, 9)],
        Some(ObjectFault::UnknownType {
            section: 2,
            entry: 0,
            kind: 9,
        }),
    ),
    (
        &[(80, 13)],
        Some(ObjectFault::BadRela {
            section: 2,
            entry: 0,
        }),
    ),
    (
        &[(324, 8)],
        Some(ObjectFault::BadRela {
            section: 2,
            entry: 0,
        }),
    ),
    (
        &[(158, 3)],
        Some(ObjectFault::BadRela {
            section: 2,
            entry: 1,
        }),
    ),
    (
        &[(104, 2)],
        Some(ObjectFault::OverlappingPlaces {
            section: 1,
            offset: 2,
        }),
    ),
    (
        &[(80, 12)],
        Some(ObjectFault::OverlappingPlaces {
            section: 1,
            offset: 12,
        }),
    ),
    (&[(80, 12), (104, 0)], None),
    (&[(80, 200), (88, 0)], None),
    (&[(158, 0xf1), (159, 255)], None),
];

/// Faults and their texts.
static TEXTS: [(ObjectFault, &[u8]); 17] = [
    (ObjectFault::Shape(SectionFault::NotElf), b"not an ELF file"),
    (
        ObjectFault::Shape(SectionFault::Truncated {
            offset: 96,
            need: 192,
        }),
        b"truncated at 96 need 192",
    ),
    (ObjectFault::Shape(SectionFault::WrongClass), b"wrong class"),
    (
        ObjectFault::Shape(SectionFault::WrongMachine),
        b"wrong machine",
    ),
    (
        ObjectFault::Shape(SectionFault::NotRelocatable),
        b"not relocatable",
    ),
    (
        ObjectFault::Shape(SectionFault::BadSection { index: 1 }),
        b"bad section 1",
    ),
    (
        ObjectFault::Shape(SectionFault::BadString { offset: 20 }),
        b"bad string at 20",
    ),
    (
        ObjectFault::RelSection { index: 2 },
        b"relocations without addends in section 2",
    ),
    (
        ObjectFault::BadTable { index: 3 },
        b"bad table in section 3",
    ),
    (
        ObjectFault::ExtendedIndex { index: 4 },
        b"extended index at symbol 4",
    ),
    (ObjectFault::CommonSymbol { index: 5 }, b"common symbol 5"),
    (ObjectFault::BadSymbol { index: 6 }, b"bad symbol 6"),
    (
        ObjectFault::BadAlign { index: 7 },
        b"bad alignment of section 7",
    ),
    (
        ObjectFault::BadRela {
            section: 8,
            entry: 9,
        },
        b"bad relocation 8 9",
    ),
    (
        ObjectFault::UnknownType {
            section: 5,
            entry: 0,
            kind: 9,
        },
        b"unknown relocation 5 0 9",
    ),
    (
        ObjectFault::OverlappingPlaces {
            section: 2,
            offset: 4,
        },
        b"overlapping places in section 2 at 4",
    ),
    (ObjectFault::Memory, b"out of memory"),
];

/// Returns the text of a fault.
fn text_of(rt: &impl Abort, alloc: Global, fault: &ObjectFault) -> Blob {
    fault.text(alloc).expect(rt, "a text")
}

/// Checks the text of the fault of sections that no fault of an object has.
fn expect_no_memory(rt: &impl Abort, alloc: Global) {
    let text = SectionFault::Memory.text(alloc).expect(rt, "a text");
    same(rt, text.as_bytes(), b"out of memory");
}

#[test]
fn faults_are_named_and_have_texts(rt: HostRuntime) {
    let alloc = rt.alloc();
    for (changes, fault) in &OBJECT_FAULTS {
        same_object_fault(&rt, fault_of_object(alloc, changes), *fault);
    }
    for (fault, text) in &TEXTS {
        same(&rt, text_of(&rt, alloc, fault).as_bytes(), text);
    }
    expect_no_memory(&rt, alloc);
}
