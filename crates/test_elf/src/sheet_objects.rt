// Objects by hand: a separate program worked out the bytes from the ELF structures, and readelf
// shows what the sheets say.
use km_names::Name;
use std::alloc::{AllocError, Global};
use std::process::Abort;
use test_objects::{
    EMPTY_MORE, EMPTY_SHEET, ExportRow, MoreRow, NeedRow, PlaceRow, SheetRow, SpaceRow, VersionRow,
    more, sheet,
};
use tree_gen::{Sheet, SheetExport, SheetMore, is_sheet, object, object_more};

/// What is not 0 in the object of one text, each run by its place.
static TEXT_ALONE: [(usize, &[u8]); 35] = [
    (0, b"\x7fELF\x02\x01\x01"),
    (16, b"\x01\0>\0\x01"),
    (40, b"\xb8"),
    (52, b"@\0\0\0\0\0@\0\x09\0\x08\0license=GPL"),
    (
        113,
        b".text\0.data\0.modinfo\0__versions\0.rela.data\0.symtab\0.strtab\0.shstrtab",
    ),
    (248, b"\x01\0\0\0\x01\0\0\0\x06"),
    (272, b"@"),
    (296, b"\x10"),
    (312, b"\x07\0\0\0\x01\0\0\0\x03"),
    (336, b"@"),
    (360, b"\x08"),
    (376, b"\x0d\0\0\0\x01\0\0\0\x02"),
    (400, b"@"),
    (408, b"\x0c"),
    (424, b"\x01"),
    (440, b"\x16\0\0\0\x01\0\0\0\x02"),
    (464, b"P"),
    (488, b" "),
    (504, b"!\0\0\0\x04\0\0\0@"),
    (528, b"P"),
    (544, b"\x06\0\0\0\x02\0\0\0\x08"),
    (560, b"\x18"),
    (568, b",\0\0\0\x02"),
    (592, b"P"),
    (600, b"\x18"),
    (608, b"\x07\0\0\0\x01\0\0\0\x08"),
    (624, b"\x18"),
    (632, b"4\0\0\0\x03"),
    (656, b"h"),
    (664, b"\x01"),
    (680, b"\x01"),
    (696, b"<\0\0\0\x03"),
    (720, b"p"),
    (728, b"F"),
    (744, b"\x01"),
];

/// What is not 0 in the object of a text, a version, an export with its version, a weak need and a
/// place.
static ONE_OF_EACH: [(usize, &[u8]); 46] = [
    (0, b"\x7fELF\x02\x01\x01"),
    (16, b"\x01\0>\0\x01"),
    (40, b"\xa0\x01"),
    (52, b"@\0\0\0\0\0@\0\x09\0\x08"),
    (88, b"license=GPL\0\0\0\0\0xV4\x12\0\0\0\0printk"),
    (176, b"\x02\0\0\0\x04\0\0\0\xfc\xff\xff\xff\xff\xff\xff\xff"),
    (216, b"\x01\0\0\0\0\0\x01"),
    (240, b"\x0d\0\0\0\0\0\xf1\xff\x01\xef\xcd\xab"),
    (264, b"\x15\0\0\0\x12\0\x01"),
    (280, b"\x10"),
    (288, b"\x17\0\0\0 "),
    (
        313,
        b"__ksymtab_f\0__crc_f\0f\0printk\0\0\0\0.text\0.data\0.modinfo\0__versions\0.rela.data\0\
          .symtab\0.strtab\0.shstrtab",
    ),
    (480, b"\x01\0\0\0\x01\0\0\0\x06"),
    (504, b"@"),
    (512, b"\x10"),
    (528, b"\x10"),
    (544, b"\x07\0\0\0\x01\0\0\0\x03"),
    (568, b"P"),
    (576, b"\x08"),
    (592, b"\x08"),
    (608, b"\x0d\0\0\0\x01\0\0\0\x02"),
    (632, b"X"),
    (640, b"\x0c"),
    (656, b"\x01"),
    (672, b"\x16\0\0\0\x01\0\0\0\x02"),
    (696, b"h"),
    (704, b"@"),
    (720, b" "),
    (736, b"!\0\0\0\x04\0\0\0@"),
    (760, b"\xa8"),
    (768, b"\x18"),
    (776, b"\x06\0\0\0\x02\0\0\0\x08"),
    (792, b"\x18"),
    (800, b",\0\0\0\x02"),
    (824, b"\xc0"),
    (832, b"x"),
    (840, b"\x07\0\0\0\x03\0\0\0\x08"),
    (856, b"\x18"),
    (864, b"4\0\0\0\x03"),
    (888, b"8\x01"),
    (896, b"\x1e"),
    (912, b"\x01"),
    (928, b"<\0\0\0\x03"),
    (952, b"X\x01"),
    (960, b"F"),
    (976, b"\x01"),
];

/// What is not 0 in the object of three exports, a need and two extended versions. A GPL-only
/// export with a namespace is between one with a version and one with a namespace.
static MORE: [(usize, &[u8]); 79] = [
    (0, b"\x7fELF\x02\x01\x01"),
    (16, b"\x01\0>\0\x01"),
    (40, b"\xb0\x02"),
    (52, b"@"),
    (58, b"@\0\x0d\0\x08"),
    (120, b"license=GPL"),
    (144, b"\x01\0\0\0\x08"),
    (184, b"\x01"),
    (190, b"\x01"),
    (208, b"\x0d"),
    (214, b"\xf1\xff\x01"),
    (232, b"\x15"),
    (238, b"\x0b"),
    (256, b"!"),
    (262, b"\x0c\0\x03"),
    (280, b"/"),
    (286, b"\x01"),
    (304, b";"),
    (310, b"\x0c"),
    (328, b"I\0\0\0\x12\0\x01"),
    (344, b"\x10"),
    (352, b"K\0\0\0\x12\0\x01\0\x10"),
    (368, b"\x10"),
    (376, b"M\0\0\0\x12\0\x01\0 "),
    (392, b"\x10"),
    (400, b"O\0\0\0\x10"),
    (
        425,
        b"__ksymtab_f\0__crc_f\0__ksymtab_g\0__kstrtabns_g\0__ksymtab_h\0__kstrtabns_h\0f\0g\0h\0\
          printk",
    ),
    (
        513,
        b".text\0.data\0.modinfo\0__versions\0.rela.data\0.symtab\0.strtab\0.shstrtab\0\
          __version_ext_crcs\0__version_ext_names\0__ksymtab_gpl\0__ksymtab_strings",
    ),
    (656, b"\x11\0\0\0\xff\xff\xff\xffprintk"),
    (680, b"NS\0MINE"),
    (752, b"\x01\0\0\0\x01\0\0\0\x06"),
    (776, b"@"),
    (784, b"0"),
    (800, b"\x10"),
    (816, b"\x07\0\0\0\x01\0\0\0\x03"),
    (840, b"p"),
    (848, b"\x08"),
    (864, b"\x08"),
    (880, b"\x0d\0\0\0\x01\0\0\0\x02"),
    (904, b"x"),
    (912, b"\x0c"),
    (928, b"\x01"),
    (944, b"\x16\0\0\0\x01\0\0\0\x02"),
    (968, b"\x88"),
    (992, b" "),
    (1008, b"!\0\0\0\x04\0\0\0@"),
    (1032, b"\x88"),
    (1040, b"\x18"),
    (1048, b"\x06\0\0\0\x02\0\0\0\x08"),
    (1064, b"\x18"),
    (1072, b",\0\0\0\x02"),
    (1096, b"\xa0"),
    (1104, b"\x08\x01"),
    (1112, b"\x07\0\0\0\x07\0\0\0\x08"),
    (1128, b"\x18"),
    (1136, b"4\0\0\0\x03"),
    (1160, b"\xa8\x01"),
    (1168, b"V"),
    (1184, b"\x01"),
    (1200, b"<\0\0\0\x03"),
    (1225, b"\x02"),
    (1232, b"\x8d"),
    (1248, b"\x01"),
    (1264, b"F\0\0\0\x01\0\0\0\x02"),
    (1288, b"\x90\x02"),
    (1296, b"\x08"),
    (1312, b"\x08"),
    (1328, b"Y\0\0\0\x01\0\0\0\x02"),
    (1352, b"\x98\x02"),
    (1360, b"\x08"),
    (1376, b"\x08"),
    (1392, b"m\0\0\0\x01\0\0\0\x02"),
    (1416, b"\xa0\x02"),
    (1424, b"\x08"),
    (1440, b"\x08"),
    (1456, b"{\0\0\0\x01\0\0\0\x02"),
    (1480, b"\xa8\x02"),
    (1488, b"\x08"),
    (1504, b"\x08"),
];

/// The sheet with a text and nothing else.
const TEXT_SHEET: SheetRow = SheetRow {
    texts: &[b"license=GPL"],
    ..EMPTY_SHEET
};

/// The sheet with one of each.
const EACH_SHEET: SheetRow = SheetRow {
    texts: &[b"license=GPL"],
    versions: &[VersionRow {
        name: b"printk",
        crc: 0x1234_5678,
    }],
    exports: &[ExportRow {
        name: b"f",
        crc: Some(0xabcd_ef01),
    }],
    needs: &[NeedRow {
        name: b"printk",
        weak: true,
    }],
    places: &[PlaceRow {
        kind: 2,
        symbol: b"printk",
        addend: -4,
    }],
};

/// The same with a place, but without its symbol.
const NEEDLESS_SHEET: SheetRow = SheetRow {
    needs: &[],
    ..EACH_SHEET
};

/// The sheet of three exports.
const THREE_SHEET: SheetRow = SheetRow {
    texts: &[b"license=GPL"],
    versions: &[],
    exports: &[
        ExportRow {
            name: b"f",
            crc: Some(1),
        },
        ExportRow {
            name: b"g",
            crc: None,
        },
        ExportRow {
            name: b"h",
            crc: None,
        },
    ],
    needs: &[NeedRow {
        name: b"printk",
        weak: false,
    }],
    places: &[PlaceRow {
        kind: 1,
        symbol: b"g",
        addend: 0,
    }],
};

/// What is more of it.
const THREE_MORE: MoreRow = MoreRow {
    ext: &[
        VersionRow {
            name: b"printk",
            crc: 0x11,
        },
        VersionRow {
            name: b"",
            crc: 0xffff_ffff,
        },
    ],
    gpl: &[b"g"],
    spaces: &[
        SpaceRow {
            name: b"h",
            space: b"NS",
        },
        SpaceRow {
            name: b"g",
            space: b"MINE",
        },
    ],
};

/// What more of it can't be: a GPL-only name that isn't exported, a namespace that is empty, one
/// with a NUL, and a version of more than 32 bits.
static NO_MORE_OF_THREE: [MoreRow; 4] = [
    MoreRow {
        gpl: &[b"printk"],
        ..THREE_MORE
    },
    MoreRow {
        spaces: &[SpaceRow {
            name: b"g",
            space: b"",
        }],
        ..THREE_MORE
    },
    MoreRow {
        spaces: &[SpaceRow {
            name: b"g",
            space: b"MI\0NE",
        }],
        ..THREE_MORE
    },
    MoreRow {
        ext: &[VersionRow {
            name: b"",
            crc: 0x1_0000_0000,
        }],
        ..THREE_MORE
    },
];

/// Further names of an export beside the one of `EACH_SHEET`, and whether there is a sheet with
/// both.
static FURTHER: [(&[u8], bool); 4] = [
    (b"", true),
    (b"f", false),
    (b"f\0", false),
    (b"printk", false),
];

// Each call is in a function of its own that promises nothing.

/// Returns the sheet of a row.
fn sheet_of(rt: &impl Abort, alloc: Global, row: &SheetRow) -> Sheet {
    sheet(alloc, row).expect(rt, "a sheet")
}

/// Returns the object of a sheet, if it is one.
fn object_of(rt: &impl Abort, alloc: Global, row: &SheetRow) -> Option<Vec<u8>> {
    let Ok(sheet) = sheet(alloc, row) else {
        panic!(rt; "no memory");
    };
    let Ok(is_one) = is_sheet(alloc, &sheet, &SheetMore::none(alloc)) else {
        panic!(rt; "no memory");
    };
    if !is_one {
        return None;
    }
    let object = object(alloc, &sheet).expect(rt, "an object");
    Some(object.into_vec().expect(rt, "bytes"))
}

/// Returns the object of a sheet with more, if these are one.
fn object_with(
    rt: &impl Abort,
    alloc: Global,
    row: &SheetRow,
    besides: &MoreRow,
) -> Option<Vec<u8>> {
    let sheet = sheet_of(rt, alloc, row);
    let more = more(alloc, besides).expect(rt, "what is more");
    let Ok(is_one) = is_sheet(alloc, &sheet, &more) else {
        panic!(rt; "no memory");
    };
    if !is_one {
        return None;
    }
    let object = object_more(alloc, &sheet, &more).expect(rt, "an object");
    Some(object.into_vec().expect(rt, "bytes"))
}

/// Returns whether the sheet of one of each is one with a further export.
fn is_sheet_with(rt: &impl Abort, alloc: Global, name: &[u8]) -> bool {
    let mut sheet = sheet_of(rt, alloc, &EACH_SHEET);
    let name = Name::from_slice(alloc, name).expect(rt, "a name");
    sheet
        .exports
        .push(SheetExport { name, crc: None })
        .expect(rt, "an export more");
    is_sheet(alloc, &sheet, &SheetMore::none(alloc)).expect(rt, "an answer")
}

/// Returns so many bytes, with these runs and zeros between.
fn unpacked(alloc: Global, length: usize, runs: &[(usize, &[u8])]) -> Result<Vec<u8>, AllocError> {
    let mut bytes = Vec::new(alloc);
    for (place, run) in runs {
        bytes.resize(*place, 0)?;
        bytes.extend_from_slice(run)?;
    }
    bytes.resize(length, 0)?;
    Ok(bytes)
}

/// Checks that an object has these bytes.
fn expect_bytes(
    rt: &impl Abort,
    alloc: Global,
    object: Option<Vec<u8>>,
    length: usize,
    runs: &[(usize, &[u8])],
) {
    let object = object.expect(rt, "a sheet");
    let want = unpacked(alloc, length, runs).expect(rt, "bytes");
    assert_eq!(rt; object.as_slice(), want.as_slice());
}

#[test]
fn objects_have_the_bytes_of_the_structures(rt: HostRuntime) {
    let alloc = rt.alloc();
    let text = object_of(&rt, alloc, &TEXT_SHEET);
    expect_bytes(&rt, alloc, text, 760, &TEXT_ALONE);
    let each = object_of(&rt, alloc, &EACH_SHEET);
    expect_bytes(&rt, alloc, each, 992, &ONE_OF_EACH);
    let three = object_with(&rt, alloc, &THREE_SHEET, &THREE_MORE);
    expect_bytes(&rt, alloc, three, 1520, &MORE);
}

/// Checks that a sheet with more is none.
fn expect_no_sheet(rt: &impl Abort, alloc: Global, row: &SheetRow, more: &MoreRow) {
    assert!(rt; object_with(rt, alloc, row, more).is_none());
}

#[test]
fn sheets_that_are_none(rt: HostRuntime) {
    let alloc = rt.alloc();
    for (name, fits) in &FURTHER {
        assert!(rt; is_sheet_with(&rt, alloc, name) == *fits, "{name:?}");
    }
    expect_no_sheet(&rt, alloc, &NEEDLESS_SHEET, &EMPTY_MORE);
    for more in &NO_MORE_OF_THREE {
        expect_no_sheet(&rt, alloc, &THREE_SHEET, more);
    }
}
