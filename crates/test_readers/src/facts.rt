//! What objects of sheets are read as.

use crate::facts_row::{
    ExportFact, FactsRow, NO_FACTS, NeedFact, expect_facts, expect_needs, module_of,
};
use std::alloc::Global;
use std::process::Abort;
use test_objects::{
    EMPTY_SHEET, ExportRow, MoreRow, NEEDS, NO_MORE, NeedRow, PlaceRow, SheetRow, SpaceRow,
    VersionRow,
};

/// Exports with and without versions, a strong and a weak need, a version of a name that isn't
/// needed, texts that occur twice, and names with dashes.
const VARIED: SheetRow = SheetRow {
    texts: &[
        b"license=GPL",
        b"alias=pci-x:v*",
        b"alias=pci-x:v*",
        b"softdep=pre: crc32c",
        b"depends=",
    ],
    versions: &[
        VersionRow {
            name: b"printk",
            crc: 0x1234_5678,
        },
        VersionRow {
            name: b"unneeded",
            crc: 2,
        },
        VersionRow {
            name: b"may-be",
            crc: 3,
        },
        VersionRow {
            name: b"printk",
            crc: 4,
        },
    ],
    exports: &[
        ExportRow {
            name: b"z-last",
            crc: Some(0x0001_1234_5678),
        },
        ExportRow {
            name: b"a_first",
            crc: None,
        },
    ],
    needs: &[
        NeedRow {
            name: b"printk",
            weak: false,
        },
        NeedRow {
            name: b"may-be",
            weak: true,
        },
        NeedRow {
            name: b"kfree",
            weak: false,
        },
    ],
    places: &[
        PlaceRow {
            kind: 1,
            symbol: b"printk",
            addend: 0,
        },
        PlaceRow {
            kind: 2,
            symbol: b"z-last",
            addend: -4,
        },
    ],
};

/// A sheet of nothing, and the varied one.
static SHEETS: [FactsRow; 2] = [
    FactsRow {
        path: b"kernel/em-pty.ko",
        name: b"em_pty",
        ..NO_FACTS
    },
    FactsRow {
        path: b"kernel/varied.ko",
        sheet: VARIED,
        name: b"varied",
        exports: &[
            ExportFact {
                name: b"z-last",
                crc: Some(0x0001_1234_5678),
                gpl: false,
                space: b"",
            },
            ExportFact {
                name: b"a_first",
                crc: None,
                gpl: false,
                space: b"",
            },
        ],
        needs: &[
            NeedFact {
                name: b"printk",
                weak: false,
                crc: Some(0x1234_5678),
            },
            NeedFact {
                name: b"may-be",
                weak: true,
                crc: Some(3),
            },
            NeedFact {
                name: b"kfree",
                weak: false,
                crc: None,
            },
        ],
        aliases: &[b"pci-x:v*", b"pci-x:v*"],
        softdeps: &[b"pre: crc32c"],
        free: true,
        ..NO_FACTS
    },
];

/// A need without a version.
static NEEDED: [NeedFact; 1] = [NeedFact {
    name: b"fa",
    weak: false,
    crc: None,
}];

/// Checks that a need is found in the facts, and the word that it fills in the object.
fn expect_place(rt: &impl Abort, alloc: Global) {
    let module = module_of(rt, alloc, b"kernel/b.ko", &NEEDS, &NO_MORE);
    assert!(rt; module.facts.exports.is_empty());
    expect_needs(rt, &module.facts.needs, &NEEDED);
    assert_eq!(rt; module.object.place_count(), 1);
    let place = module.object.place(0);
    assert!(rt; place.target == 2 && place.offset == 0 && place.kind == 1);
    drop(module);
}

/// A name that is too long for an entry of `__versions`.
const LONG: [u8; 60] = [b'x'; 60];

/// A module that needs the long name.
pub(crate) const LONG_NEED: SheetRow = SheetRow {
    texts: &[],
    versions: &[],
    exports: &[],
    needs: &[NeedRow {
        name: &LONG,
        weak: false,
    }],
    places: &[PlaceRow {
        kind: 1,
        symbol: &LONG,
        addend: 0,
    }],
};

/// The version that this one was built against.
pub(crate) const BUILT_AGAINST_11: MoreRow = MoreRow {
    ext: &[VersionRow {
        name: &LONG,
        crc: 0x11,
    }],
    gpl: &[],
    spaces: &[],
};

/// Another one.
const BUILT_AGAINST_12: MoreRow = MoreRow {
    ext: &[VersionRow {
        name: &LONG,
        crc: 0x12,
    }],
    gpl: &[],
    spaces: &[],
};

/// A need with a version among entries, which extended versions hide.
const HIDDEN_ENTRY: SheetRow = SheetRow {
    texts: &[],
    versions: &[VersionRow {
        name: b"fa",
        crc: 0x21,
    }],
    exports: &[],
    needs: &[NeedRow {
        name: b"fa",
        weak: false,
    }],
    places: &[],
};

/// A need of the long name is read with this version.
const LONG_READ: FactsRow = FactsRow {
    sheet: LONG_NEED,
    more: BUILT_AGAINST_11,
    needs: &[NeedFact {
        name: &LONG,
        weak: false,
        crc: Some(0x11),
    }],
    ..NO_FACTS
};

/// Modules with extended versions: a name of 60 bytes has a version on both sides, which may be
/// another one; extended versions hide the entries.
static EXTENDED: [FactsRow; 3] = [
    LONG_READ,
    FactsRow {
        more: BUILT_AGAINST_12,
        needs: &[NeedFact {
            name: &LONG,
            weak: false,
            crc: Some(0x12),
        }],
        ..LONG_READ
    },
    FactsRow {
        sheet: HIDDEN_ENTRY,
        needs: &[NeedFact {
            name: b"fa",
            weak: false,
            crc: None,
        }],
        ..LONG_READ
    },
];

/// A module that exports the long name.
const LONG_EXPORT: SheetRow = SheetRow {
    texts: &[],
    versions: &[],
    exports: &[ExportRow {
        name: &LONG,
        crc: Some(0x11),
    }],
    needs: &[],
    places: &[],
};

/// What it is read with.
static LONG_EXPORTED: [FactsRow; 1] = [FactsRow {
    sheet: LONG_EXPORT,
    exports: &[ExportFact {
        name: &LONG,
        crc: Some(0x11),
        gpl: false,
        space: b"",
    }],
    ..NO_FACTS
}];

/// Three exports.
pub(crate) const THREE: SheetRow = SheetRow {
    texts: &[],
    versions: &[],
    exports: &[
        ExportRow {
            name: b"fa",
            crc: None,
        },
        ExportRow {
            name: b"fb",
            crc: Some(1),
        },
        ExportRow {
            name: b"fc",
            crc: None,
        },
    ],
    needs: &[],
    places: &[],
};

/// The second of these is GPL-only, and the last two have namespaces.
pub(crate) const GPL_AND_SPACES: MoreRow = MoreRow {
    ext: &[],
    gpl: &[b"fb"],
    spaces: &[
        SpaceRow {
            name: b"fc",
            space: b"NS",
        },
        SpaceRow {
            name: b"fb",
            space: b"OTHER",
        },
    ],
};

/// What they are read with. Exports are GPL-only by the section of their entry, and in the
/// namespace that is stated for them.
static EXPORTED: [FactsRow; 1] = [FactsRow {
    sheet: THREE,
    more: GPL_AND_SPACES,
    exports: &[
        ExportFact {
            name: b"fa",
            crc: None,
            gpl: false,
            space: b"",
        },
        ExportFact {
            name: b"fb",
            crc: Some(1),
            gpl: true,
            space: b"OTHER",
        },
        ExportFact {
            name: b"fc",
            crc: None,
            gpl: false,
            space: b"NS",
        },
    ],
    ..NO_FACTS
}];

/// Texts, and whether a module with them is free: the first license decides, and without one a
/// module isn't.
static LICENSES: [(&[&[u8]], bool); 12] = [
    (&[], false),
    (&[b"license=GPL"], true),
    (&[b"license=GPL v2"], true),
    (&[b"license=GPL and additional rights"], true),
    (&[b"license=Dual BSD/GPL"], true),
    (&[b"license=Dual MIT/GPL"], true),
    (&[b"license=Dual MPL/GPL"], true),
    (&[b"license=GPL v3"], false),
    (&[b"license=Proprietary"], false),
    (&[b"license="], false),
    (
        &[b"author=GPL", b"license=Proprietary", b"license=GPL"],
        false,
    ),
    (&[b"license=GPL", b"license=Proprietary"], true),
];

/// Returns whether a module with these texts is free.
fn is_free(rt: &impl Abort, alloc: Global, texts: &'static [&'static [u8]]) -> bool {
    let sheet = SheetRow {
        texts,
        ..EMPTY_SHEET
    };
    let module = module_of(rt, alloc, b"kernel/b.ko", &sheet, &NO_MORE);
    let free = module.facts.free;
    drop(module);
    free
}

/// A module that imports two namespaces.
static IMPORTED: [FactsRow; 1] = [FactsRow {
    sheet: SheetRow {
        texts: &[b"import_ns=NS", b"license=GPL", b"import_ns=OTHER"],
        ..EMPTY_SHEET
    },
    free: true,
    imports: &[b"NS", b"OTHER"],
    ..NO_FACTS
}];

#[test]
fn facts_are_those_of_the_sheets(rt: HostRuntime) {
    let alloc = rt.alloc();
    expect_facts(&rt, alloc, &SHEETS);
    expect_facts(&rt, alloc, &EXTENDED);
    expect_facts(&rt, alloc, &LONG_EXPORTED);
    expect_facts(&rt, alloc, &EXPORTED);
    expect_facts(&rt, alloc, &IMPORTED);
    expect_place(&rt, alloc);
    for (texts, want) in &LICENSES {
        assert!(rt; is_free(&rt, alloc, texts) == *want, "{texts:?}");
    }
}
