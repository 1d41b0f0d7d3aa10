// Where sections are placed, and what symbols are worth.
use crate::load_row::{Answer, BASE, LoadRow, PLAIN, expect_loads};
use crate::sheets::{HAS_VERSIONS, NEEDS_OFFSET_TABLE, NEEDS_TWICE, USES_ITS_OWN};
use test_objects::{GIVES_ALONE, NEEDS};

/// Modules whose sections are placed, with so many bytes for modules.
static PLACED: [(u64, &[LoadRow]); 9] = [
    // Code, what is only read, and what is written each begin on a page.
    (
        0x1_0000,
        &[LoadRow {
            path: b"kernel/a.ko",
            sheet: &HAS_VERSIONS,
            changes: &[(600, 0x2)],
            answer: Answer::Loaded {
                base: BASE,
                size: 0x3000,
                words: &[(0, 0), (0x1000, 1), (0x1008, 0x6166), (0x2000, BASE + 3)],
            },
            ..PLAIN
        }],
    ),
    // Two sections that are written: the second at its alignment, of 32 bytes or of a page.
    (
        0x1_0000,
        &[LoadRow {
            path: b"kernel/a.ko",
            sheet: &HAS_VERSIONS,
            changes: &[(600, 0x2), (608, 0x3)],
            answer: Answer::Loaded {
                base: BASE,
                size: 0x2000,
                words: &[(0x1000, BASE + 3), (0x1020, 1)],
            },
            ..PLAIN
        }],
    ),
    // The same, but the second asks for a page.
    (
        0x1_0000,
        &[LoadRow {
            path: b"kernel/a.ko",
            sheet: &HAS_VERSIONS,
            changes: &[(600, 0x2), (608, 0x3), (648, 0x0), (649, 0x10)],
            answer: Answer::Loaded {
                base: BASE,
                size: 0x3000,
                words: &[(0x1000, BASE + 3), (0x1020, 0), (0x2000, 1)],
            },
            ..PLAIN
        }],
    ),
    // The bytes of a section are the file's own.
    (
        0x1_0000,
        &[LoadRow {
            path: b"kernel/a.ko",
            sheet: &GIVES_ALONE,
            changes: &[(64, 0xaa)],
            answer: Answer::Loaded {
                base: BASE,
                size: 0x1000,
                words: &[(0, 0xaa)],
            },
            ..PLAIN
        }],
    ),
    // The same section as NOBITS: it takes room, and its bytes are 0 whatever the file has.
    (
        0x1_0000,
        &[LoadRow {
            path: b"kernel/a.ko",
            sheet: &GIVES_ALONE,
            changes: &[(64, 0xaa), (316, 0x8)],
            answer: Answer::Loaded {
                base: BASE,
                size: 0x1000,
                words: &[(0, 0)],
            },
            ..PLAIN
        }],
    ),
    // A symbol that is absolute has its value as address, also where another module needs it.
    (
        0x1_0000,
        &[
            LoadRow {
                path: b"kernel/a.ko",
                sheet: &USES_ITS_OWN,
                changes: &[(166, 0xf1), (167, 0xff), (168, 0x34), (169, 0x12)],
                answer: Answer::Loaded {
                    base: BASE,
                    size: 0x2000,
                    words: &[(0x1000, 0x1237)],
                },
                ..PLAIN
            },
            LoadRow {
                path: b"kernel/b.ko",
                sheet: &NEEDS,
                answer: Answer::Loaded {
                    base: BASE + 0x2000,
                    size: 0x1000,
                    words: &[(0, 0x1234)],
                },
                ..PLAIN
            },
        ],
    ),
    // An export in a section that isn't loaded has its value as address.
    (
        0x1_0000,
        &[
            LoadRow {
                path: b"kernel/a.ko",
                sheet: &GIVES_ALONE,
                changes: &[(134, 0x3), (136, 0x40)],
                answer: Answer::Loaded {
                    base: BASE,
                    size: 0x1000,
                    words: &[],
                },
                ..PLAIN
            },
            LoadRow {
                path: b"kernel/b.ko",
                sheet: &NEEDS,
                answer: Answer::Loaded {
                    base: BASE + 0x1000,
                    size: 0x1000,
                    words: &[(0, 0x40)],
                },
                ..PLAIN
            },
        ],
    ),
    // A place of the type NONE past its section changes nothing.
    (
        0x1_0000,
        &[LoadRow {
            path: b"kernel/n.ko",
            sheet: &NEEDS_TWICE,
            changes: &[
                (80, 0xff),
                (81, 0xff),
                (82, 0xff),
                (83, 0xff),
                (84, 0xff),
                (85, 0xff),
                (86, 0xff),
                (87, 0xff),
            ],
            answer: Answer::Loaded {
                base: BASE,
                size: 0x1000,
                words: &[(0, 0), (8, 0xffff_ffff_8100_0000)],
            },
            ..PLAIN
        }],
    ),
    // The table of global offsets isn't a need; its address is 0.
    (
        0x1_0000,
        &[LoadRow {
            path: b"kernel/g.ko",
            sheet: &NEEDS_OFFSET_TABLE,
            answer: Answer::Loaded {
                base: BASE,
                size: 0x1000,
                words: &[(0, 7)],
            },
            ..PLAIN
        }],
    ),
];

#[test]
fn sections_are_placed(rt: HostRuntime) {
    for (size, rows) in &PLACED {
        expect_loads(&rt, rt.alloc(), *size, rows);
    }
}
