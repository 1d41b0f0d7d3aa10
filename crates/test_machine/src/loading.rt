// Loads, and what is in the way of one.
use crate::load_row::{Answer, BASE, LoadRow, PLAIN, expect_loads};
use crate::sheets::{
    GIVES_AGAIN, GIVES_PRINTK, NEEDS_BY_DISTANCE, NEEDS_IN_32_BITS, NEEDS_VERSION_2_AND_MORE,
};
use test_objects::{
    FREE, GIVES, GIVES_ALONE, GIVES_VERSION_1, GPL_ONLY, IMPORTS, IN_SPACE, MAY_NEED,
    MAY_NEED_VERSION_2, NEEDS,
};

/// Loads in turn into a machine with so many bytes for modules.
static LOADS: [(u64, &[LoadRow]); 10] = [
    // Two modules load one after the other, with their sizes, bases and words; neither before what
    // it needs, nor twice.
    (
        0x3000,
        &[
            LoadRow {
                path: b"kernel/b.ko",
                sheet: &NEEDS,
                answer: Answer::Refused(b"missing symbol fa"),
                ..PLAIN
            },
            LoadRow {
                path: b"kernel/a.ko",
                sheet: &GIVES,
                answer: Answer::Loaded {
                    base: BASE,
                    size: 0x2000,
                    words: &[(0, 0), (0x1000, 0xffff_ffff_8100_0000)],
                },
                ..PLAIN
            },
            LoadRow {
                path: b"kernel/a.ko",
                sheet: &GIVES,
                answer: Answer::Refused(b"already loaded"),
                ..PLAIN
            },
            LoadRow {
                path: b"kernel/b.ko",
                sheet: &NEEDS,
                answer: Answer::Loaded {
                    base: BASE + 0x2000,
                    size: 0x1000,
                    words: &[(0, BASE)],
                },
                ..PLAIN
            },
        ],
    ),
    // A region that is too small for the second module.
    (
        0x2000,
        &[
            LoadRow {
                path: b"kernel/a.ko",
                sheet: &GIVES,
                answer: Answer::Loaded {
                    base: BASE,
                    size: 0x2000,
                    words: &[],
                },
                ..PLAIN
            },
            LoadRow {
                path: b"kernel/b.ko",
                sheet: &NEEDS,
                answer: Answer::Refused(b"region full, 1 pages"),
                ..PLAIN
            },
        ],
    ),
    // An address that doesn't fit its word; the module's place is free for the next one.
    (
        0x3000,
        &[
            LoadRow {
                path: b"kernel/o.ko",
                sheet: &NEEDS_IN_32_BITS,
                answer: Answer::Refused(b"overflow at section 5 entry 1"),
                ..PLAIN
            },
            LoadRow {
                path: b"kernel/a.ko",
                sheet: &GIVES,
                answer: Answer::Loaded {
                    base: BASE,
                    size: 0x2000,
                    words: &[],
                },
                ..PLAIN
            },
        ],
    ),
    // A word that is the distance from its own place.
    (
        0x3000,
        &[
            LoadRow {
                path: b"kernel/a.ko",
                sheet: &GIVES,
                answer: Answer::Loaded {
                    base: BASE,
                    size: 0x2000,
                    words: &[],
                },
                ..PLAIN
            },
            LoadRow {
                path: b"kernel/b.ko",
                sheet: &NEEDS_BY_DISTANCE,
                answer: Answer::Loaded {
                    base: BASE + 0x2000,
                    size: 0x1000,
                    words: &[(0, 0xffff_dffc)],
                },
                ..PLAIN
            },
        ],
    ),
    // A weak need that nobody provides is 0.
    (
        0x1000,
        &[LoadRow {
            path: b"kernel/w.ko",
            sheet: &MAY_NEED,
            answer: Answer::Loaded {
                base: BASE,
                size: 0x1000,
                words: &[(0, 5)],
            },
            ..PLAIN
        }],
    ),
    // A weak need is its provider's export, whose version agrees.
    (
        0x1_0000,
        &[
            LoadRow {
                path: b"kernel/p.ko",
                sheet: &GIVES_VERSION_1,
                answer: Answer::Loaded {
                    base: BASE,
                    size: 0x1000,
                    words: &[],
                },
                ..PLAIN
            },
            LoadRow {
                path: b"kernel/v.ko",
                sheet: &MAY_NEED_VERSION_2,
                answer: Answer::Refused(b"version of fa differs"),
                ..PLAIN
            },
            LoadRow {
                path: b"kernel/w.ko",
                sheet: &MAY_NEED,
                answer: Answer::Loaded {
                    base: BASE + 0x1000,
                    size: 0x1000,
                    words: &[(0, BASE + 5)],
                },
                ..PLAIN
            },
        ],
    ),
    // A module lacks a symbol and has another version of one: the symbol is reported.
    (
        0x1_0000,
        &[
            LoadRow {
                path: b"kernel/p.ko",
                sheet: &GIVES_VERSION_1,
                answer: Answer::Loaded {
                    base: BASE,
                    size: 0x1000,
                    words: &[],
                },
                ..PLAIN
            },
            LoadRow {
                path: b"kernel/m.ko",
                sheet: &NEEDS_VERSION_2_AND_MORE,
                answer: Answer::Refused(b"missing symbol nosuch"),
                ..PLAIN
            },
        ],
    ),
    // Nobody exports what the kernel or an earlier module does.
    (
        0x1_0000,
        &[
            LoadRow {
                path: b"kernel/a.ko",
                sheet: &GIVES,
                answer: Answer::Loaded {
                    base: BASE,
                    size: 0x2000,
                    words: &[],
                },
                ..PLAIN
            },
            LoadRow {
                path: b"kernel/c.ko",
                sheet: &GIVES_AGAIN,
                answer: Answer::Refused(b"fa is taken by a"),
                ..PLAIN
            },
            LoadRow {
                path: b"kernel/k.ko",
                sheet: &GIVES_PRINTK,
                answer: Answer::Refused(b"printk is taken by vmlinux"),
                ..PLAIN
            },
        ],
    ),
    // What a module without a free license doesn't see, it lacks, or has as 0 if it needs it
    // weakly.
    (
        0x1_0000,
        &[
            LoadRow {
                path: b"kernel/a.ko",
                sheet: &GIVES_ALONE,
                more: &GPL_ONLY,
                answer: Answer::Loaded {
                    base: BASE,
                    size: 0x2000,
                    words: &[],
                },
                ..PLAIN
            },
            LoadRow {
                path: b"kernel/b.ko",
                sheet: &NEEDS,
                answer: Answer::Refused(b"fa is GPL-only"),
                ..PLAIN
            },
            LoadRow {
                path: b"kernel/w.ko",
                sheet: &MAY_NEED,
                answer: Answer::Loaded {
                    base: BASE + 0x2000,
                    size: 0x1000,
                    words: &[(0, 5)],
                },
                ..PLAIN
            },
            LoadRow {
                path: b"kernel/f.ko",
                sheet: &FREE,
                answer: Answer::Loaded {
                    base: BASE + 0x3000,
                    size: 0x1000,
                    words: &[(0, BASE)],
                },
                ..PLAIN
            },
        ],
    ),
    // An export in a namespace needs an import.
    (
        0x1_0000,
        &[
            LoadRow {
                path: b"kernel/a.ko",
                sheet: &GIVES_ALONE,
                more: &IN_SPACE,
                answer: Answer::Loaded {
                    base: BASE,
                    size: 0x2000,
                    words: &[],
                },
                ..PLAIN
            },
            LoadRow {
                path: b"kernel/b.ko",
                sheet: &NEEDS,
                answer: Answer::Refused(b"namespace of fa not imported"),
                ..PLAIN
            },
            LoadRow {
                path: b"kernel/w.ko",
                sheet: &MAY_NEED,
                answer: Answer::Refused(b"namespace of fa not imported"),
                ..PLAIN
            },
            LoadRow {
                path: b"kernel/i.ko",
                sheet: &IMPORTS,
                answer: Answer::Loaded {
                    base: BASE + 0x2000,
                    size: 0x1000,
                    words: &[(0, BASE)],
                },
                ..PLAIN
            },
        ],
    ),
];

#[test]
fn modules_load_or_are_refused(rt: HostRuntime) {
    for (size, rows) in &LOADS {
        expect_loads(&rt, rt.alloc(), *size, rows);
    }
}
