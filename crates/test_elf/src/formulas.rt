// The words of relocations.
use elf_format::{
    R_X86_64_32, R_X86_64_32S, R_X86_64_64, R_X86_64_NONE, R_X86_64_PC32, R_X86_64_PC64,
    R_X86_64_PLT32, width,
};
use std::process::Abort;
use x86_relocate::{TooWide, Written, value};

/// A relocation type, the symbol, the addend, the place, and the word.
type Row = (u32, u64, i64, u64, Result<Written, TooWide>);

/// The table's formulas at the edges of their fields, worked by hand.
static ROWS: [Row; 13] = [
    (
        R_X86_64_32S,
        0xffff_ffff_8000_0000,
        0,
        0,
        Ok(Written::Four(0x8000_0000)),
    ),
    (R_X86_64_32S, 0x8000_0000, 0, 0, Err(TooWide)),
    (
        R_X86_64_32,
        0xffff_ffff,
        0,
        0,
        Ok(Written::Four(0xffff_ffff)),
    ),
    (R_X86_64_32, 0x1_0000_0000, 0, 0, Err(TooWide)),
    (R_X86_64_32, 0, -1, 0, Err(TooWide)),
    (
        R_X86_64_PC32,
        0x8000_0000,
        -1,
        0,
        Ok(Written::Four(0x7fff_ffff)),
    ),
    (R_X86_64_PC32, 0x8000_0000, 0, 0, Err(TooWide)),
    (
        R_X86_64_PC32,
        0,
        0,
        0x8000_0000,
        Ok(Written::Four(0x8000_0000)),
    ),
    (R_X86_64_PC32, 0, 0, 0x8000_0001, Err(TooWide)),
    (
        R_X86_64_PLT32,
        0x1000,
        -4,
        0x2000,
        Ok(Written::Four(0xffff_effc)),
    ),
    (
        R_X86_64_PC64,
        0,
        0,
        1,
        Ok(Written::Eight(0xffff_ffff_ffff_ffff)),
    ),
    (
        R_X86_64_64,
        0xffff_ffff_ffff_ffff,
        1,
        0,
        Ok(Written::Eight(0)),
    ),
    (R_X86_64_NONE, 5, 5, 5, Ok(Written::Nothing)),
];

/// Checks the word of a row.
fn expect_word(rt: &impl Abort, row: &Row) {
    let (kind, s, a, p, want) = row;
    assert!(rt; width(*kind).is_some());
    assert_eq!(rt;
        value(*kind, *s, *a, *p),
        *want,
        "type {kind} of {s:x} {a} {p:x}"
    );
}

#[test]
fn words_are_the_tables(rt: HostRuntime) {
    for row in &ROWS {
        expect_word(&rt, row);
    }
}
