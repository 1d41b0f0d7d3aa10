// The lines of modules.unmet.
use crate::same::{same, same_length, same_number};
use km_names::{ConfFault, PathText};
use std::alloc::Global;
use std::process::Abort;
use symbol_binding::Unbound;
use unmet_file::Unmet;

/// A line of each form.
static EACH_FORM: &[u8] = b"missing kernel/n.ko nosuch\n\
    gpl kernel/b.ko fa kernel/a.ko\n\
    version kernel/w.ko maybe vmlinux\n\
    namespace kernel/b.ko fa kernel/a.ko\n\
    double x kernel/a.ko kernel/c.ko";

/// Texts, and the number of their first bad line, or 0 where all are good.
static TEXTS: [(&[u8], u32); 12] = [
    (b"", 0),
    (b"missing a b\n", 0),
    (b"missing a b\n\n", 2),
    (b"\n", 1),
    (b"missing a b c\n", 1),
    (b"missing a  b\n", 1),
    (b"missing a b \n", 1),
    (b" missing a b\n", 1),
    (b"missing a b\r\n", 1),
    (b"missing a\n", 1),
    (b"gpl a b c\nversion a b\n", 2),
    (b"double a b c\nnamespace a b c\nDouble a b c\nx", 3),
];

/// Reads the lines of a text.
fn read(rt: &impl Abort, alloc: Global, text: &[u8]) -> Result<Unmet, ConfFault> {
    let file = PathText::from_slice(alloc, b"/m/modules.unmet").expect(rt, "a path");
    assert!(rt; text.len() <= 67_108_864);
    Unmet::read(alloc, &file, text)
}

/// Returns the number of the first bad line of a text, or 0 where all are good.
fn bad_line(rt: &impl Abort, alloc: Global, text: &[u8]) -> u32 {
    match read(rt, alloc, text) {
        Ok(_) => 0,
        Err(ConfFault::BadLine { line, .. }) => line,
        Err(ConfFault::Memory) => panic!(rt; "no memory"),
    }
}

/// Checks that the last of five lines is of two exports.
fn expect_each_form(rt: &impl Abort, unmet: &Unmet) {
    same_length(rt, unmet.len(), 5);
    let Some(
        Unbound::Double {
            symbol,
            first,
            second,
        },
    ) = unmet.get(4)
    else {
        panic!(rt; "another line");
    };
    same(rt, symbol.as_bytes(), b"x");
    same(rt, first.as_bytes(), b"kernel/a.ko");
    same(rt, second.as_bytes(), b"kernel/c.ko");
}

#[test]
fn lines_of_each_form(rt: HostRuntime) {
    let alloc = rt.alloc();
    expect_each_form(&rt, &read(&rt, alloc, EACH_FORM).expect(&rt, "lines"));
    for (text, want) in &TEXTS {
        same_number(&rt, bad_line(&rt, alloc, text) as u64, *want as u64);
    }
}
