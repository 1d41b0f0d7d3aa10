//! Object files, written section by section.
ghost use Rattle.std.specs.Prelude.{◌≡◌, ◌≤◌, ◌↔◌, length, All, IsTrue};

use crate::same::{holds, same};
use elf_write::{
    Attributes, Part, file_of, push_further, push_half, push_part, push_word, push_xword,
    push_zeros, zeros,
};
use km_names::Blob;
use std::alloc::Global;
use std::process::Abort;

fn numbers_are_written(rt: &impl Abort, alloc: Global) {
    let mut out = zeros(alloc, 2).expect(rt, "zeros");
    push_half(&mut out, 0x0102).expect(rt, "room");
    push_word(&mut out, 0x0304_0506).expect(rt, "room");
    push_xword(&mut out, 0x0708_090a_0b0c_0d0e).expect(rt, "room");
    push_zeros(&mut out, 3).expect(rt, "room");
    same(
        rt,
        &out,
        b"\0\0\x02\x01\x06\x05\x04\x03\x0e\x0d\x0c\x0b\x0a\x09\x08\x07\0\0\0",
    );
}

/// Puts a section of bytes, which are loaded, at the end of a list.
pub(crate) fn push_bytes(
    rt: &impl Abort,
    alloc: Global,
    parts: &mut Vec<Part>,
    name: &[u8],
    bytes: &[u8],
) {
    let bytes = Vec::from_slice(alloc, bytes).expect(rt, "bytes");
    push_part(alloc, parts, name, Attributes::plain(1, 2, 1), bytes).expect(rt, "a section");
}

/// Returns the section of a table of one symbol, all of zeros, whose names are in the section 2.
fn symbols(rt: &impl Abort, alloc: Global) -> Vec<Part> {
    let bytes = zeros(alloc, 24).expect(rt, "zeros");
    let attributes = Attributes::table(2, 0, 2, 1);
    let part = Part::new(alloc, b".symtab", attributes, bytes).expect(rt, "a section");
    let mut parts = Vec::new(alloc);
    parts.push(part).ok().expect(rt, "sections");
    parts
}

/// Returns whether the names of sections have at most 32 bytes.
fn are_short(parts: &[Part]) -> bool
    ensures { IsTrue result ↔ All (λ part. length part.name ≤ 32) parts.now }
{
    parts.iter().all(|part| part.name.len() <= 32)
}

/// Returns the file of sections, of which the second has their names.
pub(crate) fn written(rt: &impl Abort, alloc: Global, parts: &[Part]) -> Vec<u8> {
    holds(rt, parts.len() <= 16);
    holds(rt, are_short(parts));
    file_of(alloc, 2, parts).expect(rt, "a file")
}

/// The header of a file of four sections, whose headers begin at byte 136. The second section has
/// their names.
static FILE_HEADER: &[u8] = b"\x7fELF\x02\x01\x01\0\0\0\0\0\0\0\0\0\x01\0\x3e\0\x01\0\0\0\
    \0\0\0\0\0\0\0\0\0\0\0\0\0\0\0\0\x88\0\0\0\0\0\0\0\
    \0\0\0\0\x40\0\0\0\0\0\x40\0\x04\0\x02\0";

/// The contents of three sections, each filled up to a multiple of 8 bytes.
static CONTENTS: &[u8] = b"license=GPL\0\0\0\0\0\
    \0.modinfo\0.shstrtab\0.symtab\0\0\0\0\0\
    \0\0\0\0\0\0\0\0\0\0\0\0\0\0\0\0\0\0\0\0\0\0\0\0";

/// The header of no section.
static NO_HEADER: &[u8] = &[0; 64];

/// The headers of the three sections: name and type, flags, address, offset, size, two numbers by
/// the type, alignment, and the size of entries.
static HEADERS: &[u8] = b"\x01\0\0\0\x01\0\0\0\x02\0\0\0\0\0\0\0\0\0\0\0\0\0\0\0\
    \x40\0\0\0\0\0\0\0\x0c\0\0\0\0\0\0\0\0\0\0\0\0\0\0\0\x01\0\0\0\0\0\0\0\0\0\0\0\0\0\0\0\
    \x0a\0\0\0\x03\0\0\0\0\0\0\0\0\0\0\0\0\0\0\0\0\0\0\0\
    \x50\0\0\0\0\0\0\0\x1c\0\0\0\0\0\0\0\0\0\0\0\0\0\0\0\x01\0\0\0\0\0\0\0\0\0\0\0\0\0\0\0\
    \x14\0\0\0\x02\0\0\0\0\0\0\0\0\0\0\0\0\0\0\0\0\0\0\0\
    \x70\0\0\0\0\0\0\0\x18\0\0\0\0\0\0\0\x02\0\0\0\x01\0\0\0\x08\0\0\0\0\0\0\0\x18\0\0\0\0\0\0\0";

fn a_file_is_written(rt: &impl Abort, alloc: Global) {
    let mut parts = Vec::new(alloc);
    push_bytes(rt, alloc, &mut parts, b".modinfo", b"license=GPL\0");
    push_further(alloc, &mut parts, symbols(rt, alloc)).expect(rt, "sections");
    let file = written(rt, alloc, &parts);
    let want = Blob::concat(alloc, &[FILE_HEADER, CONTENTS, NO_HEADER, HEADERS]);
    same(rt, &file, want.expect(rt, "bytes").as_bytes());
}

#[test]
fn written_objects_are_called(rt: HostRuntime) {
    numbers_are_written(&rt, rt.alloc());
    a_file_is_written(&rt, rt.alloc());
}
