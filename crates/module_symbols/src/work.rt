// How long it may take to tell the names of symbols apart.

use crate::contents::section_contents;
use crate::stated_names::HASHED;
use elf_format::SHT_SYMTAB;
use elf_object::ObjectView;
use elf_sections::{NAME_LIMIT, SEARCH_LIMIT, bytes_left};
use km_names::split_at_byte;
use std::alloc::AllocError;

/// Tests how long it may take to tell the names of the symbols apart. Of each name at most `HASHED`
/// bytes are hashed, `NAME_LIMIT` together. Longer names that agree in these and in their length
/// are compared. Names of one length that begin at different places don't overlap, so a look-up of
/// one compares no more bytes than the long strings of the string table have, and one of each name
/// `SEARCH_LIMIT` together. No file under a megabyte has so many.
///
/// # Errors
///
/// It may take longer.
pub(crate) fn check_work(object: &ObjectView) -> Result<(), AllocError> {
    let names = count_long_names(object)?;
    if names > 0 {
        let bytes = long_string_bytes(string_table(object));
        bytes_left(SEARCH_LIMIT, names.saturating_mul(bytes))?;
    }
    Ok(())
}

/// Returns how many names of symbols have more than `HASHED` bytes.
///
/// # Errors
///
/// More than `NAME_LIMIT` bytes of all names together would be hashed.
fn count_long_names(object: &ObjectView) -> Result<usize, AllocError> {
    let mut hashed = NAME_LIMIT;
    let mut count: usize = 0;
    for i in 0..object.symbol_count() {
        let size = object.symbol(i).name.len();
        hashed = bytes_left(hashed, size.min(HASHED))?;
        if HASHED < size {
            count = count.saturating_add(1);
        }
    }
    Ok(count)
}

/// Returns the string table with the names of the symbols. gABI 4, "Symbol Table".
fn string_table<'a>(object: &ObjectView<'a>) -> &'a [u8] {
    for i in 0..object.section_count() {
        let section = object.section(i);
        if section.kind == SHT_SYMTAB {
            return section_contents(object, section.link);
        }
    }
    &[]
}

/// Returns how many bytes the strings of a string table have that are longer than `HASHED`.
fn long_string_bytes(table: &[u8]) -> usize {
    let mut count: usize = 0;
    let mut rest = table;
    while !rest.is_empty() {
        let (string, after) = split_at_byte(rest, 0);
        if HASHED < string.len() {
            count = count.saturating_add(string.len());
        }
        rest = after;
    }
    count
}
