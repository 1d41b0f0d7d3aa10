// The file header, and the headers of sections.

ghost use Rattle.std.specs.Prelude.{◌≡◌, ◌+◌, ◌<◌, ◌≤◌, length, nat_le, OnOk};
ghost use Rattle.std.specs.Result.{result_err};
ghost use Rattle.km_names.specs.First.{first};
ghost use Rattle.elf_sections.specs.Shape.{HasTable, header_tests, is_class, is_table, name_table};
ghost use Rattle.elf_sections.specs.Shape.{section_count, section_header, table_place};

use crate::SectionFault;
use elf_format::{
    EHDR_SIZE, ELFCLASS64, ELFDATA2LSB, ELFMAG, EM_X86_64, ET_REL, EV_CURRENT, SHDR_SIZE,
    SHN_LORESERVE,
};
use km_names::{le_u16_at, le_u32_at, le_u64_at};

/// One entry of the section header table. gABI 4, "Sections", Elf64_Shdr.
#[derive(Clone, Copy)]
pub(crate) struct SectionHeader {
    pub(crate) name: u32,
    pub(crate) kind: u32,
    pub(crate) flags: u64,
    pub(crate) offset: u64,
    pub(crate) size: u64,
    pub(crate) link: u32,
    pub(crate) info: u32,
    pub(crate) align: u64,
    pub(crate) entry_size: u64,
}

/// Returns the offset of the section header table.
pub(crate) fn table_place(bytes: &[u8]) -> u64
    requires { 64 ≤ length bytes.now }
    ensures { result ≡ table_place bytes.now }
{
    le_u64_at(bytes, 40)
}

/// Returns the number of sections.
pub(crate) fn section_count(bytes: &[u8]) -> u16
    requires { 64 ≤ length bytes.now }
    ensures { result ≡ section_count bytes.now }
{
    le_u16_at(bytes, 60)
}

/// Returns the number of the section with the names of the sections.
pub(crate) fn name_table(bytes: &[u8]) -> u16
    requires { 64 ≤ length bytes.now }
    ensures { result ≡ name_table bytes.now }
{
    le_u16_at(bytes, 62)
}

/// Tests the file header, and that the section header table lies in the file.
#[tactic(auto, unfolding(crate::specs::Shape::header_tests))]
pub(crate) fn check_header(bytes: &[u8]) -> Result<(), SectionFault>
    ensures fault { result_err result ≡ first (header_tests bytes.now) }
    ensures table { OnOk result (HasTable bytes.now) }
{
    if !bytes.starts_with(&ELFMAG) {
        return Err(SectionFault::NotElf);
    }
    if bytes.len() < EHDR_SIZE {
        return Err(SectionFault::Truncated {
            offset: 0,
            need: EHDR_SIZE as u64,
        });
    }
    if !has_class(bytes) {
        return Err(SectionFault::WrongClass);
    }
    if le_u16_at(bytes, 18) != EM_X86_64 {
        return Err(SectionFault::WrongMachine);
    }
    if le_u16_at(bytes, 16) != ET_REL {
        return Err(SectionFault::NotRelocatable);
    }
    if !has_table(bytes) {
        return Err(SectionFault::BadSection { index: 0 });
    }
    let offset = table_place(bytes);
    let need = SHDR_SIZE as u64 * u64::from(section_count(bytes));
    if !is_within(bytes, offset, need) {
        return Err(SectionFault::Truncated { offset, need });
    }
    Ok(())
}

/// Returns whether the file has the `size` bytes from `offset`.
pub(crate) fn is_within(bytes: &[u8], offset: u64, size: u64) -> bool
    ensures { result ≡ nat_le (offset + size) (length bytes.now) }
{
    let length = bytes.len() as u64;
    offset <= length && size <= length - offset
}

/// Returns the section header `index`.
#[tactic(auto, unfolding(crate::specs::Shape::section_header))]
pub(crate) fn section_header(bytes: &[u8], index: u16) -> SectionHeader
    requires table { HasTable bytes.now }
    requires index { index < section_count bytes.now }
    ensures { result ≡ section_header bytes.now index }
{
    let at = table_place(bytes) as usize + SHDR_SIZE * index as usize;
    SectionHeader {
        name: le_u32_at(bytes, at),
        kind: le_u32_at(bytes, at + 4),
        flags: le_u64_at(bytes, at + 8),
        offset: le_u64_at(bytes, at + 24),
        size: le_u64_at(bytes, at + 32),
        link: le_u32_at(bytes, at + 40),
        info: le_u32_at(bytes, at + 44),
        align: le_u64_at(bytes, at + 48),
        entry_size: le_u64_at(bytes, at + 56),
    }
}

/// Returns whether the file is of 64 bits, little-endian and of version 1.
#[tactic(auto, unfolding(crate::specs::Shape::is_class))]
fn has_class(bytes: &[u8]) -> bool
    requires { 64 ≤ length bytes.now }
    ensures { result ≡ is_class bytes.now }
{
    bytes[4] == ELFCLASS64
        && bytes[5] == ELFDATA2LSB
        && bytes[6] == EV_CURRENT
        && le_u32_at(bytes, 20) == u32::from(EV_CURRENT)
}

/// Returns whether the numbers of the section header table are valid.
#[tactic(auto, unfolding(crate::specs::Shape::is_table))]
fn has_table(bytes: &[u8]) -> bool
    requires { 64 ≤ length bytes.now }
    ensures { result ≡ is_table bytes.now }
{
    let count = section_count(bytes);
    let names = name_table(bytes);
    le_u16_at(bytes, 58) == SHDR_SIZE as u16
        && 0 < count
        && count < SHN_LORESERVE
        && 0 < names
        && names < count
}
