// The sections of a file, and the tests that they pass.

ghost use Rattle.std.specs.Prelude.{◌≡◌, ◌+◌, ◌<◌, ◌≤◌, ◌⊎◌, length, None, Some, IsTrue, OnOk};
ghost use Rattle.std.specs.Prelude.{IfOk, IfErr};
ghost use Rattle.std.specs.Result.{result_err};
ghost use Rattle.km_names.specs.First.{first};
ghost use Rattle.elf_sections.specs.Shape.{AllInFile, HasTable, IsInFile, content, each};
ghost use Rattle.elf_sections.specs.Shape.{has_content, name_table, name_table_test, name_test};
ghost use Rattle.elf_sections.specs.Shape.{content_test, section_count, section_header};
ghost use Rattle.elf_sections.specs.Shape.{shape_fault, contents};
ghost use Rattle.elf_sections.specs.Sections.{IsRead, file_sections, sections_of};
ghost use Rattle.elf_sections.specs.Strings.{HasStrings};

use crate::header::{
    SectionHeader, check_header, is_within, name_table, section_count, section_header,
};
use crate::section::{check_name, section_at};
use crate::section_table::SectionTable;
use crate::strings::{NAME_LIMIT, bytes_left, up_to_last_nul};
use crate::{Section, SectionFault};
use elf_format::{SHT_NOBITS, SHT_NULL, SHT_STRTAB};
use km_names::List;
use std::alloc::{AllocError, Global};

/// The greatest total size, in bytes, of the names of a file's sections, which are searched for
/// their ends: 2^32. No file under a megabyte has as many, however its names share their bytes.
const SECTION_SEARCH_LIMIT: usize = 4_294_967_296;

/// Returns the bytes of the section `index`.
pub(crate) fn contents(bytes: &[u8], index: u16) -> &[u8]
    requires table { HasTable bytes.now }
    requires within { AllInFile bytes.now }
    requires index { index < section_count bytes.now }
    ensures { result.now ≡ contents bytes.now index }
{
    let header = section_header(bytes, index);
    content(bytes, header.kind, header.offset, header.size)
}

/// Tests a file with sections.
pub(crate) fn check_shape(bytes: &[u8]) -> Result<(), SectionFault>
    ensures read { OnOk result (IsRead bytes.now (sections_of bytes.now)) }
    ensures fault { IfErr result (λ e. (e ≡ SectionFault.Memory)
        ⊎ (shape_fault bytes.now ≡ Some e)) }
{
    check_header(bytes)?;
    check_contents(bytes)?;
    check_name_table(bytes)?;
    check_names(bytes, section_names(bytes))
}

/// Returns the sections of a file that passed the tests, with their names in place.
pub(crate) fn section_table<'a>(
    alloc: Global,
    bytes: &'a [u8],
) -> Result<SectionTable<'a>, AllocError>
    requires { IsRead bytes.now (sections_of bytes.now) }
    ensures { IfOk result (λ table. table ≡ file_sections bytes.now) }
{
    let names = section_names(bytes);
    let count = section_count(bytes);
    let mut sections = Vec::with_capacity(alloc, usize::from(count))?;
    for index in 0..count {
        sections.push(section_at(bytes, names, index))?;
    }
    Ok(SectionTable {
        bytes,
        sections: List::from_vec(sections),
    })
}

/// Returns the sections of a file that passed the tests, with names of their own. Together these
/// have at most `NAME_LIMIT` bytes, which is tested before any is copied.
pub(crate) fn owned_sections(alloc: Global, bytes: &[u8]) -> Result<List<Section>, AllocError>
    requires { IsRead bytes.now (sections_of bytes.now) }
    ensures { IfOk result (λ sections. sections ≡ sections_of bytes.now) }
{
    let names = section_names(bytes);
    check_copies(bytes, names)?;
    let count = section_count(bytes);
    let mut sections = Vec::with_capacity(alloc, usize::from(count))?;
    for index in 0..count {
        sections.push(section_at(bytes, names, index).to_owned(alloc)?)?;
    }
    Ok(List::from_vec(sections))
}

/// Returns the bytes of a section in the file.
#[tactic(auto, unfolding(crate::specs::Shape::content))]
fn content(bytes: &[u8], kind: u32, offset: u64, size: u64) -> &[u8]
    requires { IsTrue (has_content kind) → offset + size ≤ length bytes.now }
    ensures { result.now ≡ content bytes.now kind offset size }
{
    if has_content(kind) {
        let start = offset as usize;
        &bytes[start..start + size as usize]
    } else {
        &[]
    }
}

/// Tests that each section lies in the file.
fn check_contents(bytes: &[u8]) -> Result<(), SectionFault>
    requires { HasTable bytes.now }
    ensures fault { result_err result
        ≡ first (each (section_count bytes.now) (content_test bytes.now)) }
    ensures within { OnOk result (AllInFile bytes.now) }
{
    for index in 0..section_count(bytes) {
        check_content(bytes, index, &section_header(bytes, index))?;
    }
    Ok(())
}

/// Tests that the section with the names is a string table.
#[tactic(auto, unfolding(crate::specs::Shape::name_table_test))]
fn check_name_table(bytes: &[u8]) -> Result<(), SectionFault>
    requires { HasTable bytes.now }
    ensures { result_err result ≡ name_table_test bytes.now }
{
    let index = name_table(bytes);
    if section_header(bytes, index).kind != SHT_STRTAB {
        return Err(SectionFault::BadSection {
            index: u32::from(index),
        });
    }
    Ok(())
}

/// Tests that the names of the sections together have at most `NAME_LIMIT` bytes.
fn check_copies(bytes: &[u8], names: &[u8]) -> Result<(), AllocError>
    requires table { HasTable bytes.now }
    requires names { HasStrings (contents bytes.now (name_table bytes.now)) names.now }
{
    let mut left = NAME_LIMIT;
    for index in 0..section_count(bytes) {
        left = bytes_left(left, section_at(bytes, names, index).name.len())?;
    }
    Ok(())
}

/// Tests the names of the sections, by the table of names. Together they have at most
/// `SECTION_SEARCH_LIMIT` bytes.
fn check_names(bytes: &[u8], names: &[u8]) -> Result<(), SectionFault>
    requires table { HasTable bytes.now }
    requires names { HasStrings (contents bytes.now (name_table bytes.now)) names.now }
    ensures passed { OnOk result
        (first (each (section_count bytes.now) (name_test bytes.now)) ≡ None) }
    ensures fault { IfErr result
        (λ e. (e ≡ SectionFault.Memory)
        ⊎ (first (each (section_count bytes.now) (name_test bytes.now)) ≡ Some e)) }
{
    let mut left = SECTION_SEARCH_LIMIT;
    for index in 0..section_count(bytes) {
        let header = section_header(bytes, index);
        left -= check_name(names, header.kind, header.name, left)?;
    }
    Ok(())
}

/// Returns the table of names up to its last NUL.
fn section_names(bytes: &[u8]) -> &[u8]
    requires table { HasTable bytes.now }
    requires within { AllInFile bytes.now }
    ensures { HasStrings (contents bytes.now (name_table bytes.now)) result.now }
{
    up_to_last_nul(contents(bytes, name_table(bytes)))
}

/// Returns whether sections of this type have bytes in the file.
fn has_content(kind: u32) -> bool
    ensures { result ≡ has_content kind }
{
    kind != SHT_NULL && kind != SHT_NOBITS
}

/// Tests that the section `index` lies in the file, and that the first one is of type NULL.
#[tactic(auto, unfolding(crate::specs::Shape::content_test))]
fn check_content(bytes: &[u8], index: u16, header: &SectionHeader) -> Result<(), SectionFault>
    requires { header.now ≡ section_header bytes.now index }
    ensures fault { result_err result ≡ content_test bytes.now index }
    ensures within { OnOk result (IsInFile bytes.now header.now) }
{
    if index == 0 && header.kind != SHT_NULL {
        return Err(SectionFault::BadSection { index: 0 });
    }
    if has_content(header.kind) && !is_within(bytes, header.offset, header.size) {
        return Err(SectionFault::Truncated {
            offset: header.offset,
            need: header.size,
        });
    }
    Ok(())
}
