// The file of some sections.
ghost use Rattle.std.specs.Prelude.{◌≡◌, ◌≤◌, ◌<◌, ◌+◌, ◌^◌, ◌++◌, ℕ, length, take, drop, fold};
ghost use Rattle.std.specs.Prelude.{All, OnOk, IfOk};
ghost use Rattle.elf_write.specs.Number.{zeros, xword};
ghost use Rattle.elf_write.specs.File.{Laid, start, with_part, gap, header, section_header};
ghost use Rattle.elf_write.specs.File.{file_of};
ghost use Rattle.elf_write.specs.Writing.{IsFileOf};

use crate::bytes::{push_half, push_word, push_xword, push_zeros};
use crate::part::{Attributes, Part};
use byteorder::{ByteOrder, LittleEndian};
use elf_format::{
    EHDR_SIZE, ELFCLASS64, ELFDATA2LSB, ELFMAG, EM_X86_64, ET_REL, EV_CURRENT, SHDR_SIZE,
};
use std::alloc::{AllocError, Global};

/// The place of the section header table's offset in the file header.
const TABLE_FIELD: usize = 40;

/// A file while sections are added to it. It has the bytes, with 0 for the place of the section
/// header table, that table, and the total length of the names of sections.
#[derive(Drop)]
pub(crate) struct ObjectFile {
    bytes: Vec<u8>,
    headers: Vec<u8>,
    names: u32,
}

impl ObjectFile {
    /// Returns the file of this many sections before any is added. The section of the number
    /// `named` has their names.
    pub(crate) fn new(alloc: Global, count: u16, named: u16) -> Result<Self, AllocError>
        ensures { IfOk result (λ f. IsFileOf f start count named) }
    {
        let mut bytes = Vec::new(alloc);
        push_header(&mut bytes, count, named)?;
        let mut headers = Vec::new(alloc);
        push_zeros(&mut headers, SHDR_SIZE)?;
        Ok(ObjectFile {
            bytes,
            headers,
            names: 1,
        })
    }

    /// Adds a section.
    pub(crate) fn push(&mut self, part: &Part) -> Result<(), AllocError>
        requires { self.old.names + length part.now.name + 1 < 2 ^ 32 }
        ensures file { OnOk result
            ((l : Laid) (count named : ℕ) → IsFileOf self.old l count named
            → IsFileOf self.new (with_part l part.now) count named) }
        ensures names { OnOk result (self.new.names ≡ self.old.names + length part.now.name + 1) }
    {
        fill_up(&mut self.bytes)?;
        let place = self.bytes.len() as u64;
        let content = part.content.as_bytes();
        self.bytes.extend_from_slice(content)?;
        let size = content.len() as u64;
        push_section_header(&mut self.headers, self.names, &part.attributes, place, size)?;
        self.names += part.name.len() as u32 + 1;
        Ok(())
    }

    /// Adds sections.
    fn push_all(&mut self, parts: &[Part]) -> Result<(), AllocError>
        requires few { length parts.now ≤ 16 }
        requires short { All (λ p. length p.name ≤ 32) parts.now }
        requires names { self.old.names ≤ 1 }
        ensures { OnOk result
            ((l : Laid) (count named : ℕ) → IsFileOf self.old l count named
            → IsFileOf self.new (fold with_part l parts.now) count named) }
    {
        for part in parts {
            self.push(part)?;
        }
        Ok(())
    }

    /// Returns the file, with the section header table at the next multiple of 8.
    pub(crate) fn finish(self) -> Result<Vec<u8>, AllocError>
        requires { 48 ≤ length self.bytes.items }
        ensures { IfOk result (λ v. (l : Laid) (count named : ℕ) → IsFileOf self l count named →
            (let end
            = 64 + length l.contents in v.items
            ≡ header (end + gap end) count named ++ l.contents ++ zeros (gap end)
            ++ l.headers)) }
    {
        let ObjectFile {
            mut bytes,
            headers,
            names: _,
        } = self;
        fill_up(&mut bytes)?;
        let place = bytes.len() as u64;
        bytes.extend_from_slice(&headers)?;
        put_table_place(&mut bytes, place);
        Ok(bytes)
    }
}

/// Returns the relocatable object file of sections: the file header, the contents, each from a
/// multiple of 8 on, and the section header table. The section of the number `named` has their
/// names. gABI 4, "ELF Header", "Sections". The only error is out of memory.
pub fn file_of(alloc: Global, named: u16, parts: &[Part]) -> Result<Vec<u8>, AllocError>
    requires few { length parts.now ≤ 16 }
    requires short { All (λ p. length p.name ≤ 32) parts.now }
    ensures { IfOk result (λ v. v.items ≡ file_of named parts.now) }
{
    let mut file = ObjectFile::new(alloc, parts.len() as u16 + 1, named)?;
    file.push_all(parts)?;
    let bytes = file.finish()?;
    Ok(bytes)
}

/// Puts the file header of this many sections at the end, with the number of the section of names,
/// and with 0 for the place of the section header table.
#[tactic(auto, unfolding(crate::specs::File::header))]
fn push_header(out: &mut Vec<u8>, count: u16, named: u16) -> Result<(), AllocError>
    ensures { OnOk result (out.new.items ≡ out.old.items ++ header 0 count named) }
{
    out.extend_from_slice(&ELFMAG)?;
    out.extend_from_slice(&[ELFCLASS64, ELFDATA2LSB, EV_CURRENT])?;
    push_zeros(out, 9)?;
    push_half(out, ET_REL)?;
    push_half(out, EM_X86_64)?;
    push_word(out, u32::from(EV_CURRENT))?;
    push_zeros(out, 16)?;
    push_xword(out, 0)?;
    push_zeros(out, 4)?;
    push_half(out, EHDR_SIZE as u16)?;
    push_zeros(out, 4)?;
    push_half(out, SHDR_SIZE as u16)?;
    push_half(out, count)?;
    push_half(out, named)
}

/// Fills a file up to a multiple of 8.
fn fill_up(file: &mut Vec<u8>) -> Result<(), AllocError>
    ensures { OnOk result (file.new.items ≡ file.old.items ++ zeros (gap (length file.old.items))) }
{
    let gap = (8 - file.len() % 8) % 8;
    push_zeros(file, gap)
}

/// Puts a section header at the end.
#[tactic(auto, unfolding(crate::specs::File::section_header))]
fn push_section_header(
    out: &mut Vec<u8>,
    name: u32,
    attributes: &Attributes,
    place: u64,
    size: u64,
) -> Result<(), AllocError>
    ensures { OnOk result
        (out.new.items ≡ out.old.items ++ section_header name attributes.now place size) }
{
    push_word(out, name)?;
    push_word(out, attributes.kind)?;
    push_xword(out, attributes.flags)?;
    push_zeros(out, 8)?;
    push_xword(out, place)?;
    push_xword(out, size)?;
    push_word(out, attributes.link)?;
    push_word(out, attributes.info)?;
    push_xword(out, attributes.align)?;
    push_xword(out, attributes.entry_size)
}

/// Writes the place of the section header table into a file.
#[tactic(auto, unfolding(crate::specs::Number::xword))]
fn put_table_place(file: &mut [u8], place: u64)
    requires { 48 ≤ length file.old }
    ensures { file.new ≡ take 40 file.old ++ xword place ++ drop 48 file.old }
{
    LittleEndian::write_u64(&mut file[TABLE_FIELD..], place);
}
