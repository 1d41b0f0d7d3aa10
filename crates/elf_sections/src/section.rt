// One section.

ghost use Rattle.std.specs.Prelude.{◌≡◌, ◌<◌, ◌≤◌, ◌⊎◌, None, Some, IfErr, IfOk, OnOk};
ghost use Rattle.elf_sections.specs.Shape.{HasTable, contents, is_for_loading, is_kept, name_in};
ghost use Rattle.elf_sections.specs.Shape.{name_table, name_test_in, section_count};
ghost use Rattle.elf_sections.specs.Sections.{owned_section, section_of};
ghost use Rattle.elf_sections.specs.Strings.{HasStrings};

use crate::SectionFault;
use crate::header::section_header;
use crate::strings::{SEARCH_LIMIT, string_within};
use elf_format::{SHF_ALLOC, SHT_NULL};
use km_names::{Name, string_at};
use std::alloc::{AllocError, Global};

/// A section of a file. gABI 4, "Sections", Elf64_Shdr.
#[derive(Debug, Drop)]
pub struct Section {
    /// The text at `sh_name` of the names; empty for a section of type NULL.
    pub name: Name,
    /// The type, `sh_type`.
    pub kind: u32,
    /// The flags, `sh_flags`.
    pub flags: u64,
    /// The offset of its bytes in the file.
    pub offset: u64,
    /// The number of its bytes, in the file or when the module runs.
    pub size: u64,
    /// The number of a section that belongs to it, `sh_link`.
    pub link: u32,
    /// The further number `sh_info`.
    pub info: u32,
    /// The alignment of its place in memory; 0 counts as 1.
    pub align: u64,
    /// Whether it is in the memory of the running module. It is a section, has the flag ALLOC, and
    /// isn't only for loading, as the module's texts and the versions of its needs are.
    pub kept: bool,
}

/// A section of a file whose name is borrowed, as from the file's table of names. gABI 4,
/// "Sections", Elf64_Shdr.
#[derive(Clone, Copy, Debug)]
pub struct SectionRef<'a> {
    /// The text at `sh_name` of the names; empty for a section of type NULL.
    pub name: &'a [u8],
    /// The type, `sh_type`.
    pub kind: u32,
    /// The flags, `sh_flags`.
    pub flags: u64,
    /// The offset of its bytes in the file.
    pub offset: u64,
    /// The number of its bytes, in the file or when the module runs.
    pub size: u64,
    /// The number of a section that belongs to it, `sh_link`.
    pub link: u32,
    /// The further number `sh_info`.
    pub info: u32,
    /// The alignment of its place in memory; 0 counts as 1.
    pub align: u64,
    /// Whether it is in the memory of the running module, as for a [`Section`].
    pub kept: bool,
}

impl<'a> SectionRef<'a> {
    /// Returns the section with a name of its own.
    pub fn to_owned(&self, alloc: Global) -> Result<Section, AllocError>
        ensures { IfOk result (λ section. section ≡ owned_section self.now) }
    {
        Ok(Section {
            name: Name::from_slice(alloc, self.name)?,
            kind: self.kind,
            flags: self.flags,
            offset: self.offset,
            size: self.size,
            link: self.link,
            info: self.info,
            align: self.align,
            kept: self.kept,
        })
    }
}

/// Tests the name of a section, and returns its length. Names may have `left` bytes more.
#[tactic(auto, unfolding(crate::specs::Shape::name_test_in))]
pub(crate) fn check_name(
    names: &[u8],
    kind: u32,
    at: u32,
    left: usize,
) -> Result<usize, SectionFault>
    requires { left ≤ SEARCH_LIMIT }
    ensures length { IfOk result (λ size. size ≤ left) }
    ensures passed { OnOk result (name_test_in names.now kind at ≡ None) }
    ensures fault { IfErr result
        (λ e. (e ≡ SectionFault.Memory) ⊎ (name_test_in names.now kind at ≡ Some e)) }
{
    if kind == SHT_NULL {
        return Ok(0);
    }
    match string_within(names, at, left)? {
        Some(name) => Ok(name.len()),
        None => Err(SectionFault::BadString {
            offset: u64::from(at),
        }),
    }
}

/// Returns the section `index`, by the table of names.
#[tactic(auto, unfolding(crate::specs::Sections::section_of))]
pub(crate) fn section_at<'a>(bytes: &[u8], names: &'a [u8], index: u16) -> SectionRef<'a>
    requires table { HasTable bytes.now }
    requires index { index < section_count bytes.now }
    requires names { HasStrings (contents bytes.now (name_table bytes.now)) names.now }
    ensures { owned_section result ≡ section_of bytes.now index }
{
    let header = section_header(bytes, index);
    let name = section_name(names, header.kind, header.name);
    SectionRef {
        name,
        kind: header.kind,
        flags: header.flags,
        offset: header.offset,
        size: header.size,
        link: header.link,
        info: header.info,
        align: header.align,
        kept: is_kept(header.kind, header.flags, name),
    }
}

/// Returns the name of a section, by the table of names.
#[tactic(auto, unfolding(crate::specs::Shape::name_in))]
fn section_name(names: &[u8], kind: u32, at: u32) -> &[u8]
    ensures { result.now ≡ name_in names.now kind at }
{
    if kind == SHT_NULL {
        return &[];
    }
    match string_at(names, at as usize) {
        Some(name) => name,
        None => &[],
    }
}

/// Returns whether a section of this type, with these flags and this name, is in the memory of the
/// running module.
#[tactic(auto, unfolding(crate::specs::Shape::is_kept))]
fn is_kept(kind: u32, flags: u64, name: &[u8]) -> bool
    ensures { result ≡ is_kept kind flags name.now }
{
    kind != SHT_NULL && flags & SHF_ALLOC != 0 && !is_for_loading(name)
}

/// Returns whether sections of this name are only read when the module is loaded.
#[tactic(auto, unfolding(crate::specs::Shape::is_for_loading))]
fn is_for_loading(name: &[u8]) -> bool
    ensures { result ≡ is_for_loading name.now }
{
    name == b".modinfo".as_slice()
        || name == b"__versions".as_slice()
        || name == b"__version_ext_crcs".as_slice()
        || name == b"__version_ext_names".as_slice()
}
