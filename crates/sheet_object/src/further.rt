// The further sections of a sheet, and what symbols take from them.
ghost use Rattle.std.specs.Prelude.{◌≡◌, ◌<◌, ◌≤◌, ◌*◌, ◌+◌, ◌^◌, ◌++◌, length, map, All, Some};
ghost use Rattle.std.specs.Prelude.{OnOk, IfOk};
ghost use Rattle.std.specs.List.{range_with_len};
ghost use Rattle.name_table.specs.NameTable.{IsTableOf};
ghost use Rattle.sheet_object.specs.Further.{crc_bytes, name_bytes, space_bytes, further_part};
ghost use Rattle.sheet_object.specs.Further.{version_parts, gpl_parts, space_parts, further_parts};
ghost use Rattle.sheet_object.specs.Further.{gpl_section, strings_section, text_place, space_place};
ghost use Rattle.sheet_object.specs.Sheet.{spaced_names};
ghost use Rattle.sheet_object.specs.Symbols.{table_section};

use crate::names::table_of;
use crate::section::{FURTHER, TEXT};
use crate::sheet::{SheetMore, SheetSpace, SheetVersion};
use elf_format::{SHF_ALLOC, SHT_PROGBITS};
use elf_write::{Attributes, Part, push_word, zeros};
use km_names::List;
use name_table::NameTable;
use std::alloc::{AllocError, Global};

/// The size of a table entry of a GPL-only export in bytes.
const TABLE_ENTRY: usize = 8;

/// Returns the further sections.
#[tactic(auto, unfolding(crate::specs::Further::further_parts))]
pub(crate) fn further_parts(alloc: Global, more: &SheetMore) -> Result<Vec<Part>, AllocError>
    requires versions { All (λ v. v.crc < 2 ^ 32) more.now.ext }
    requires gpl { length more.now.gpl ≤ 65535 }
    ensures { IfOk result (λ parts. parts.items ≡ further_parts more.now) }
{
    let mut parts = Vec::new(alloc);
    push_versions(alloc, &mut parts, more)?;
    push_gpl(alloc, &mut parts, more)?;
    push_spaces(alloc, &mut parts, more)?;
    Ok(parts)
}

/// Returns the number of the section `__ksymtab_strings`, which follows the sections of GPL-only
/// exports.
#[tactic(auto, unfolding(crate::specs::Further::gpl_section, crate::specs::Further::strings_section))]
pub(crate) fn strings_section(more: &SheetMore) -> u16
    ensures { result ≡ strings_section more.now }
{
    let section = gpl_section(more);
    if more.gpl.is_empty() {
        section
    } else {
        section + 1
    }
}

/// The additions to a sheet, with tables of their names and of the places of namespaces.
#[derive(Drop)]
pub(crate) struct Further<'a> {
    pub(crate) more: &'a SheetMore,
    gpl: NameTable<'a>,
    spaces: NameTable<'a>,
    places: List<u64>,
    ghost gpl_names: { IsTableOf gpl (map (λ n. Some n) more.now.gpl) },
    ghost space_names: { IsTableOf spaces (map (λ n. Some n) (spaced_names more.now)) },
    ghost text_places: { places
        ≡ map (text_place more.now.spaces) (range_with_len 0 (length more.now.spaces)) },
}

impl<'a> Further<'a> {
    /// Returns the tables of a sheet's additions.
    pub(crate) fn new(alloc: Global, more: &'a SheetMore) -> Result<Further<'a>, AllocError>
        requires gpl { length more.now.gpl ≤ 65535 }
        requires spaces { length more.now.spaces ≤ 65535 }
        ensures { IfOk result (λ f. f.more.now ≡ more.now) }
    {
        let places = text_places(alloc, more.spaces.as_slice())?;
        let gpl = table_of(alloc, more.gpl.as_slice())?;
        let spaces = table_of(alloc, more.spaces.as_slice())?;
        Ok(Further {
            more,
            gpl,
            spaces,
            places,
        })
    }

    /// Returns the section of the `__ksymtab_N` of an export.
    #[tactic(auto, unfolding(crate::specs::Symbols::table_section))]
    pub(crate) fn table_section(&self, name: &[u8]) -> u16
        ensures { result ≡ table_section self.now.more.now name.now }
    {
        if self.gpl.place(name).is_some() {
            gpl_section(self.more)
        } else {
            TEXT
        }
    }

    /// Returns the place of the namespace of an export, if it has one.
    #[tactic(auto, unfolding(crate::specs::Further::space_place))]
    pub(crate) fn space_place(&self, name: &[u8]) -> Option<u64>
        ensures { result ≡ space_place self.now.more.now name.now }
    {
        let k = self.spaces.place(name)?;
        self.places.get(k as usize).copied()
    }
}

/// Puts the sections of extended versions at the end.
fn push_versions(alloc: Global, parts: &mut Vec<Part>, more: &SheetMore) -> Result<(), AllocError>
    requires { All (λ v. v.crc < 2 ^ 32) more.now.ext }
    ensures { OnOk result (parts.new.items ≡ parts.old.items ++ version_parts more.now) }
{
    if more.ext.is_empty() {
        return Ok(());
    }
    let crcs = crcs(alloc, more.ext.as_slice())?;
    parts.push(further_part(alloc, b"__version_ext_crcs", crcs)?)?;
    let names = version_names(alloc, more.ext.as_slice())?;
    parts.push(further_part(alloc, b"__version_ext_names", names)?)?;
    Ok(())
}

/// Puts the section of the tables of GPL-only exports at the end.
fn push_gpl(alloc: Global, parts: &mut Vec<Part>, more: &SheetMore) -> Result<(), AllocError>
    requires { length more.now.gpl ≤ 65535 }
    ensures { OnOk result (parts.new.items ≡ parts.old.items ++ gpl_parts more.now) }
{
    if more.gpl.is_empty() {
        return Ok(());
    }
    let tables = zeros(alloc, TABLE_ENTRY * more.gpl.len())?;
    parts.push(further_part(alloc, b"__ksymtab_gpl", tables)?)?;
    Ok(())
}

/// Puts the section of the texts of namespaces at the end.
fn push_spaces(alloc: Global, parts: &mut Vec<Part>, more: &SheetMore) -> Result<(), AllocError>
    ensures { OnOk result (parts.new.items ≡ parts.old.items ++ space_parts more.now) }
{
    if more.spaces.is_empty() {
        return Ok(());
    }
    let texts = texts(alloc, more.spaces.as_slice())?;
    parts.push(further_part(alloc, b"__ksymtab_strings", texts)?)?;
    Ok(())
}

/// Returns the number of the section `__ksymtab_gpl`, which follows the sections of extended
/// versions.
#[tactic(auto, unfolding(crate::specs::Further::gpl_section))]
fn gpl_section(more: &SheetMore) -> u16
    ensures section { result ≡ gpl_section more.now }
    ensures small { result ≤ 11 }
{
    if more.ext.is_empty() {
        FURTHER
    } else {
        FURTHER + 2
    }
}

/// Returns the place of each text of a namespace.
fn text_places(alloc: Global, spaces: &[SheetSpace]) -> Result<List<u64>, AllocError>
    ensures { IfOk result
        (λ l. l ≡ map (text_place spaces.now) (range_with_len 0 (length spaces.now))) }
{
    let mut places = Vec::with_capacity(alloc, spaces.len())?;
    let mut place = 0_u64;
    for space in spaces {
        places.push(place)?;
        let length = space.space.as_bytes().len() as u64 + 1;
        // No memory has texts whose lengths add up past 64 bits.
        let Some(end) = place.checked_add(length) else {
            return Err(AllocError);
        };
        place = end;
    }
    Ok(List::from_vec(places))
}

/// Returns the numbers of extended versions.
fn crcs(alloc: Global, ext: &[SheetVersion]) -> Result<Vec<u8>, AllocError>
    requires { All (λ v. v.crc < 2 ^ 32) ext.now }
    ensures { IfOk result (λ v. v.items ≡ crc_bytes ext.now) }
{
    let mut content = Vec::new(alloc);
    for version in ext {
        push_word(&mut content, version.crc as u32)?;
    }
    Ok(content)
}

/// Makes one of the further sections.
fn further_part(alloc: Global, name: &[u8], content: Vec<u8>) -> Result<Part, AllocError>
    ensures { IfOk result (λ p. p ≡ further_part name.now content.items) }
{
    Part::new(
        alloc,
        name,
        Attributes::plain(SHT_PROGBITS, SHF_ALLOC, 8),
        content,
    )
}

/// Returns the names of extended versions, each with its NUL.
fn version_names(alloc: Global, ext: &[SheetVersion]) -> Result<Vec<u8>, AllocError>
    ensures { IfOk result (λ v. v.items ≡ name_bytes ext.now) }
{
    let mut content = Vec::new(alloc);
    for version in ext {
        content.extend_from_slice(version.name.as_bytes())?;
        content.push(0)?;
    }
    Ok(content)
}

/// Returns the texts of namespaces, each with its NUL.
fn texts(alloc: Global, spaces: &[SheetSpace]) -> Result<Vec<u8>, AllocError>
    ensures { IfOk result (λ v. v.items ≡ space_bytes spaces.now) }
{
    let mut content = Vec::new(alloc);
    for space in spaces {
        content.extend_from_slice(space.space.as_bytes())?;
        content.push(0)?;
    }
    Ok(content)
}
