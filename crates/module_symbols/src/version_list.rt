// The version list of a module, with a table of its names if they are many.

ghost use Rattle.std.specs.Prelude.{◌≡◌, ◌<◌, ◌-◌, ◌^◌, length, map, Some, IfOk, IfSome};
ghost use Rattle.name_table.specs.NameTable.{IsTableOf};
ghost use Rattle.module_symbols.specs.Listed.{mark_of, version_entry};
ghost use Rattle.module_symbols.specs.Versions.{stated_version};

use crate::versions::{Version, Versions, version_list};
use elf_object::ObjectView;
use memchr::memchr;
use name_table::NameTable;
use std::alloc::{AllocError, Global};
use std::marker::Model;

/// The most versions that are looked through one by one, which takes less time than a table of so
/// few.
const FEW_VERSIONS: usize = 128;

/// The most bytes that their names may have together.
const FEW_BYTES: usize = 8192;

/// The most symbols for which versions are looked through one by one. Each may be a need, and names
/// may share their bytes, so a file may have many more.
const FEW_SYMBOLS: u32 = 1 << 16;

/// The versions that a module states of the symbols that it needs, in the order of the file.
/// Contracts see the names with their numbers. The kernel's include/linux/module.h, struct
/// modversion_info.
#[derive(Drop)]
pub(crate) struct VersionList<'a> {
    entries: Versions<'a>,
    // The mark of each name.
    marks: Vec<u8>,
    // None if they are few.
    names: Option<NameTable<'a>>,
}

impl<'a> Model for VersionList<'a> {
    ghost use Rattle.std.specs.Prelude.{ℕ, ◌≡◌, List, Some, IfSome, map};
    ghost use Rattle.name_table.specs.NameTable.{IsTableOf};
    ghost use Rattle.module_symbols.specs.Listed.{mark_of, version_entry};

    ghost Value = { List (List ℕ × ℕ) };

    ghost view = { λ list. map version_entry list.entries };

    ghost invariant = { λ list. (list.marks.items ≡ map (λ v. mark_of v.name.now) list.entries)
        × IfSome list.names
        (λ names. IsTableOf names (map (λ v. Some v.name.now) list.entries)) };
}

impl<'a> VersionList<'a> {
    ghost use Rattle.module_symbols.specs.Versions.{stated_version, version_list};

    /// Reads the version list of a module. It is empty if the file has none.
    pub(crate) fn read(
        alloc: Global,
        object: &ObjectView<'a>,
    ) -> Result<VersionList<'a>, AllocError>
        ensures { IfOk result (λ list. list ≡ version_list object.now) }
    {
        let entries = version_list(alloc, object)?;
        let marks = marks_of(alloc, entries.as_slice())?;
        let names = table_if_many(alloc, entries.as_slice(), object.symbol_count())?;
        Ok(VersionList {
            entries,
            marks,
            names,
        })
    }

    /// Returns how many versions there are.
    pub(crate) fn len(&self) -> usize
        ensures { result ≡ length self.now }
    {
        self.entries.len()
    }

    /// Returns the version that the list has for a name, from the first entry of the name.
    pub(crate) fn version_of(&self, name: &[u8]) -> Option<u64>
        ensures { result ≡ stated_version self.now name.now }
    {
        match &self.names {
            Some(names) => version_by(&self.entries, names, name),
            None => first_version(self.entries.as_slice(), self.marks.as_slice(), name),
        }
    }
}

/// Returns the version of the first entry of a name, by the table of the names.
#[tactic(auto, unfolding(crate::specs::Versions::stated_version))]
fn version_by(entries: &Versions, names: &NameTable, name: &[u8]) -> Option<u64>
    requires { IsTableOf names.now (map (λ v. Some v.name.now) entries.now) }
    ensures { result ≡ stated_version (map version_entry entries.now) name.now }
{
    let place = names.place(name)?;
    match entries.get(place as usize) {
        Some(version) => Some(version.number),
        None => None,
    }
}

/// Returns the version of the first entry of a name, looked for one by one. Only names with the
/// same mark are compared.
#[tactic(auto, unfolding(crate::specs::Versions::stated_version))]
fn first_version(entries: &[Version], marks: &[u8], name: &[u8]) -> Option<u64>
    requires { marks.now ≡ map (λ v. mark_of v.name.now) entries.now }
    ensures { result ≡ stated_version (map version_entry entries.now) name.now }
{
    let wanted = mark(name);
    let mut from = 0;
    while let Some(place) = memchr(wanted, &marks[from..]) {
        let version = &entries[from + place];
        if version.name == name {
            return Some(version.number);
        }
        from += place + 1;
    }
    None
}

/// Returns the marks of the names of some versions.
fn marks_of(alloc: Global, entries: &[Version]) -> Result<Vec<u8>, AllocError>
    ensures { IfOk result (λ marks. marks.items ≡ map (λ v. mark_of v.name.now) entries.now) }
{
    let mut marks = Vec::with_capacity(alloc, entries.len())?;
    for version in entries {
        marks.push(mark(version.name))?;
    }
    Ok(marks)
}

/// Returns the mark of a name, a byte by its length, its last byte and the one in its middle. Most
/// names of a list that differ have different marks.
#[tactic(auto, unfolding(crate::specs::Listed::mark_of))]
fn mark(name: &[u8]) -> u8
    ensures { result ≡ mark_of name.now }
{
    if name.is_empty() {
        return 0;
    }
    let last = usize::from(name[name.len() - 1]);
    let middle = usize::from(name[name.len() / 2]);
    ((name.len() % 256 * 31 + last * 7 + middle) % 256) as u8
}

/// Returns the table of the names of some versions, unless they and the symbols are few.
fn table_if_many<'a>(
    alloc: Global,
    entries: &[Version<'a>],
    symbols: u32,
) -> Result<Option<NameTable<'a>>, AllocError>
    requires { length entries.now < 2 ^ 32 - 1 }
    ensures { IfOk result (λ names. IfSome names
        (λ t. IsTableOf t (map (λ v. Some v.name.now) entries.now))) }
{
    if symbols <= FEW_SYMBOLS && are_few(entries) {
        return Ok(None);
    }
    Ok(Some(table_of(alloc, entries)?))
}

/// Returns whether versions are few, and their names short.
fn are_few(entries: &[Version]) -> bool {
    if entries.len() > FEW_VERSIONS {
        return false;
    }
    let mut length = 0usize;
    for version in entries {
        length = length.saturating_add(version.name.len());
    }
    length <= FEW_BYTES
}

/// Returns the table of the names of some versions.
fn table_of<'a>(alloc: Global, entries: &[Version<'a>]) -> Result<NameTable<'a>, AllocError>
    requires { length entries.now < 2 ^ 32 - 1 }
    ensures { IfOk result (λ t. IsTableOf t (map (λ v. Some v.name.now) entries.now)) }
{
    let mut names = NameTable::with_capacity(alloc, entries.len())?;
    for version in entries {
        names.push(Some(version.name))?;
    }
    Ok(names)
}
