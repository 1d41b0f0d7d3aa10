// The exports of a module.

ghost use Rattle.std.specs.Prelude.{◌≡◌, ◌≤◌, [], false, length, IfOk, option_and_then};
ghost use Rattle.std.specs.Prelude.{option_copied, unwrap_or};
ghost use Rattle.std.specs.Option.{option_map_or};
ghost use Rattle.elf_object.specs.Symbols.{owned_symbol};
ghost use Rattle.module_symbols.specs.Roles.{symbol_of};
ghost use Rattle.module_symbols.specs.Exports.{export_of, exports_of, given_space, given_version};
ghost use Rattle.module_symbols.specs.Exports.{is_gpl_entry};
ghost use Rattle.module_symbols.specs.SymbolTables.{AreTablesFor, HasTables};

use crate::contents::section_contents;
use crate::role::{Role, stated_name};
use crate::tables::{SymbolTables, symbol_of};
use elf_format::SHN_ABS;
use elf_object::{ObjectView, SymbolRef};
use elf_sections::{NAME_LIMIT, SEARCH_LIMIT, bytes_left};
use km_names::{List, Name, le_u32_at, string_at};
use std::alloc::{AllocError, Global};

/// A symbol that a module exports. The kernel's EXPORT_SYMBOL, include/linux/export.h.
#[derive(Debug, Drop)]
pub struct Export {
    /// The name that others use for it.
    pub name: Name,
    /// The number of the symbol that defines it.
    pub symbol: u32,
    /// Its version, if it states one.
    pub crc: Option<u64>,
    /// Whether only GPL-compatible modules may use it. EXPORT_SYMBOL_GPL.
    pub gpl: bool,
    /// Its namespace, which is empty if it has none. EXPORT_SYMBOL_NS.
    pub space: Name,
}

/// The exports of a module, in the order of the symbols that state them.
pub type Exports = List<Export>;

/// Returns the version that a symbol gives. If the symbol is absolute, it is its value. Otherwise
/// it is the number in the 4 bytes at its value in its section, if the section has them.
#[tactic(auto, unfolding(crate::specs::Exports::given_version))]
pub fn given_version(object: &ObjectView, symbol: SymbolRef) -> Option<u64>
    ensures { result ≡ given_version object.now (owned_symbol symbol.entry) }
{
    if symbol.section == SHN_ABS {
        return Some(symbol.value);
    }
    let bytes = section_contents(object, u32::from(symbol.section));
    let size = bytes.len() as u64;
    if 4 <= size && symbol.value <= size - 4 {
        Some(u64::from(le_u32_at(bytes, symbol.value as usize)))
    } else {
        None
    }
}

/// Returns the namespace that a symbol gives: the text at its value in its section. An absolute
/// symbol gives none, nor does one whose section has no bytes in the file.
#[tactic(auto, unfolding(crate::specs::Exports::given_space))]
pub fn given_space<'a>(object: &ObjectView<'a>, symbol: SymbolRef) -> Option<&'a [u8]>
    ensures { option_copied result ≡ given_space object.now (owned_symbol symbol.entry) }
{
    let bytes = section_contents(object, u32::from(symbol.section));
    string_at(bytes, symbol.value as usize)
}

/// Returns the exports, by the tables of the object. Without tables there are none.
pub fn exports_by(
    alloc: Global,
    object: &ObjectView,
    tables: Option<&SymbolTables>,
) -> Result<Exports, AllocError>
    requires { AreTablesFor (exports_of object.now) object.now (option_copied tables) }
    ensures { IfOk result (λ exports. exports ≡ exports_of object.now) }
{
    match tables {
        Some(tables) => read_exports(alloc, object, tables),
        None => Ok(Exports::new(alloc)),
    }
}

/// Returns the exports, in the order of the symbols that state them. Names and namespaces may share
/// their bytes in the file, so a small file can ask for any number of them. If the names together,
/// or the namespaces together, would have more than `NAME_LIMIT` bytes, the answer is out of
/// memory. It also is if more than `SEARCH_LIMIT` bytes are searched for the ends of namespaces
/// that have none, which no file under a megabyte has.
#[tactic(auto, unfolding(crate::specs::Exports::exports_of))]
fn read_exports(
    alloc: Global,
    object: &ObjectView,
    tables: &SymbolTables,
) -> Result<Exports, AllocError>
    requires { HasTables tables.now object.now }
    ensures { IfOk result (λ exports. exports ≡ exports_of object.now) }
{
    // The names of exports differ in a sound module, so the list doesn't grow.
    let mut exports = Exports::from_vec(Vec::with_capacity(alloc, tables.exports.len())?);
    let mut names = NAME_LIMIT;
    let mut spaces = NAME_LIMIT;
    let mut searches = SEARCH_LIMIT;
    for i in 0..object.symbol_count() {
        if let Some(name) = stated_name(Role::Export, object.symbol(i)) {
            names = bytes_left(names, name.len())?;
            let (space, searched) = space_of(object, tables, name);
            spaces = bytes_left(spaces, space.len())?;
            searches = bytes_left(searches, searched)?;
            exports.push(read_export(alloc, object, tables, name, space)?)?;
        }
    }
    Ok(exports)
}

/// Returns the export of a name with its namespace.
#[tactic(auto, unfolding(crate::specs::Exports::export_of))]
fn read_export(
    alloc: Global,
    object: &ObjectView,
    tables: &SymbolTables,
    name: &[u8],
    space: &[u8],
) -> Result<Export, AllocError>
    requires tables { HasTables tables.now object.now }
    requires space { space.now ≡ (export_of object.now name.now).space }
    ensures { IfOk result (λ export. export ≡ export_of object.now name.now) }
{
    Ok(Export {
        name: Name::from_slice(alloc, name)?,
        symbol: tables.first_symbol(Role::Definition, name).unwrap_or(0),
        crc: version_of(object, tables, name),
        gpl: is_gpl(object, tables, name),
        space: Name::from_slice(alloc, space)?,
    })
}

/// Returns the namespace of an export, which is empty if no symbol gives one, and how many bytes
/// are searched in vain for its end.
#[tactic(auto, unfolding(crate::specs::Exports::export_of))]
fn space_of<'a>(object: &ObjectView<'a>, tables: &SymbolTables, name: &[u8]) -> (&'a [u8], usize)
    requires { HasTables tables.now object.now }
    ensures { result.0.now ≡ (export_of object.now name.now).space }
{
    let Some(symbol) = symbol_of(object, tables, Role::Space, name) else {
        return (&[], 0);
    };
    match given_space(object, symbol) {
        Some(text) => (text, 0),
        None => (&[], searched_in_vain(object, symbol)),
    }
}

/// Returns how many bytes are searched for the end of the namespace of a symbol that gives none.
fn searched_in_vain(object: &ObjectView, symbol: SymbolRef) -> usize {
    let size = section_contents(object, u32::from(symbol.section)).len();
    size.saturating_sub(symbol.value as usize)
}

/// Returns the version of an export, if a symbol gives one.
fn version_of(object: &ObjectView, tables: &SymbolTables, name: &[u8]) -> Option<u64>
    requires { HasTables tables.now object.now }
    ensures { result
        ≡ option_and_then (given_version object.now) (symbol_of Role.Version object.now name.now) }
{
    let symbol = symbol_of(object, tables, Role::Version, name)?;
    given_version(object, symbol)
}

/// Returns whether an export is GPL-only.
fn is_gpl(object: &ObjectView, tables: &SymbolTables, name: &[u8]) -> bool
    requires { HasTables tables.now object.now }
    ensures { result
        ≡ option_map_or (is_gpl_entry object.now) (symbol_of Role.Export object.now name.now)
        false }
{
    match symbol_of(object, tables, Role::Export, name) {
        Some(symbol) => is_gpl_entry(object, symbol),
        None => false,
    }
}

/// Returns whether a symbol lies in the section for GPL-only exports.
#[tactic(auto, unfolding(crate::specs::Exports::is_gpl_entry))]
fn is_gpl_entry(object: &ObjectView, symbol: SymbolRef) -> bool
    ensures { result ≡ is_gpl_entry object.now (owned_symbol symbol.entry) }
{
    let i = u32::from(symbol.section);
    i < object.section_count() && object.section(i).name == b"__ksymtab_gpl".as_slice()
}
