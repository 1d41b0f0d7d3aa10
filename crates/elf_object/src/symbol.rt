// One symbol, and the symbol table.

ghost use Rattle.std.specs.Prelude.{◌≡◌, ◌+◌, ◌*◌, ◌≤◌, ◌⊎◌, length, map, None, Some, IfOk, IfErr};
ghost use Rattle.std.specs.Prelude.{OnOk};
ghost use Rattle.std.specs.Result.{result_err};
ghost use Rattle.km_names.specs.Limit.{file_limit};
ghost use Rattle.km_names.specs.First.{first};
ghost use Rattle.elf_sections.specs.Shape.{each};
ghost use Rattle.elf_object.specs.Symbols.{entries, is_bad_symbol, kind_test, owned_symbol};
ghost use Rattle.elf_object.specs.Symbols.{symbol_entry, symbol_in, symbol_test_in, symbols_in};

use crate::ObjectFault;
use elf_format::{
    SHN_ABS, SHN_COMMON, SHN_LORESERVE, SHN_UNDEF, SHN_XINDEX, STB_LOCAL, STB_WEAK, SYM_SIZE,
};
use elf_sections::{NAME_LIMIT, SEARCH_LIMIT, SectionFault, bytes_left, string_within};
use km_names::{List, Name, le_u16_at, le_u32_at, le_u64_at};
use std::alloc::{AllocError, Global};

/// A symbol of a file. gABI 4, "Symbol Table", Elf64_Sym.
#[derive(Debug, Drop)]
pub struct Symbol {
    /// The text at `st_name` of the symbol table's string table.
    pub name: Name,
    /// The binding: 0 local, 1 global, 2 weak.
    pub binding: u8,
    /// The number of its section; 0 if it is undefined, 0xfff1 if its value is absolute.
    pub section: u16,
    /// Its value: its place in its section, or the absolute value.
    pub value: u64,
}

/// A symbol of a file whose name is borrowed, as from the file's string table. gABI 4, "Symbol
/// Table", Elf64_Sym.
#[derive(Clone, Copy, Debug)]
pub struct SymbolRef<'a> {
    /// The text at `st_name` of the symbol table's string table.
    pub name: &'a [u8],
    /// The binding: 0 local, 1 global, 2 weak.
    pub binding: u8,
    /// The number of its section; 0 if it is undefined, 0xfff1 if its value is absolute.
    pub section: u16,
    /// Its value: its place in its section, or the absolute value.
    pub value: u64,
}

/// One entry of a symbol table, as the file has it.
#[derive(Clone, Copy)]
pub(crate) struct SymbolEntry {
    pub(crate) name: u32,
    pub(crate) info: u8,
    pub(crate) section: u16,
    pub(crate) value: u64,
}

/// Returns the symbols of a table, by its string table and the count of sections. Their names
/// together have at most `SEARCH_LIMIT` bytes.
pub(crate) fn read_symbols<'a>(
    alloc: Global,
    table: &[u8],
    names: &'a [u8],
    count: u32,
) -> Result<List<SymbolRef<'a>>, ObjectFault>
    requires { length table.now ≤ file_limit }
    ensures symbols { IfOk result (λ l. map owned_symbol l ≡ symbols_in table.now names.now) }
    ensures passed { OnOk result
        (first (each (entries table.now) (symbol_test_in table.now names.now count)) ≡ None) }
    ensures fault { IfErr result
        (λ e. (e ≡ ObjectFault.Memory)
        ⊎ (first (each (entries table.now) (symbol_test_in table.now names.now count)) ≡ Some e)) }
{
    let entries = table.len() / SYM_SIZE;
    let mut symbols = Vec::with_capacity(alloc, entries)?;
    let mut left = SEARCH_LIMIT;
    for index in 0..entries as u32 {
        let symbol = read_symbol(table, names, count, index, left)?;
        left -= symbol.name.len();
        symbols.push(symbol)?;
    }
    Ok(List::from_vec(symbols))
}

/// Returns the symbols with names of their own. Together these have at most `NAME_LIMIT` bytes,
/// which is tested before any is copied.
pub(crate) fn owned_symbols(
    alloc: Global,
    symbols: &[SymbolRef],
) -> Result<List<Symbol>, AllocError>
    ensures { IfOk result (λ l. l ≡ map owned_symbol symbols.now) }
{
    check_copies(symbols)?;
    let mut list = Vec::with_capacity(alloc, symbols.len())?;
    for symbol in symbols {
        list.push(Symbol {
            name: Name::from_slice(alloc, symbol.name)?,
            binding: symbol.binding,
            section: symbol.section,
            value: symbol.value,
        })?;
    }
    Ok(List::from_vec(list))
}

/// Returns the symbols with their names in place.
pub(crate) fn borrowed_symbols<'a>(
    alloc: Global,
    symbols: &'a [Symbol],
) -> Result<List<SymbolRef<'a>>, AllocError>
    ensures { IfOk result (λ l. map owned_symbol l ≡ symbols.now) }
{
    let mut list = Vec::with_capacity(alloc, symbols.len())?;
    for symbol in symbols {
        list.push(SymbolRef {
            name: symbol.name.as_bytes(),
            binding: symbol.binding,
            section: symbol.section,
            value: symbol.value,
        })?;
    }
    Ok(List::from_vec(list))
}

/// Tests that the names of the symbols together have at most `NAME_LIMIT` bytes.
fn check_copies(symbols: &[SymbolRef]) -> Result<(), AllocError> {
    let mut left = NAME_LIMIT;
    for symbol in symbols {
        left = bytes_left(left, symbol.name.len())?;
    }
    Ok(())
}

/// Returns the symbol `index` of a table, by its string table and the count of sections. Names may
/// have `left` bytes more.
#[tactic(auto, unfolding(crate::specs::Symbols::symbol_in, crate::specs::Symbols::symbol_test_in))]
fn read_symbol<'a>(
    table: &[u8],
    names: &'a [u8],
    count: u32,
    index: u32,
    left: usize,
) -> Result<SymbolRef<'a>, ObjectFault>
    requires entry { 24 * index + 24 ≤ length table.now }
    requires left { left ≤ SEARCH_LIMIT }
    ensures symbol { IfOk result (λ s. owned_symbol s ≡ symbol_in table.now names.now index) }
    ensures within { IfOk result (λ s. length s.name.now ≤ left) }
    ensures passed { OnOk result (symbol_test_in table.now names.now count index ≡ None) }
    ensures fault { IfErr result
        (λ e. (e ≡ ObjectFault.Memory)
        ⊎ (symbol_test_in table.now names.now count index ≡ Some e)) }
{
    if index == 0 {
        return Ok(SymbolRef {
            name: &[],
            binding: 0,
            section: 0,
            value: 0,
        });
    }
    let entry = symbol_entry(table, index);
    let Some(name) = string_within(names, entry.name, left)? else {
        return Err(ObjectFault::Shape(SectionFault::BadString {
            offset: u64::from(entry.name),
        }));
    };
    check_kind(count, name, index, &entry)?;
    Ok(SymbolRef {
        name,
        binding: entry.info / 16,
        section: entry.section,
        value: entry.value,
    })
}

/// Returns the entry `index` of a symbol table.
#[tactic(auto, unfolding(crate::specs::Symbols::symbol_entry))]
fn symbol_entry(table: &[u8], index: u32) -> SymbolEntry
    requires { 24 * index + 24 ≤ length table.now }
    ensures { result ≡ symbol_entry table.now index }
{
    let at = SYM_SIZE * index as usize;
    SymbolEntry {
        name: le_u32_at(table, at),
        info: table[at + 4],
        section: le_u16_at(table, at + 6),
        value: le_u64_at(table, at + 8),
    }
}

/// Tests the section and the binding of the symbol `index` of this name.
#[tactic(auto, unfolding(crate::specs::Symbols::kind_test))]
fn check_kind(count: u32, name: &[u8], index: u32, entry: &SymbolEntry) -> Result<(), ObjectFault>
    ensures { result_err result ≡ kind_test count name.now index entry.now }
{
    if entry.section == SHN_XINDEX {
        return Err(ObjectFault::ExtendedIndex { index });
    }
    if entry.section == SHN_COMMON {
        return Err(ObjectFault::CommonSymbol { index });
    }
    if is_bad_symbol(count, name, entry) {
        return Err(ObjectFault::BadSymbol { index });
    }
    Ok(())
}

/// Returns whether a symbol of this name is invalid, in a file of `count` sections.
#[tactic(auto, unfolding(crate::specs::Symbols::is_bad_symbol))]
fn is_bad_symbol(count: u32, name: &[u8], entry: &SymbolEntry) -> bool
    ensures { result ≡ is_bad_symbol count name.now entry.now }
{
    let binding = entry.info / 16;
    (SHN_LORESERVE <= entry.section && entry.section != SHN_ABS)
        || (entry.section < SHN_LORESERVE && count <= u32::from(entry.section))
        || STB_WEAK < binding
        || (entry.section == SHN_UNDEF && (binding == STB_LOCAL || name.is_empty()))
}
