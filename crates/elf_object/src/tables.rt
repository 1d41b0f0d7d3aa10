// The tables of an object file: its symbol table and its tables of relocations.

ghost use Rattle.std.specs.Prelude.{◌≡◌, ◌<◌, ◌≤◌, ◌⊎◌, length, map, None, Some, IfErr, IfOk, OnOk};
ghost use Rattle.std.specs.Result.{result_err};
ghost use Rattle.km_names.specs.First.{first};
ghost use Rattle.km_names.specs.Limit.{file_limit};
ghost use Rattle.elf_sections.specs.Shape.{each, section_count};
ghost use Rattle.elf_object.specs.Inner.{TablesFit};
ghost use Rattle.elf_sections.specs.Sections.{IsRead};
ghost use Rattle.elf_object.specs.Symbols.{has_entries, is_good_table, is_string_table};
ghost use Rattle.elf_object.specs.Symbols.{is_symbol_table, owned_symbol, rel_test, symbol_bytes};
ghost use Rattle.elf_object.specs.Symbols.{symbol_names, symbol_table, symbol_tests, symbols_of};
ghost use Rattle.elf_object.specs.Symbols.{table_test};

use crate::symbol::read_symbols;
use crate::{ObjectFault, SymbolRef};
use elf_format::{SHT_REL, SHT_RELA, SHT_STRTAB, SHT_SYMTAB, SYM_SIZE};
use elf_sections::{SectionTable, up_to_last_nul};
use km_names::List;
use std::alloc::Global;

/// Reads the symbols of a file, after the tests of its tables.
pub(crate) fn read_symbol_table<'a>(
    alloc: Global,
    sections: &SectionTable<'a>,
) -> Result<List<SymbolRef<'a>>, ObjectFault>
    requires { length sections.now.file ≤ file_limit }
    ensures symbols { IfOk result (λ l. map owned_symbol l ≡ symbols_of sections.now.file) }
    ensures read { IsRead sections.now.file sections.now.list }
    ensures fit { OnOk result (TablesFit sections.now.file) }
    ensures passed { OnOk result (first (symbol_tests sections.now.file) ≡ None) }
    ensures fault { IfErr result
        (λ e. (e ≡ ObjectFault.Memory) ⊎ (first (symbol_tests sections.now.file) ≡ Some e)) }
{
    let count = sections.section_count();
    check_rel(sections)?;
    let number = symbol_table(sections);
    check_tables(sections, number)?;
    let (table, strings) = symbol_tables(sections, number);
    let names = up_to_last_nul(strings);
    read_symbols(alloc, table, names, count)
}

/// Tests that no section holds relocations without addends.
#[tactic(auto, unfolding(crate::specs::Symbols::rel_test))]
fn check_rel(sections: &SectionTable) -> Result<(), ObjectFault>
    ensures { result_err result
        ≡ first (each (section_count sections.now.file) (rel_test sections.now.file)) }
{
    for index in 0..sections.section_count() {
        if sections.section(index).kind == SHT_REL {
            return Err(ObjectFault::RelSection { index });
        }
    }
    Ok(())
}

/// Returns the symbol table: the first section of that type.
fn symbol_table(sections: &SectionTable) -> Option<u32>
    ensures { result ≡ symbol_table sections.now.file }
{
    for index in 0..sections.section_count() {
        if sections.section(index).kind == SHT_SYMTAB {
            return Some(index);
        }
    }
    None
}

/// Tests that each table is valid, by the number of the symbol table.
fn check_tables(sections: &SectionTable, symbols: Option<u32>) -> Result<(), ObjectFault>
    requires { symbols ≡ symbol_table sections.now.file }
    ensures fault { result_err result
        ≡ first (each (section_count sections.now.file) (table_test sections.now.file)) }
    ensures fit { OnOk result (TablesFit sections.now.file) }
{
    for index in 0..sections.section_count() {
        if !is_good_table(sections, symbols, index) {
            return Err(ObjectFault::BadTable { index });
        }
    }
    Ok(())
}

/// Returns the bytes of the symbol table, and the bytes of its string table; none if there is no
/// symbol table.
fn symbol_tables<'a>(sections: &SectionTable<'a>, symbols: Option<u32>) -> (&'a [u8], &'a [u8])
    requires read { IsRead sections.now.file sections.now.list }
    requires symbols { symbols ≡ symbol_table sections.now.file }
    requires fit { TablesFit sections.now.file }
    ensures bytes { result.0.now ≡ symbol_bytes sections.now.file }
    ensures names { result.1.now ≡ symbol_names sections.now.file }
    ensures length { length result.0.now ≤ length sections.now.file }
{
    match symbols {
        Some(table) => {
            let names = sections.section(table).link;
            (sections.section_bytes(table), sections.section_bytes(names))
        }
        None => (&[], &[]),
    }
}

/// Returns whether the section `index` is valid if it is a table, by the number of the symbol
/// table.
#[tactic(auto, unfolding(crate::specs::Symbols::is_good_table, crate::specs::Symbols::is_symbol_table))]
fn is_good_table(sections: &SectionTable, symbols: Option<u32>, index: u32) -> bool
    requires index { index < length sections.now.list }
    requires symbols { symbols ≡ symbol_table sections.now.file }
    ensures { result ≡ is_good_table sections.now.file index }
{
    let section = sections.section(index);
    match section.kind {
        SHT_SYMTAB => {
            symbols == Some(index)
                && has_entries(sections, index)
                && is_string_table(sections, section.link)
        }
        SHT_RELA => {
            has_entries(sections, index)
                && symbols == Some(section.link)
                && 0 < section.info
                && section.info < sections.section_count()
        }
        _ => true,
    }
}

/// Returns whether the section `index` has entries of 24 bytes, each of them whole.
#[tactic(auto, unfolding(crate::specs::Symbols::has_entries))]
fn has_entries(sections: &SectionTable, index: u32) -> bool
    requires { index < length sections.now.list }
    ensures { result ≡ has_entries sections.now.file index }
{
    let entry = SYM_SIZE as u64;
    sections.entry_size(index) == entry && sections.section(index).size % entry == 0
}

/// Returns whether the section `index` is a string table.
#[tactic(auto, unfolding(crate::specs::Symbols::is_string_table))]
fn is_string_table(sections: &SectionTable, index: u32) -> bool
    ensures { result ≡ is_string_table sections.now.file index }
{
    index < sections.section_count() && sections.section(index).kind == SHT_STRTAB
}
