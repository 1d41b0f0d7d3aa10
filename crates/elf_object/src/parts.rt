// The parts of a file that are read before its places.

ghost use Rattle.std.specs.Prelude.{◌≡◌, ◌≤◌, ◌⊎◌, length, map, None, Some, IfErr, IfOk, OnOk};
ghost use Rattle.km_names.specs.Limit.{file_limit};
ghost use Rattle.km_names.specs.First.{first};
ghost use Rattle.elf_object.specs.Inner.{TablesFit, unkept_flags};
ghost use Rattle.elf_object.specs.Object.{object_fault};
ghost use Rattle.elf_object.specs.Places.{place_tests};
ghost use Rattle.elf_sections.specs.Sections.{IsRead, file_sections, sections_of};
ghost use Rattle.elf_object.specs.Symbols.{owned_symbol, symbol_tests, symbols_of};

use crate::place::unkept_symbols;
use crate::tables::read_symbol_table;
use crate::{ObjectFault, SymbolRef};
use elf_sections::SectionTable;
use km_names::List;
use std::alloc::Global;

/// The sections and the symbols of a file, with their names in place.
#[derive(Drop)]
pub(crate) struct FileParts<'a> {
    pub(crate) table: SectionTable<'a>,
    pub(crate) symbols: List<SymbolRef<'a>>,
    /// For each symbol whether it lies in a section that isn't kept.
    pub(crate) unkept: Vec<bool>,
}

/// Reads a file without its places, after all other tests that it must pass.
pub(crate) fn read_parts<'a>(alloc: Global, bytes: &'a [u8]) -> Result<FileParts<'a>, ObjectFault>
    requires { length bytes.now ≤ file_limit }
    ensures sections { IfOk result (λ p. p.table ≡ file_sections bytes.now) }
    ensures symbols { IfOk result (λ p. map owned_symbol p.symbols ≡ symbols_of bytes.now) }
    ensures unkept { IfOk result (λ p. p.unkept.items
        ≡ unkept_flags (sections_of bytes.now) (symbols_of bytes.now)) }
    ensures read { OnOk result (IsRead bytes.now (sections_of bytes.now)) }
    ensures fit { OnOk result (TablesFit bytes.now) }
    ensures passed { OnOk result (first (symbol_tests bytes.now) ≡ None) }
    ensures left { OnOk result (object_fault bytes.now ≡ first (place_tests bytes.now)) }
    ensures fault { IfErr result (λ e. (e ≡ ObjectFault.Memory)
        ⊎ (object_fault bytes.now ≡ Some e)) }
{
    let table = SectionTable::read(alloc, bytes)?;
    let symbols = read_symbol_table(alloc, &table)?;
    let unkept = unkept_symbols(alloc, table.list(), symbols.as_slice())?;
    Ok(FileParts {
        table,
        symbols,
        unkept,
    })
}
