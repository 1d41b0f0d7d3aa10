// The symbols of an object, with their names.
ghost use Rattle.std.specs.Prelude.{◌≡◌, ◌≤◌, ◌<◌, ◌+◌, ◌*◌, ◌^◌, [], ◌∷◌, ◌++◌, length, map, All};
ghost use Rattle.std.specs.Prelude.{IsTrue, OnOk, IfOk};
ghost use Rattle.std.specs.List.{flat_map};
ghost use Rattle.sheet_object.specs.Sheet.{is_sheet};
ghost use Rattle.elf_write.specs.Number.{zeros};
ghost use Rattle.sheet_object.specs.Symbols.{local_symbols, version_symbols, space_symbols};
ghost use Rattle.sheet_object.specs.Symbols.{export_symbols, need_info, need_symbol};
ghost use Rattle.sheet_object.specs.Contents.{symtab_bytes, strtab_bytes};
ghost use Rattle.sheet_object.specs.Writing.{named, Adds};

use crate::further::{Further, strings_section};
use crate::section::TEXT;
use crate::sheet::{Sheet, SheetExport, SheetNeed};
use elf_format::{
    SHN_ABS, SHN_UNDEF, STB_GLOBAL, STB_LOCAL, STB_WEAK, STT_FUNC, STT_NOTYPE, SYM_SIZE,
};
use elf_write::{push_half, push_word, push_xword, push_zeros};
use std::alloc::{AllocError, Global};

/// The info of a local symbol of no type, of a global function, and of global and weak symbols of
/// no type.
const LOCAL: u8 = 16 * STB_LOCAL + STT_NOTYPE;

const GLOBAL_FUNCTION: u8 = 16 * STB_GLOBAL + STT_FUNC;

const GLOBAL: u8 = 16 * STB_GLOBAL + STT_NOTYPE;

const WEAK: u8 = 16 * STB_WEAK + STT_NOTYPE;

/// The size of the code of each export in bytes.
pub(crate) const CODE_SIZE: usize = 16;

/// The symbol table and the string table with its names.
#[derive(Drop)]
pub(crate) struct SymbolTable {
    pub(crate) entries: Vec<u8>,
    pub(crate) names: Vec<u8>,
}

impl SymbolTable {
    /// Returns the table of the first symbol, which is zeros and has no name.
    fn new(alloc: Global) -> Result<Self, AllocError>
        ensures entries { IfOk result (λ t. t.entries.items ≡ zeros 24) }
        ensures names { IfOk result (λ t. t.names.items ≡ 0 ∷ []) }
    {
        let mut entries = Vec::new(alloc);
        push_zeros(&mut entries, SYM_SIZE)?;
        let mut names = Vec::new(alloc);
        names.push(0)?;
        Ok(SymbolTable { entries, names })
    }

    /// Puts a symbol at the end, whose name is the given one after a prefix.
    fn push(&mut self, prefix: &[u8], name: &[u8], symbol: Symbol) -> Result<(), AllocError>
        requires { length self.old.names.items < 2 ^ 32 }
        ensures { OnOk result
            (Adds self.old self.new (named (prefix.now ++ name.now) symbol ∷ [])) }
    {
        push_word(&mut self.entries, self.names.len() as u32)?;
        self.entries.push(symbol.info)?;
        self.entries.push(0)?;
        push_half(&mut self.entries, symbol.section)?;
        push_xword(&mut self.entries, symbol.value)?;
        push_xword(&mut self.entries, symbol.size)?;
        self.names.extend_from_slice(prefix)?;
        self.names.extend_from_slice(name)?;
        self.names.push(0)?;
        Ok(())
    }

    /// Puts the local symbol that states the version of an export at the end.
    fn push_version(&mut self, name: &[u8], crc: Option<u64>) -> Result<(), AllocError>
        requires { length self.old.names.items < 2 ^ 32 }
        ensures { OnOk result (Adds self.old self.new (version_symbols name.now crc)) }
    {
        match crc {
            None => Ok(()),
            Some(crc) => self.push(b"__crc_", name, local(SHN_ABS, crc)),
        }
    }

    /// Puts the local symbol that states the namespace of an export at the end.
    fn push_space(
        &mut self,
        name: &[u8],
        section: u16,
        place: Option<u64>,
    ) -> Result<(), AllocError>
        requires { length self.old.names.items < 2 ^ 32 }
        ensures { OnOk result (Adds self.old self.new (space_symbols name.now section place)) }
    {
        match place {
            None => Ok(()),
            Some(place) => self.push(b"__kstrtabns_", name, local(section, place)),
        }
    }

    /// Puts the local symbols of an export at the end.
    fn push_local(&mut self, export: &SheetExport, further: &Further) -> Result<(), AllocError>
        requires short { length export.now.name ≤ 4096 }
        requires fits { length self.old.names.items + 12319 < 2 ^ 32 }
        ensures { OnOk result
            (Adds self.old self.new (local_symbols further.now.more.now export.now)) }
    {
        let name = export.name.as_bytes();
        let section = further.table_section(name);
        self.push(b"__ksymtab_", name, local(section, 0))?;
        self.push_version(name, export.crc)?;
        let place = further.space_place(name);
        self.push_space(name, strings_section(further.more), place)
    }

    /// Puts the local symbols of exports at the end.
    fn push_locals(&mut self, exports: &[SheetExport], further: &Further) -> Result<(), AllocError>
        requires short { All (λ e. length e.name ≤ 4096) exports.now }
        requires fits { length self.old.names.items + 12319 * length exports.now < 2 ^ 32 }
        ensures added { OnOk result
            (Adds self.old self.new (flat_map (local_symbols further.now.more.now) exports.now)) }
        ensures length { OnOk result
            (length self.new.names.items
            ≤ length self.old.names.items + 12319 * length exports.now) }
    {
        for export in exports {
            self.push_local(export, further)?;
        }
        Ok(())
    }

    /// Puts exported symbols at the end.
    fn push_exports(&mut self, exports: &[SheetExport]) -> Result<(), AllocError>
        requires few { length exports.now ≤ 65535 }
        requires short { All (λ e. length e.name ≤ 4096) exports.now }
        requires fits { length self.old.names.items + 4097 * length exports.now < 2 ^ 32 }
        ensures added { OnOk result (Adds self.old self.new (export_symbols 0 exports.now)) }
        ensures length { OnOk result
            (length self.new.names.items
            ≤ length self.old.names.items + 4097 * length exports.now) }
    {
        for (j, export) in exports.iter().enumerate() {
            let symbol = Symbol {
                info: GLOBAL_FUNCTION,
                section: TEXT,
                value: (CODE_SIZE * j) as u64,
                size: CODE_SIZE as u64,
            };
            self.push(b"", export.name.as_bytes(), symbol)?;
        }
        Ok(())
    }

    /// Puts undefined symbols at the end.
    fn push_needs(&mut self, needs: &[SheetNeed]) -> Result<(), AllocError>
        requires short { All (λ n. length n.name ≤ 4096) needs.now }
        requires fits { length self.old.names.items + 4097 * length needs.now < 2 ^ 32 }
        ensures { OnOk result (Adds self.old self.new (map need_symbol needs.now)) }
    {
        for need in needs {
            let symbol = Symbol {
                info: need_info(need.weak),
                section: SHN_UNDEF,
                value: 0,
                size: 0,
            };
            self.push(b"", need.name.as_bytes(), symbol)?;
        }
        Ok(())
    }
}

/// Returns the symbols of a sheet: the local symbols of exports, then the exports, then the needs.
pub(crate) fn symbol_table(
    alloc: Global,
    sheet: &Sheet,
    further: &Further,
) -> Result<SymbolTable, AllocError>
    requires { IsTrue (is_sheet sheet.now further.now.more.now) }
    ensures entries { IfOk result
        (λ t. t.entries.items ≡ symtab_bytes sheet.now further.now.more.now) }
    ensures names { IfOk result (λ t. t.names.items ≡ strtab_bytes sheet.now further.now.more.now) }
{
    let exports = sheet.exports.as_slice();
    let mut table = SymbolTable::new(alloc)?;
    table.push_locals(exports, further)?;
    table.push_exports(exports)?;
    table.push_needs(sheet.needs.as_slice())?;
    Ok(table)
}

/// The numbers of a symbol.
#[derive(Clone, Copy)]
struct Symbol {
    info: u8,
    section: u16,
    value: u64,
    size: u64,
}

/// Returns a local symbol.
fn local(section: u16, value: u64) -> Symbol
    ensures { result ≡ record { info = 0; section = section; value = value; size = 0 } }
{
    Symbol {
        info: LOCAL,
        section,
        value,
        size: 0,
    }
}

/// Returns the info of an undefined symbol.
fn need_info(weak: bool) -> u8
    ensures { result ≡ need_info weak }
{
    if weak { WEAK } else { GLOBAL }
}
