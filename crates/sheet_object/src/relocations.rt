// The relocations of the words of `.data`.
ghost use Rattle.std.specs.Prelude.{◌≡◌, ◌≤◌, ◌<◌, ◌+◌, ◌*◌, ◌^◌, ◌++◌, ℕ, length, Some, unwrap_or};
ghost use Rattle.std.specs.Prelude.{IsTrue, OnOk, IfOk};
ghost use Rattle.std.specs.List.{flat_map};
ghost use Rattle.std.specs.Int.{w64, cast_unsigned};
ghost use Rattle.name_table.specs.NameTable.{place_of};
ghost use Rattle.sheet_object.specs.Sheet.{is_sheet};
ghost use Rattle.elf_write.specs.Number.{word, xword};
ghost use Rattle.sheet_object.specs.Symbols.{local_symbols};
ghost use Rattle.sheet_object.specs.Contents.{rela_bytes};

use crate::further::Further;
use crate::names::{symbol_names, table_of};
use crate::sheet::{Sheet, SheetExport, SheetPlace};
use elf_write::{push_word, push_xword};
use name_table::NameTable;
use std::alloc::{AllocError, Global};

/// The size of a word of `.data` in bytes.
pub(crate) const WORD_SIZE: usize = 8;

/// Returns the number of local symbols, with the first symbol.
pub(crate) fn local_count(exports: &[SheetExport], further: &Further) -> u32
    requires { length exports.now ≤ 65535 }
    ensures count { result
        ≡ 1 + length (flat_map (local_symbols further.now.more.now) exports.now) }
    ensures bound { result ≤ 1 + 3 * length exports.now }
{
    let mut count = 1;
    for export in exports {
        count += locals_of(export, further);
    }
    count
}

/// Returns the relocations of a sheet.
pub(crate) fn relocations(
    alloc: Global,
    sheet: &Sheet,
    further: &Further,
) -> Result<Vec<u8>, AllocError>
    requires { IsTrue (is_sheet sheet.now further.now.more.now) }
    ensures { IfOk result (λ v. v.items ≡ rela_bytes sheet.now further.now.more.now) }
{
    let locals = local_count(sheet.exports.as_slice(), further);
    let names = symbol_names(alloc, sheet)?;
    let table = table_of(alloc, &names)?;
    let mut content = Vec::new(alloc);
    for (k, place) in sheet.places.as_slice().iter().enumerate() {
        let symbol = symbol_number(locals, &table, place.symbol.as_bytes());
        let offset = (WORD_SIZE * k) as u64;
        push_relocation(&mut content, offset, symbol, place)?;
    }
    Ok(content)
}

/// Returns the number of local symbols of an export.
#[tactic(auto, unfolding(crate::specs::Symbols::local_symbols))]
fn locals_of(export: &SheetExport, further: &Further) -> u32
    ensures count { result ≡ length (local_symbols further.now.more.now export.now) }
    ensures few { result ≤ 3 }
{
    let version = if export.crc.is_some() { 1 } else { 0 };
    let place = further.space_place(export.name.as_bytes());
    let space = if place.is_some() { 1 } else { 0 };
    1 + version + space
}

/// Returns the number of a symbol by its name. The sheet has the symbol of each relocation.
fn symbol_number(locals: u32, names: &NameTable, name: &[u8]) -> u32
    requires { (k : ℕ) → place_of names.now name.now ≡ Some k → locals + k < 2 ^ 32 }
    ensures { result ≡ locals + unwrap_or (place_of names.now name.now) 0 }
{
    match names.place(name) {
        Some(k) => locals + k,
        None => locals,
    }
}

/// Puts the relocation of the word at this offset at the end, by the symbol of this number.
fn push_relocation(
    out: &mut Vec<u8>,
    offset: u64,
    symbol: u32,
    place: &SheetPlace,
) -> Result<(), AllocError>
    ensures { OnOk result
        (out.new.items
        ≡ out.old.items
        ++ (xword offset ++ word place.now.kind ++ word symbol
        ++ xword (cast_unsigned w64 place.now.addend))) }
{
    push_xword(out, offset)?;
    push_word(out, place.kind)?;
    push_word(out, symbol)?;
    push_xword(out, place.addend.cast_unsigned())
}
