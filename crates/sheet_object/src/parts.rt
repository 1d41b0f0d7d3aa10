// The sections of a sheet.
ghost use Rattle.std.specs.Prelude.{◌≡◌, ◌≤◌, ◌++◌, length, All, IsTrue, OnOk, IfOk};
ghost use Rattle.sheet_object.specs.Sheet.{is_sheet};
ghost use Rattle.sheet_object.specs.Object.{loaded_parts, linked_parts, parts_of};

use crate::content::{modinfo, versions};
use crate::further::{Further, further_parts};
use crate::relocations::{WORD_SIZE, local_count, relocations};
use crate::section::{DATA, STRTAB, SYMTAB};
use crate::sheet::{Sheet, SheetMore};
use crate::symbols::{CODE_SIZE, symbol_table};
use elf_format::{
    SHF_ALLOC, SHF_EXECINSTR, SHF_INFO_LINK, SHF_WRITE, SHT_PROGBITS, SHT_RELA, SHT_STRTAB,
    SHT_SYMTAB,
};
use elf_write::{Attributes, Part, push_further, push_part, zeros};
use std::alloc::{AllocError, Global};

/// Returns the sections of a sheet with its additions.
#[tactic(auto, unfolding(crate::specs::Object::parts_of))]
pub(crate) fn parts_of(
    alloc: Global,
    sheet: &Sheet,
    more: &SheetMore,
) -> Result<Vec<Part>, AllocError>
    requires { IsTrue (is_sheet sheet.now more.now) }
    ensures { IfOk result (λ parts. parts.items ≡ parts_of sheet.now more.now) }
{
    let mut parts = Vec::new(alloc);
    push_loaded(alloc, &mut parts, sheet)?;
    push_linked_of(alloc, &mut parts, sheet, more)?;
    push_further(alloc, &mut parts, further_parts(alloc, more)?)?;
    Ok(parts)
}

/// Puts the loaded sections at the end.
fn push_loaded(alloc: Global, parts: &mut Vec<Part>, sheet: &Sheet) -> Result<(), AllocError>
    requires exports { length sheet.now.exports ≤ 65535 }
    requires places { length sheet.now.places ≤ 65535 }
    requires versions { All (λ v. length v.name ≤ 55) sheet.now.versions }
    ensures { OnOk result (parts.new.items ≡ parts.old.items ++ loaded_parts sheet.now) }
{
    let text = zeros(alloc, CODE_SIZE * sheet.exports.len())?;
    let code = Attributes::plain(SHT_PROGBITS, SHF_ALLOC | SHF_EXECINSTR, 16);
    push_part(alloc, parts, b".text", code, text)?;
    let data = zeros(alloc, WORD_SIZE * sheet.places.len())?;
    let words = Attributes::plain(SHT_PROGBITS, SHF_WRITE | SHF_ALLOC, 8);
    push_part(alloc, parts, b".data", words, data)?;
    let texts = modinfo(alloc, sheet.texts.as_slice())?;
    let read = Attributes::plain(SHT_PROGBITS, SHF_ALLOC, 1);
    push_part(alloc, parts, b".modinfo", read, texts)?;
    let versions = versions(alloc, sheet.versions.as_slice())?;
    let entries = Attributes::plain(SHT_PROGBITS, SHF_ALLOC, 32);
    push_part(alloc, parts, b"__versions", entries, versions)?;
    Ok(())
}

/// Puts the sections for linking a sheet with its additions at the end.
fn push_linked_of(
    alloc: Global,
    parts: &mut Vec<Part>,
    sheet: &Sheet,
    more: &SheetMore,
) -> Result<(), AllocError>
    requires { IsTrue (is_sheet sheet.now more.now) }
    ensures { OnOk result (parts.new.items ≡ parts.old.items ++ linked_parts sheet.now more.now) }
{
    let further = Further::new(alloc, more)?;
    push_linked(alloc, parts, sheet, &further)
}

/// Puts the sections for linking at the end.
fn push_linked(
    alloc: Global,
    parts: &mut Vec<Part>,
    sheet: &Sheet,
    further: &Further,
) -> Result<(), AllocError>
    requires { IsTrue (is_sheet sheet.now further.now.more.now) }
    ensures { OnOk result
        (parts.new.items ≡ parts.old.items ++ linked_parts sheet.now further.now.more.now) }
{
    let words = relocations(alloc, sheet, further)?;
    let relocated = Attributes::table(SHT_RELA, SHF_INFO_LINK, SYMTAB, DATA);
    push_part(alloc, parts, b".rela.data", relocated, words)?;
    let table = symbol_table(alloc, sheet, further)?;
    let locals = local_count(sheet.exports.as_slice(), further);
    let symbols = Attributes::table(SHT_SYMTAB, 0, STRTAB, locals);
    push_part(alloc, parts, b".symtab", symbols, table.entries)?;
    let names = Attributes::plain(SHT_STRTAB, 0, 1);
    push_part(alloc, parts, b".strtab", names, table.names)?;
    Ok(())
}
