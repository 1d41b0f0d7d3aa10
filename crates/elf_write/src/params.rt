// Objects of parameters.
ghost use Rattle.std.specs.Prelude.{◌≡◌, ◌<◌, ◌+◌, ◌*◌, ◌^◌, [], ◌++◌, length, OnOk, IfOk};
ghost use Rattle.std.specs.List.{flat_map};
ghost use Rattle.elf_write.specs.Params.{addresses_of_params, data_address, names_of_params};
ghost use Rattle.elf_write.specs.Params.{param_object_of, loaded_param_parts, linked_param_parts};
ghost use Rattle.elf_write.specs.Params.{section_symbol, type_text};

use crate::bytes::{push_half, push_word, push_xword, push_zeros, zeros};
use crate::file::file_of;
use crate::part::{Attributes, Part};
use crate::parts::{push_further, push_part};
use elf_format::{
    R_X86_64_64, SHF_ALLOC, SHF_INFO_LINK, SHF_WRITE, SHT_PROGBITS, SHT_RELA, SHT_STRTAB,
    SHT_SYMTAB,
};
use km_names::{Blob, List, Name};
use std::alloc::{AllocError, Global};

/// The size of the value of a parameter in `.data` in bytes.
const WORD_SIZE: usize = 8;

/// The size of an entry of `__param` in bytes.
const ENTRY_SIZE: u64 = 40;

/// The place of the address of the value in an entry.
const VALUE_FIELD: u64 = 32;

/// The numbers of the section of symbols and of the section of their names, by the order of
/// sections in an object of parameters.
const PARAM_SYMTAB: u32 = 5;

const PARAM_STRTAB: u32 = 6;

/// The number of the section of entries.
const PARAM_TABLE: u32 = 2;

/// The number of the section of the names of sections.
const PARAM_NAMES: u16 = 7;

/// A parameter of a module.
#[derive(Drop)]
pub struct SheetParam {
    /// Its name.
    pub name: Name,
    /// The name of its type, as `int`.
    pub kind: Name,
}

/// A list of parameters.
pub type SheetParams = List<SheetParam>;

/// The names of parameters, and the relocations of their entries.
#[derive(Drop)]
pub(crate) struct Linked {
    pub(crate) names: Vec<u8>,
    pub(crate) addresses: Vec<u8>,
}

/// Writes the relocatable object of a module that has these parameters and nothing else. Its
/// `__param` is a table of entries, whose words are relocated to the names and the values in
/// `.data`. Its `.modinfo` has a text for the type of each parameter. The kernel's
/// include/linux/moduleparam.h. The only error is out of memory.
#[tactic(auto, unfolding(crate::specs::Params::param_object_of))]
pub fn param_object(alloc: Global, params: &SheetParams) -> Result<Blob, AllocError>
    ensures { IfOk result (λ bytes. bytes ≡ param_object_of params.now) }
{
    let params = params.as_slice();
    // No memory has so many parameters.
    if u32::MAX as usize <= params.len() {
        return Err(AllocError);
    }
    let linked = linked_params(alloc, params)?;
    let Linked { names, addresses } = linked;
    let mut parts = Vec::new(alloc);
    push_loaded(alloc, &mut parts, params, &names)?;
    push_linked(alloc, &mut parts, addresses)?;
    push_further(alloc, &mut parts, Vec::new(alloc))?;
    let bytes = file_of(alloc, PARAM_NAMES, &parts)?;
    Ok(Blob::from_vec(bytes))
}

/// Returns the names of parameters, each with its NUL, and the relocations of their entries.
fn linked_params(alloc: Global, params: &[SheetParam]) -> Result<Linked, AllocError>
    requires { 40 * length params.now < 2 ^ 64 }
    ensures names { IfOk result (λ l. l.names.items ≡ names_of_params params.now) }
    ensures addresses { IfOk result (λ l. l.addresses.items ≡ addresses_of_params params.now) }
{
    let values = (WORD_SIZE * params.len()) as u64;
    let mut names = Vec::new(alloc);
    let mut addresses = Vec::new(alloc);
    for (k, param) in params.iter().enumerate() {
        // No memory has names whose lengths add up past 64 bits.
        let Some(place) = values.checked_add(names.len() as u64) else {
            return Err(AllocError);
        };
        push_entry(&mut addresses, k as u64, place)?;
        names.extend_from_slice(param.name.as_bytes())?;
        names.push(0)?;
    }
    Ok(Linked { names, addresses })
}

/// Puts the sections that are loaded at the end: `.data`, `__param` and `.modinfo`.
fn push_loaded(
    alloc: Global,
    parts: &mut Vec<Part>,
    params: &[SheetParam],
    names: &[u8],
) -> Result<(), AllocError>
    requires few { 40 * length params.now < 2 ^ 64 }
    requires names { names.now ≡ names_of_params params.now }
    ensures { OnOk result (parts.new.items ≡ parts.old.items ++ loaded_param_parts params.now) }
{
    let mut data = zeros(alloc, WORD_SIZE * params.len())?;
    data.extend_from_slice(names)?;
    let words = Attributes::plain(SHT_PROGBITS, SHF_WRITE | SHF_ALLOC, 8);
    push_part(alloc, parts, b".data", words, data)?;
    let entries = zeros(alloc, ENTRY_SIZE as usize * params.len())?;
    let read = Attributes::plain(SHT_PROGBITS, SHF_ALLOC, 8);
    push_part(alloc, parts, b"__param", read, entries)?;
    let texts = type_texts(alloc, params)?;
    let text = Attributes::plain(SHT_PROGBITS, SHF_ALLOC, 1);
    push_part(alloc, parts, b".modinfo", text, texts)?;
    Ok(())
}

/// Puts the sections for linking at the end.
fn push_linked(alloc: Global, parts: &mut Vec<Part>, addresses: Vec<u8>) -> Result<(), AllocError>
    ensures { OnOk result
        (parts.new.items ≡ parts.old.items ++ linked_param_parts addresses.items) }
{
    let relocated = Attributes::table(SHT_RELA, SHF_INFO_LINK, PARAM_SYMTAB, PARAM_TABLE);
    push_part(alloc, parts, b".rela__param", relocated, addresses)?;
    let table = section_symbol(alloc)?;
    let symbols = Attributes::table(SHT_SYMTAB, 0, PARAM_STRTAB, 2);
    push_part(alloc, parts, b".symtab", symbols, table)?;
    let empty = zeros(alloc, 1)?;
    let names = Attributes::plain(SHT_STRTAB, 0, 1);
    push_part(alloc, parts, b".strtab", names, empty)?;
    Ok(())
}

/// Puts the relocations of the entry `k` at the end. The name of the entry is at this place of
/// `.data`.
fn push_entry(out: &mut Vec<u8>, k: u64, name: u64) -> Result<(), AllocError>
    requires { 40 * k + 40 < 2 ^ 64 }
    ensures { OnOk result
        (out.new.items
        ≡ out.old.items ++ data_address (40 * k) name ++ data_address (40 * k + 32) (8 * k)) }
{
    let offset = ENTRY_SIZE * k;
    push_address(out, offset, name)?;
    push_address(out, offset + VALUE_FIELD, WORD_SIZE as u64 * k)
}

/// Returns the texts that state the type of each parameter.
fn type_texts(alloc: Global, params: &[SheetParam]) -> Result<Vec<u8>, AllocError>
    ensures { IfOk result (λ v. v.items ≡ flat_map type_text params.now) }
{
    let mut texts = Vec::new(alloc);
    for param in params {
        texts.extend_from_slice(b"parmtype=")?;
        texts.extend_from_slice(param.name.as_bytes())?;
        texts.extend_from_slice(b":")?;
        texts.extend_from_slice(param.kind.as_bytes())?;
        texts.push(0)?;
    }
    Ok(texts)
}

/// Returns the symbols: one of zeros, and the symbol of the section `.data`.
#[tactic(auto, unfolding(crate::specs::Params::section_symbol))]
fn section_symbol(alloc: Global) -> Result<Vec<u8>, AllocError>
    ensures { IfOk result (λ v. v.items ≡ section_symbol) }
{
    let mut symbols = Vec::new(alloc);
    push_zeros(&mut symbols, 24)?;
    push_word(&mut symbols, 0)?;
    symbols.extend_from_slice(&[3, 0])?;
    push_half(&mut symbols, 1)?;
    push_zeros(&mut symbols, 16)?;
    Ok(symbols)
}

/// Puts the relocation of a word of `__param` at the end. The word is the address of a place in
/// `.data`.
#[tactic(auto, unfolding(crate::specs::Params::data_address))]
fn push_address(out: &mut Vec<u8>, offset: u64, place: u64) -> Result<(), AllocError>
    ensures { OnOk result (out.new.items ≡ out.old.items ++ data_address offset place) }
{
    push_xword(out, offset)?;
    push_word(out, R_X86_64_64)?;
    push_word(out, 1)?;
    push_xword(out, place)
}
