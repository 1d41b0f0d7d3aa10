// The sheets of a trial's modules.
ghost use Rattle.std.specs.Prelude.{◌≡◌, [], ◌∷◌, map, IfOk};
ghost use Rattle.tree_gen.specs.Trial.{digit, four_digits, symbol_name, exported, printk};
ghost use Rattle.tree_gen.specs.Trial.{needed as needed_spec, stated, strong, address};
ghost use Rattle.tree_gen.specs.Trial.{texts as texts_spec, module_sheet};

use elf_format::R_X86_64_64;
use km_names::{Blob, Name, Texts};
use sheet_object::{
    Sheet, SheetExport, SheetExports, SheetNeed, SheetNeeds, SheetPlace, SheetPlaces, SheetVersion,
    SheetVersions,
};
use std::alloc::{AllocError, Global};

/// The version of the kernel's `printk`.
const PRINTK_VERSION: u64 = 0x1111_1111;

/// The version of the symbol of module 0.
const FIRST_VERSION: u64 = 0x2000_0000;

/// Returns the last four decimal digits of a number.
pub(crate) fn four_digits(number: u32) -> [u8; 4]
    ensures { result ≡ four_digits number }
{
    [
        digit(number / 1000),
        digit(number / 100),
        digit(number / 10),
        digit(number),
    ]
}

/// Returns the sheet of the module of this number, which draws these modules.
#[tactic(auto, unfolding(crate::specs::Trial::module_sheet))]
pub(crate) fn module_sheet(alloc: Global, number: u32, modules: &[u32]) -> Result<Sheet, AllocError>
    ensures { IfOk result (λ sheet. sheet ≡ module_sheet number modules.now) }
{
    let versions = needed(alloc, modules)?;
    let needs = needs(alloc, versions.as_slice())?;
    let places = places(alloc, versions.as_slice())?;
    Ok(Sheet {
        texts: texts(alloc, number)?,
        versions,
        exports: exports(alloc, number)?,
        needs,
        places,
    })
}

/// Returns the last decimal digit of a number.
fn digit(number: u32) -> u8
    ensures { result ≡ digit number }
{
    b'0' + (number % 10) as u8
}

/// Returns the symbols that a module needs, with their versions. The module draws these modules.
fn needed(alloc: Global, modules: &[u32]) -> Result<SheetVersions, AllocError>
    ensures { IfOk result (λ versions. versions ≡ needed_spec modules.now) }
{
    let mut versions = SheetVersions::new(alloc);
    versions.push(printk(alloc)?)?;
    for drawn in modules {
        versions.push(exported(alloc, *drawn)?)?;
    }
    Ok(versions)
}

/// Returns needs of these symbols, none of them weak.
fn needs(alloc: Global, needed: &[SheetVersion]) -> Result<SheetNeeds, AllocError>
    ensures { IfOk result (λ needs. needs ≡ map strong needed.now) }
{
    let mut needs = SheetNeeds::new(alloc);
    for version in needed {
        let name = Name::from_slice(alloc, version.name.as_bytes())?;
        needs.push(SheetNeed { name, weak: false })?;
    }
    Ok(needs)
}

/// Returns a word for the address of each of these symbols.
fn places(alloc: Global, needed: &[SheetVersion]) -> Result<SheetPlaces, AllocError>
    ensures { IfOk result (λ places. places ≡ map address needed.now) }
{
    let mut places = SheetPlaces::new(alloc);
    for version in needed {
        let symbol = Name::from_slice(alloc, version.name.as_bytes())?;
        places.push(SheetPlace {
            kind: R_X86_64_64,
            symbol,
            addend: 0,
        })?;
    }
    Ok(places)
}

/// Returns the texts of the module of this number.
fn texts(alloc: Global, number: u32) -> Result<Texts, AllocError>
    ensures { IfOk result (λ texts. texts ≡ texts_spec number) }
{
    let license = Blob::from_slice(alloc, b"license=GPL")?;
    let mut alias = Blob::from_slice(alloc, b"alias=trial:m")?;
    alias.extend(&four_digits(number))?;
    let mut texts = Texts::new(alloc);
    texts.push(license)?;
    texts.push(alias)?;
    Ok(texts)
}

/// Returns the only export of the module of this number, its symbol.
fn exports(alloc: Global, number: u32) -> Result<SheetExports, AllocError>
    ensures { IfOk result (λ exports. exports ≡ stated (exported number) ∷ []) }
{
    let SheetVersion { name, crc } = exported(alloc, number)?;
    let mut exports = SheetExports::new(alloc);
    exports.push(SheetExport {
        name,
        crc: Some(crc),
    })?;
    Ok(exports)
}

/// Returns the symbol of the kernel that each module needs, with its version.
fn printk(alloc: Global) -> Result<SheetVersion, AllocError>
    ensures { IfOk result (λ version. version ≡ printk) }
{
    let name = Name::from_slice(alloc, b"printk")?;
    Ok(SheetVersion {
        name,
        crc: PRINTK_VERSION,
    })
}

/// Returns the symbol that the module of this number exports, with its version.
fn exported(alloc: Global, number: u32) -> Result<SheetVersion, AllocError>
    ensures { IfOk result (λ version. version ≡ exported number) }
{
    let name = symbol_name(alloc, number)?;
    let crc = FIRST_VERSION + u64::from(number);
    Ok(SheetVersion { name, crc })
}

/// Returns the name of the symbol that the module of this number exports.
#[tactic(auto, unfolding(crate::specs::Trial::symbol_name))]
fn symbol_name(alloc: Global, number: u32) -> Result<Name, AllocError>
    ensures { IfOk result (λ name. name ≡ symbol_name number) }
{
    let mut name = Name::from_slice(alloc, b"s")?;
    name.extend(&four_digits(number))?;
    Ok(name)
}
