// The needs of a module.

ghost use Rattle.std.specs.Prelude.{◌≡◌, IfOk};
ghost use Rattle.elf_object.specs.Symbols.{owned_symbol};
ghost use Rattle.module_symbols.specs.Needs.{is_need, need_of, needs_of};
ghost use Rattle.module_symbols.specs.Versions.{version_list};

use crate::version_list::VersionList;
use elf_format::{SHN_UNDEF, STB_WEAK};
use elf_object::{ObjectView, SymbolRef};
use elf_sections::{NAME_LIMIT, bytes_left};
use km_names::{List, Name};
use std::alloc::{AllocError, Global};

/// A symbol that a module needs from the kernel or from another module. gABI 4, "Symbol Table".
#[derive(Debug, Drop)]
pub struct Need {
    /// Its name.
    pub name: Name,
    /// The number of its symbol.
    pub symbol: u32,
    /// Whether the module also runs without it.
    pub weak: bool,
    /// The version that the module was built against, if it states one.
    pub crc: Option<u64>,
}

/// The needs of a module, in the order of their symbols.
pub type Needs = List<Need>;

/// Returns the needs, in the order of their symbols. Names may share their bytes in the file, so a
/// small file can ask for any number of them. If together they would have more than `NAME_LIMIT`
/// bytes, the answer is out of memory.
pub fn read_needs(alloc: Global, object: &ObjectView) -> Result<Needs, AllocError>
    ensures { IfOk result (λ needs. needs ≡ needs_of object.now) }
{
    needs_by(alloc, object, &VersionList::read(alloc, object)?)
}

/// Returns the needs by the version list of the object.
#[tactic(auto, unfolding(crate::specs::Needs::needs_of))]
fn needs_by(alloc: Global, object: &ObjectView, versions: &VersionList) -> Result<Needs, AllocError>
    requires { versions.now ≡ version_list object.now }
    ensures { IfOk result (λ needs. needs ≡ needs_of object.now) }
{
    // Most needs have a version, so the list seldom grows.
    let expected = versions.len().min(object.symbol_count() as usize);
    let mut needs = Needs::from_vec(Vec::with_capacity(alloc, expected)?);
    let mut left = NAME_LIMIT;
    for i in 0..object.symbol_count() {
        let symbol = object.symbol(i);
        if is_need(i, symbol) {
            left = bytes_left(left, symbol.name.len())?;
            needs.push(read_need(alloc, versions, i, symbol)?)?;
        }
    }
    Ok(needs)
}

/// Returns whether the symbol `i` is needed from elsewhere.
#[tactic(auto, unfolding(crate::specs::Needs::is_need))]
fn is_need(i: u32, symbol: SymbolRef) -> bool
    ensures { result ≡ is_need i (owned_symbol symbol.entry) }
{
    i > 0 && symbol.section == SHN_UNDEF && symbol.name != b"_GLOBAL_OFFSET_TABLE_".as_slice()
}

/// Returns the need that the symbol `i` states, by a version list.
#[tactic(auto, unfolding(crate::specs::Needs::need_of))]
fn read_need(
    alloc: Global,
    versions: &VersionList,
    i: u32,
    symbol: SymbolRef,
) -> Result<Need, AllocError>
    ensures { IfOk result (λ need. need ≡ need_of versions.now i (owned_symbol symbol.entry)) }
{
    Ok(Need {
        name: Name::from_slice(alloc, symbol.name)?,
        symbol: i,
        weak: symbol.binding == STB_WEAK,
        crc: versions.version_of(symbol.name),
    })
}
