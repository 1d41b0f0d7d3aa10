// The addresses of the symbols of an image.

ghost use Rattle.std.specs.Prelude.{◌≡◌, ◌<◌, true, length, IfOk};
ghost use Rattle.image_layout.specs.Offsets.{offsets};
ghost use Rattle.image_layout.specs.Symbols.{addresses as addresses_spec, is_placed};
ghost use Rattle.image_layout.specs.Symbols.{symbol_address};

use crate::Layout;
use elf_format::SHN_UNDEF;
use elf_object::{Object, Symbol};
use std::alloc::{AllocError, Global};

/// Returns the addresses of all symbols of an object, in an image at a base. `given` has for each
/// symbol its address if it is defined elsewhere. gABI 4, "Symbol Table".
pub fn addresses(
    alloc: Global,
    object: &Object,
    layout: &Layout,
    base: u64,
    given: &[u64],
) -> Result<Vec<u64>, AllocError>
    requires layout { layout.now ≡ offsets object.now.sections }
    requires given { length given.now ≡ length object.now.symbols }
    ensures { IfOk result (λ v. v.items ≡ addresses_spec object.now base given.now) }
{
    let count = object.symbol_count();
    let mut addresses = Vec::with_capacity(alloc, count as usize)?;
    for i in 0..count {
        addresses.push(symbol_address(object, layout, base, given[i as usize], object.symbol(i)))?;
    }
    Ok(addresses)
}

/// Returns the address of a symbol in an image at a base. `given` is its address if it is defined
/// elsewhere.
#[tactic(auto, unfolding(crate::specs::Symbols::symbol_address), using(crate::proofs::SymbolLemmas::offset_at, crate::proofs::SymbolLemmas::length_layout, crate::proofs::SymbolLemmas::wrapped_twice))]
fn symbol_address(object: &Object, layout: &Layout, base: u64, given: u64, symbol: &Symbol) -> u64
    requires { layout.now ≡ offsets object.now.sections }
    ensures { result ≡ symbol_address object.now.sections base given symbol.now }
{
    if symbol.section == SHN_UNDEF {
        return given;
    }
    if !is_placed(object, symbol.section) {
        return symbol.value;
    }
    let at = layout.offset(u32::from(symbol.section));
    base.wrapping_add(at).wrapping_add(symbol.value)
}

/// Returns whether there is a section of this number, and it is in memory.
fn is_placed(object: &Object, number: u16) -> bool
    ensures placed { result ≡ is_placed object.now.sections number }
    ensures within { result ≡ true → number < length object.now.sections }
{
    let number = u32::from(number);
    number < object.section_count() && object.section(number).kept
}
