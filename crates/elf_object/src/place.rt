// One place that a relocation changes.

ghost use Rattle.std.specs.Prelude.{◌≡◌, ◌+◌, ◌*◌, ◌<◌, ◌≤◌, false, get_or, length, map, IfOk};
ghost use Rattle.std.specs.Prelude.{Some};
ghost use Rattle.std.specs.Result.{result_err};
ghost use Rattle.km_names.specs.Number.{signed};
ghost use Rattle.elf_format.specs.Relocation.{width};
ghost use Rattle.elf_object.specs.Inner.{unkept_flags};
ghost use Rattle.elf_object.specs.Places.{is_bad_place, lies_unkept, place_in, place_test};
ghost use Rattle.elf_object.specs.Places.{place_width, room_in};
ghost use Rattle.elf_sections.specs.Sections.{owned_section};
ghost use Rattle.elf_object.specs.Symbols.{owned_symbol};

use crate::widths::{UNKNOWN, width_or_unknown};
use crate::{ObjectFault, SymbolRef};
use elf_format::{R_X86_64_NONE, RELA_SIZE, SHN_UNDEF, SHT_NOBITS};
use elf_sections::SectionRef;
use km_names::le_u64_at;
use std::alloc::{AllocError, Global};

/// A place that a relocation changes. gABI 4, "Relocation", Elf64_Rela.
#[derive(Clone, Copy, Debug, PartialEq, Eq)]
pub struct RelaPlace {
    /// The section that holds the relocation, and its entry there.
    pub section: u32,
    pub entry: u32,
    /// The section that is changed.
    pub target: u32,
    /// The offset in that section.
    pub offset: u64,
    /// The number of the symbol.
    pub symbol: u32,
    /// The type of the relocation. x86-64 psABI, "Relocation Types".
    pub kind: u32,
    /// The number that is added to the symbol's address, r_addend.
    pub addend: i64,
}

/// Returns the relocation `entry` of a section of these bytes.
#[tactic(auto, unfolding(crate::specs::Places::place_in))]
pub(crate) fn place_at(table: &[u8], section: u32, target: u32, entry: u32) -> RelaPlace
    requires { 24 * entry + 24 ≤ length table.now }
    ensures { result ≡ place_in table.now section target entry }
{
    let at = RELA_SIZE * entry as usize;
    let info = le_u64_at(table, at + 8);
    RelaPlace {
        section,
        entry,
        target,
        offset: le_u64_at(table, at),
        symbol: (info / (1 << 32)) as u32,
        kind: (info % (1 << 32)) as u32,
        addend: signed(le_u64_at(table, at + 16)),
    }
}

/// Returns for each symbol whether it lies in a section that isn't kept. There are far more
/// relocations than symbols, so this is computed once for each symbol.
pub(crate) fn unkept_symbols(
    alloc: Global,
    sections: &[SectionRef],
    symbols: &[SymbolRef],
) -> Result<Vec<bool>, AllocError>
    ensures { IfOk result
        (λ flags. flags.items
        ≡ unkept_flags (map owned_section sections.now) (map owned_symbol symbols.now)) }
{
    let mut flags = Vec::with_capacity(alloc, symbols.len())?;
    for symbol in symbols {
        flags.push(is_unkept(sections, symbol))?;
    }
    Ok(flags)
}

/// Returns how many bytes of a section a relocation may change: none of one without bytes in the
/// file.
pub(crate) fn room_in(section: SectionRef) -> u64
    ensures { result ≡ room_in (owned_section section.entry) }
{
    if section.kind == SHT_NOBITS {
        0
    } else {
        section.size
    }
}

/// Tests a place in a section with `room` bytes, by what is known of the symbols, and returns how
/// many bytes it changes.
#[tactic(auto, unfolding(crate::specs::Places::place_test))]
pub(crate) fn check_place(unkept: &[bool], room: u64, place: &RelaPlace) -> Result<u8, ObjectFault>
    ensures fault { result_err result
        ≡ place_test (length unkept.now) (get_or unkept.now place.now.symbol false) room place.now }
    ensures width { IfOk result (λ size. place_width place.now ≡ size) }
{
    let (section, entry) = (place.section, place.entry);
    if unkept.len() <= place.symbol as usize {
        return Err(ObjectFault::BadRela { section, entry });
    }
    let size = width_or_unknown(place.kind);
    if size == UNKNOWN {
        return Err(ObjectFault::UnknownType {
            section,
            entry,
            kind: place.kind,
        });
    }
    let unkept = unkept[place.symbol as usize];
    if place.kind != R_X86_64_NONE && is_bad_place(unkept, room, place, size) {
        return Err(ObjectFault::BadRela { section, entry });
    }
    Ok(size)
}

/// Returns how many bytes a place changes.
#[inline(always)]
pub(crate) fn place_width(place: &RelaPlace) -> u8
    ensures { result ≡ place_width place.now }
{
    let width = width_or_unknown(place.kind);
    if width == UNKNOWN { 0 } else { width }
}

/// Returns a number of 64 bits as two's complement. gABI 4, "Data Representation", Elf64_Sxword.
fn signed(bits: u64) -> i64
    ensures { result ≡ signed bits }
{
    bits.cast_signed()
}

/// Returns whether a symbol lies in a section that isn't kept.
fn is_unkept(sections: &[SectionRef], symbol: &SymbolRef) -> bool
    ensures { result ≡ lies_unkept (map owned_section sections.now) (owned_symbol symbol.now) }
{
    match sections.get(usize::from(symbol.section)) {
        Some(found) => symbol.section != SHN_UNDEF && !found.kept,
        None => false,
    }
}

/// Returns whether a place that changes `size` bytes is invalid in a section with `room` bytes.
/// `unkept` is whether its symbol lies in a section that isn't kept.
#[tactic(auto, unfolding(crate::specs::Places::is_bad_place))]
fn is_bad_place(unkept: bool, room: u64, place: &RelaPlace, size: u8) -> bool
    requires { width place.now.kind ≡ Some size }
    ensures { result ≡ is_bad_place unkept room place.now }
{
    let size = u64::from(size);
    room < size || room - size < place.offset || unkept
}
