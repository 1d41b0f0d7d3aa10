// The places of an object file, and the tests of its sections' alignments.

ghost use Rattle.std.specs.Prelude.{◌≡◌, ◌<◌, ◌≤◌, ◌⊎◌, ◌++◌, [], length, List, None, Some, IfOk};
ghost use Rattle.std.specs.Prelude.{IfErr, OnOk};
ghost use Rattle.std.specs.Result.{result_err};
ghost use Rattle.km_names.specs.Limit.{file_limit};
ghost use Rattle.km_names.specs.First.{first};
ghost use Rattle.elf_sections.specs.Shape.{each, section_count};
ghost use Rattle.elf_object.specs.declared.place.RelaPlace.{RelaPlace};
ghost use Rattle.elf_sections.specs.Sections.{IsRead, sections_of};
ghost use Rattle.elf_object.specs.Symbols.{symbols_of};
ghost use Rattle.elf_object.specs.Places.{align_test, is_alignment, is_applied, overlap_test};
ghost use Rattle.elf_object.specs.Places.{place_tests, places_of, rela_test, section_places};
ghost use Rattle.elf_object.specs.Inner.{TablesFit, unkept_flags};
ghost use Rattle.elf_object.specs.Overlap.{IsOrderOf};

use crate::met::{ListedPlaces, MetPlaces};
use crate::overlap::Order;
use crate::place::{check_place, place_at, room_in};
use crate::shared::check_shared;
use crate::{ObjectFault, RelaPlace};
use elf_format::{PAGE, RELA_SIZE, SHT_RELA};
use elf_sections::{SectionTable, bytes_left};
use km_names::{FILE_LIMIT, List};
use std::alloc::{AllocError, Global};

/// The greatest total size of the tables of relocations of which a list is made, in bytes: four
/// times as many as a file may have. Only tables that share their bytes have more.
const TABLE_LIMIT: usize = 4 * FILE_LIMIT;

/// The greatest total size of the tables of relocations that are only tested, in bytes: 2^33. No
/// file under a megabyte has as many, however its tables share their bytes.
const TESTED_TABLE_LIMIT: usize = 8_589_934_592;

/// Reads the places of a file, by what is known of its symbols, and tests the sections that they
/// change.
pub(crate) fn read_places(
    alloc: Global,
    sections: &SectionTable,
    unkept: &[bool],
) -> Result<List<RelaPlace>, ObjectFault>
    requires small { length sections.now.file ≤ file_limit }
    requires read { IsRead sections.now.file sections.now.list }
    requires fit { TablesFit sections.now.file }
    requires unkept { unkept.now
        ≡ unkept_flags (sections_of sections.now.file) (symbols_of sections.now.file) }
    ensures places { IfOk result (λ l. l ≡ places_of sections.now.file) }
    ensures passed { OnOk result (first (place_tests sections.now.file) ≡ None) }
    ensures fault { IfErr result
        (λ e. (e ≡ ObjectFault.Memory) ⊎ (first (place_tests sections.now.file) ≡ Some e)) }
{
    check_alignments(sections)?;
    let mut met = ListedPlaces::with_capacity(alloc, relocation_count(sections, TABLE_LIMIT)?)?;
    meet_places(sections, unkept, &mut met)?;
    check_overlaps(alloc, sections, &met.order)?;
    let ListedPlaces { list, .. } = met;
    Ok(List::from_vec(list))
}

/// Tests the places of a file, by what is known of its symbols, and the sections that they change.
/// Places in order take no memory.
pub(crate) fn check_places(
    alloc: Global,
    sections: &SectionTable,
    unkept: &[bool],
) -> Result<(), ObjectFault>
    requires small { length sections.now.file ≤ file_limit }
    requires read { IsRead sections.now.file sections.now.list }
    requires fit { TablesFit sections.now.file }
    requires unkept { unkept.now
        ≡ unkept_flags (sections_of sections.now.file) (symbols_of sections.now.file) }
    ensures passed { OnOk result (first (place_tests sections.now.file) ≡ None) }
    ensures fault { IfErr result
        (λ e. (e ≡ ObjectFault.Memory) ⊎ (first (place_tests sections.now.file) ≡ Some e)) }
{
    check_alignments(sections)?;
    // Tables may share their bytes, so they are added up before they are read.
    relocation_count(sections, TESTED_TABLE_LIMIT)?;
    let mut order = Order::new();
    meet_places(sections, unkept, &mut order)?;
    check_overlaps(alloc, sections, &order)
}

/// Tests the alignments of the sections that are kept.
#[tactic(auto, unfolding(crate::specs::Places::align_test))]
fn check_alignments(sections: &SectionTable) -> Result<(), ObjectFault>
    ensures { result_err result
        ≡ first (each (section_count sections.now.file) (align_test sections.now.file)) }
{
    for index in 0..sections.section_count() {
        let section = sections.section(index);
        if section.kept && !is_alignment(section.align) {
            return Err(ObjectFault::BadAlign { index });
        }
    }
    Ok(())
}

/// Returns how many relocations of kept sections the tables have together.
///
/// # Errors
///
/// The tables together have more than `limit` bytes.
fn relocation_count(sections: &SectionTable, limit: usize) -> Result<usize, AllocError>
    requires { TablesFit sections.now.file }
{
    let mut left = limit;
    for index in 0..sections.section_count() {
        if is_applied(sections, index) {
            left = bytes_left(left, sections.section_bytes(index).len())?;
        }
    }
    Ok((limit - left) / RELA_SIZE)
}

/// Meets all places of a file. None was met before.
fn meet_places<M: MetPlaces>(
    sections: &SectionTable,
    unkept: &[bool],
    met: &mut M,
) -> Result<(), ObjectFault>
    requires small { length sections.now.file ≤ file_limit }
    requires read { IsRead sections.now.file sections.now.list }
    requires fit { TablesFit sections.now.file }
    requires unkept { unkept.now
        ≡ unkept_flags (sections_of sections.now.file) (symbols_of sections.now.file) }
    requires none { M.has_met met.old [] }
    ensures met { OnOk result (M.has_met met.new (places_of sections.now.file)) }
    ensures passed { OnOk result
        (first (each (section_count sections.now.file) (rela_test sections.now.file)) ≡ None) }
    ensures fault { IfErr result
        (λ e. (e ≡ ObjectFault.Memory)
        ⊎ (first (each (section_count sections.now.file) (rela_test sections.now.file)) ≡ Some e)) }
{
    for index in 0..sections.section_count() {
        meet_section_places(sections, unkept, index, met)?;
    }
    Ok(())
}

/// Tests that no byte is changed by two places. Places in order, as tools write them, take no more
/// time or memory.
fn check_overlaps(alloc: Global, sections: &SectionTable, order: &Order) -> Result<(), ObjectFault>
    requires small { length sections.now.file ≤ file_limit }
    requires fit { TablesFit sections.now.file }
    requires read { IsRead sections.now.file sections.now.list }
    requires order { IsOrderOf order.now (places_of sections.now.file) }
    requires passed { first (each (section_count sections.now.file) (rela_test sections.now.file))
        ≡ None }
    ensures passed { OnOk result
        (first (each (section_count sections.now.file) (overlap_test sections.now.file)) ≡ None) }
    ensures fault { IfErr result
        (λ e. (e ≡ ObjectFault.Memory)
        ⊎ (first (each (section_count sections.now.file) (overlap_test sections.now.file))
        ≡ Some e)) }
{
    if order.holds {
        return Ok(());
    }
    check_shared(alloc, sections)
}

/// Returns whether an alignment is a power of two of at most a page, or 0.
#[tactic(auto, unfolding(crate::specs::Places::is_alignment))]
fn is_alignment(align: u64) -> bool
    ensures { result ≡ is_alignment align }
{
    align <= PAGE && (align == 0 || align.is_power_of_two())
}

/// Returns whether the section `index` holds relocations of a section that is kept.
#[tactic(auto, unfolding(crate::specs::Places::is_applied))]
pub(crate) fn is_applied(sections: &SectionTable, index: u32) -> bool
    requires fit { TablesFit sections.now.file }
    requires index { index < length sections.now.list }
    ensures { result ≡ is_applied sections.now.file index }
{
    let section = sections.section(index);
    section.kind == SHT_RELA && sections.section(section.info).kept
}

/// Meets the places of the section `index`, if it holds relocations of a section that is kept.
/// Almost all time of a read goes to its loop, so it stays a function of its own.
#[inline(never)]
fn meet_section_places<M: MetPlaces>(
    sections: &SectionTable,
    unkept: &[bool],
    index: u32,
    met: &mut M,
) -> Result<(), ObjectFault>
    requires small { length sections.now.file ≤ file_limit }
    requires read { IsRead sections.now.file sections.now.list }
    requires fit { TablesFit sections.now.file }
    requires index { index < length sections.now.list }
    requires unkept { unkept.now
        ≡ unkept_flags (sections_of sections.now.file) (symbols_of sections.now.file) }
    ensures met { OnOk result ((before : List RelaPlace) → M.has_met met.old before
        → M.has_met met.new (before ++ section_places sections.now.file index)) }
    ensures passed { OnOk result (rela_test sections.now.file index ≡ None) }
    ensures fault { IfErr result (λ e. (e ≡ ObjectFault.Memory)
        ⊎ (rela_test sections.now.file index ≡ Some e)) }
{
    if !is_applied(sections, index) {
        return Ok(());
    }
    let number = sections.section(index).info;
    let room = room_in(sections.section(number));
    let table = sections.section_bytes(index);
    for entry in 0..(table.len() / RELA_SIZE) as u32 {
        let place = place_at(table, index, number, entry);
        let width = check_place(unkept, room, &place)?;
        met.meet(place, width)?;
    }
    Ok(())
}
