// Finds a byte that two places change, section by section. Beside the file it takes two bytes for
// each of the greatest section that has places, and eight for each section.

ghost use Rattle.std.specs.Prelude.{◌≡◌, ◌+◌, ◌<◌, ◌≤◌, ◌⊎◌, ◌++◌, ℕ, true, length, List, None};
ghost use Rattle.std.specs.Prelude.{Some, IfErr, OnOk};
ghost use Rattle.km_names.specs.Limit.{file_limit};
ghost use Rattle.km_names.specs.First.{first};
ghost use Rattle.elf_sections.specs.Sections.{IsRead, section_of};
ghost use Rattle.elf_sections.specs.Shape.{each, section_count};
ghost use Rattle.elf_object.specs.declared.place.RelaPlace.{RelaPlace};
ghost use Rattle.elf_object.specs.Inner.{AreTargetTables, HasRoom, TablesFit};
ghost use Rattle.elf_object.specs.Overlap.{HasChanged, HasMarks, changes_at};
ghost use Rattle.elf_object.specs.Places.{is_applied, overlap_test, places_of, rela_test, room_in};
ghost use Rattle.elf_object.specs.Places.{section_places};

use crate::ObjectFault;
use crate::changed::ChangedBytes;
use crate::place::{place_at, place_width};
use crate::targets::{TargetTables, greatest_room};
use elf_format::RELA_SIZE;
use elf_sections::SectionTable;
use std::alloc::Global;

/// Tests that no byte is changed by two places.
pub(crate) fn check_shared(alloc: Global, sections: &SectionTable) -> Result<(), ObjectFault>
    requires small { length sections.now.file ≤ file_limit }
    requires read { IsRead sections.now.file sections.now.list }
    requires fit { TablesFit sections.now.file }
    requires passed { first (each (section_count sections.now.file) (rela_test sections.now.file))
        ≡ None }
    ensures passed { OnOk result
        (first (each (section_count sections.now.file) (overlap_test sections.now.file)) ≡ None) }
    ensures fault { IfErr result
        (λ e. (e ≡ ObjectFault.Memory)
        ⊎ (first (each (section_count sections.now.file) (overlap_test sections.now.file))
        ≡ Some e)) }
{
    let tables = TargetTables::new(alloc, sections)?;
    let mut changed = ChangedBytes::new(alloc, greatest_room(sections) as usize)?;
    for target in 0..sections.section_count() {
        change_target(sections, &tables, target, &mut changed);
        if changed.shared < changed.marks.len() {
            return Err(ObjectFault::OverlappingPlaces {
                section: target,
                offset: changed.shared as u64,
            });
        }
    }
    Ok(())
}

/// Meets all places of the section `target`.
fn change_target(
    sections: &SectionTable,
    tables: &TargetTables,
    target: u32,
    changed: &mut ChangedBytes,
)
    requires small { length sections.now.file ≤ file_limit }
    requires read { IsRead sections.now.file sections.now.list }
    requires fit { TablesFit sections.now.file }
    requires passed { first (each (section_count sections.now.file) (rela_test sections.now.file))
        ≡ None }
    requires tables { AreTargetTables sections.now.file tables.now.first.items
        tables.now.next.items 0 }
    requires target { target < section_count sections.now.file }
    requires room { HasRoom sections.now.file (length changed.old.marks.items) }
    requires mark { changed.old.mark ≡ target }
    requires marks { HasMarks changed.old }
    ensures changed { HasChanged changed.new (changes_at target (places_of sections.now.file)) }
    ensures mark { changed.new.mark ≡ target + 1 }
    ensures size { length changed.new.marks.items ≡ length changed.old.marks.items }
{
    changed.begin();
    let mut table = tables.first[target as usize];
    while table < sections.section_count() {
        change_table(sections, table, changed);
        table = tables.next[table as usize];
    }
}

/// Meets the places of the table `index`.
fn change_table(sections: &SectionTable, index: u32, changed: &mut ChangedBytes)
    requires small { length sections.now.file ≤ file_limit }
    requires fit { TablesFit sections.now.file }
    requires index { index < length sections.now.list }
    requires applied { is_applied sections.now.file index ≡ true }
    requires passed { rela_test sections.now.file index ≡ None }
    requires room { room_in
        (section_of sections.now.file (section_of sections.now.file index).info)
        ≤ length changed.old.marks.items }
    ensures changed { (before : List RelaPlace)
        → HasChanged changed.old
        (changes_at (section_of sections.now.file index).info before)
        → HasChanged changed.new
        (changes_at (section_of sections.now.file index).info
        (before ++ section_places sections.now.file index)) }
    ensures mark { changed.new.mark ≡ changed.old.mark }
    ensures size { length changed.new.marks.items ≡ length changed.old.marks.items }
{
    let target = sections.section(index).info;
    let table = sections.section_bytes(index);
    for entry in 0..(table.len() / RELA_SIZE) as u32 {
        let place = place_at(table, index, target, entry);
        changed.change(place.offset, place_width(&place));
    }
}
