// The tables of relocations, by the section that they change.

ghost use Rattle.std.specs.Prelude.{IfOk};
ghost use Rattle.elf_object.specs.Inner.{AreTargetTables, HasRoom, TablesFit};

use crate::place::room_in;
use crate::places::is_applied;
use elf_sections::SectionTable;
use std::alloc::{AllocError, Global};

/// For each section the tables of its relocations, one after the other.
#[derive(Drop)]
pub(crate) struct TargetTables {
    /// For each section the first table of its relocations, or the count of sections.
    pub(crate) first: Vec<u32>,
    /// For each table the next one of the same section, or the count of sections.
    pub(crate) next: Vec<u32>,
}

impl TargetTables {
    /// Finds the tables of each section.
    pub(crate) fn new(alloc: Global, sections: &SectionTable) -> Result<Self, AllocError>
        requires { TablesFit sections.now.file }
        ensures { IfOk result
            (λ t. AreTargetTables sections.now.file t.first.items t.next.items 0) }
    {
        let count = sections.section_count();
        let mut first = vec![in alloc; count; count as usize]?;
        let mut next = vec![in alloc; count; count as usize]?;
        for done in 0..count {
            let index = count - 1 - done;
            if is_applied(sections, index) {
                let target = sections.section(index).info as usize;
                next[index as usize] = first[target];
                first[target] = index;
            }
        }
        Ok(TargetTables { first, next })
    }
}

/// Returns how many bytes the relocations of one section may change at most.
pub(crate) fn greatest_room(sections: &SectionTable) -> u64
    requires { TablesFit sections.now.file }
    ensures { HasRoom sections.now.file result }
{
    let mut greatest = 0;
    for index in 0..sections.section_count() {
        if is_applied(sections, index) {
            let target = sections.section(index).info;
            greatest = greatest.max(room_in(sections.section(target)));
        }
    }
    greatest
}
