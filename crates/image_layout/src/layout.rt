// The places of the sections, and the size of the image.

ghost use Rattle.std.specs.Prelude.{ℕ, List, Some, take, slice_get, [], ◌≡◌, ◌+◌, ◌*◌, ◌%◌, ◌<◌};
ghost use Rattle.std.specs.Prelude.{◌≤◌, ◌^◌, true, length, IfOk, IfSome, if◌then◌else◌};
ghost use Rattle.std.specs.Prelude.{slice_index};
ghost use Rattle.elf_object.specs.Places.{is_alignment};
ghost use Rattle.image_layout.specs.Offsets.{aligned, class_of, class_start, end_of, fixed_start};
ghost use Rattle.image_layout.specs.Offsets.{image_size, is_class, offset, offsets, variable_start};
ghost use Rattle.image_layout.specs.Ends.{AreEnds, AreNear, end_in};
ghost use Rattle.elf_sections.specs.declared.section.Section.{Section};
ghost use Rattle.image_layout.specs.declared.class.Class.{Class};

use crate::class::{Class, class_of};
use crate::ends::{aligned, end_of_class, end_of_first};
use elf_format::PAGE;
use elf_object::{Object, Section};
use std::alloc::{AllocError, Global};
use std::marker::Model;

/// A place for each class: its beginning, or the end of the sections that were placed in it.
#[derive(Clone, Copy, Debug)]
pub(crate) struct Ends {
    pub(crate) code: u128,
    pub(crate) fixed: u128,
    pub(crate) variable: u128,
}

impl Ends {
    /// Places a section in its class, whose end becomes the section's, and returns its place.
    #[tactic(auto, unfolding(crate::specs::Offsets::offset_after))]
    fn place(&mut self, section: &Section) -> u128
        requires near { AreNear self.old }
        requires aligned { is_alignment section.now.align ≡ true }
        ensures at { result ≡ aligned (end_in self.old (class_of section.now)) section.now.align }
        ensures ends { (class : Class) → end_in self.new class
            ≡ (if is_class class (class_of section.now)
            then aligned (end_in self.old class) section.now.align + section.now.size
            else end_in self.old class) }
    {
        match class_of(section) {
            Class::Code => place_at(&mut self.code, section),
            Class::Fixed => place_at(&mut self.fixed, section),
            Class::Variable => place_at(&mut self.variable, section),
        }
    }
}

/// Returns the place of the section `i`, which is in memory, in the image of its object. It takes
/// no memory. gABI 4, "Sections", sh_addralign.
pub fn section_at(object: &Object, i: u32) -> u64
    requires section { i < length object.now.sections }
    requires kept { IfSome (slice_get object.now.sections i) (λ s. s.kept ≡ true) }
    requires fits { image_size object.now.sections < 2 ^ 64 }
    ensures at { result ≡ offset object.now.sections i }
    ensures within { IfSome (slice_get object.now.sections i)
        (λ s. result + s.size ≤ image_size object.now.sections) }
{
    let section = object.section(i);
    let class = class_of(section);
    let end = end_of_first(object, class, start_of(object, class), i);
    aligned(end, section.align) as u64
}

/// Returns the size of the image of an object in bytes: whole pages, and at least one.
#[tactic(auto, unfolding(crate::specs::Offsets::image_size, crate::specs::Offsets::end_of))]
pub fn image_size(object: &Object) -> u128
    ensures size { result ≡ image_size object.now.sections }
    ensures some { 4096 ≤ result }
    ensures pages { result % 4096 ≡ 0 }
    ensures near { result < 2 ^ 100 }
{
    let starts = class_starts(object);
    let end = aligned(end_of_class(object, Class::Variable, starts.variable), PAGE);
    if u128::from(PAGE) < end {
        end
    } else {
        u128::from(PAGE)
    }
}

/// The place of each section of an object in its image. Contracts see the list of these places.
#[derive(Debug, Drop)]
pub struct Layout {
    offsets: Vec<u64>,
}

impl Model for Layout {
    ghost use Rattle.std.specs.Prelude.{List, ℕ};

    ghost Value = { List ℕ };

    ghost view = { λ l. l.offsets.items };
}

impl Layout {
    /// Returns the places of the sections of an object whose image fits in memory.
    pub fn new(alloc: Global, object: &Object) -> Result<Layout, AllocError>
        requires { image_size object.now.sections < 2 ^ 63 }
        ensures { IfOk result (λ l. l ≡ offsets object.now.sections) }
    {
        let mut ends = class_starts(object);
        let count = object.section_count();
        let mut offsets = Vec::with_capacity(alloc, count as usize)?;
        for i in 0..count {
            let at = next_offset(&mut ends, object.section(i));
            offsets.push(at as u64)?;
        }
        Ok(Layout { offsets })
    }

    /// Returns the place of the section `i`, and 0 if it isn't in memory.
    pub fn offset(&self, i: u32) -> u64
        requires { i < length self.now }
        ensures { result ≡ slice_index self.now i }
    {
        self.offsets[i as usize]
    }
}

/// Places a section at the next multiple of its alignment. Returns its place, and moves `end` to
/// its end.
#[tactic(auto, using(crate::proofs::Aligning::alignment_small))]
fn place_at(end: &mut u128, section: &Section) -> u128
    requires end { end.old < 2 ^ 110 }
    requires aligned { is_alignment section.now.align ≡ true }
    ensures at { result ≡ aligned end.old section.now.align }
    ensures end { end.new ≡ aligned end.old section.now.align + section.now.size }
    ensures above { result ≤ end.new }
{
    let at = aligned(*end, section.align);
    *end = at + u128::from(section.size);
    at
}

/// Returns the beginning of a class.
fn start_of(object: &Object, class: Class) -> u128
    ensures start { result ≡ class_start object.now.sections class }
    ensures near { result < 2 ^ 95 }
{
    let starts = class_starts(object);
    match class {
        Class::Code => starts.code,
        Class::Fixed => starts.fixed,
        Class::Variable => starts.variable,
    }
}

/// Returns the beginnings of the classes.
#[tactic(auto, unfolding(crate::specs::Offsets::fixed_start, crate::specs::Offsets::variable_start, crate::specs::Offsets::end_of))]
fn class_starts(object: &Object) -> Ends
    ensures starts { AreEnds object.now.sections [] result }
    ensures near { AreNear result }
{
    let code_end = end_of_class(object, Class::Code, 0);
    let fixed = aligned(code_end, PAGE);
    let fixed_end = end_of_class(object, Class::Fixed, fixed);
    Ends {
        code: 0,
        fixed,
        variable: aligned(fixed_end, PAGE),
    }
}

/// Returns the place of a section, by the ends of the classes with the sections before it, and adds
/// it to its class.
fn next_offset(ends: &mut Ends, section: &Section) -> u128
    requires near { AreNear ends.old }
    requires aligned { section.now.kept ≡ true → is_alignment section.now.align ≡ true }
    ensures { (sections : List Section) (i : ℕ) → slice_get sections i ≡ Some section.now
        → AreEnds sections (take i sections) ends.old
        → (result ≡ offset sections i) × AreEnds sections (take (i + 1) sections) ends.new }
{
    if section.kept { ends.place(section) } else { 0 }
}
