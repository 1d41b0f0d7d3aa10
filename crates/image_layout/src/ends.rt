// The ends of sections that are placed one after the other.

ghost use Rattle.std.specs.Prelude.{◌≡◌, ◌+◌, ◌%◌, ◌<◌, ◌≤◌, ◌^◌, true, if◌then◌else◌, length};
ghost use Rattle.std.specs.Prelude.{take};
ghost use Rattle.elf_object.specs.Places.{is_alignment};
ghost use Rattle.image_layout.specs.Offsets.{aligned, end_of, is_in, of_class};

use crate::class::{Class, is_in};
use elf_object::{Object, Section};

/// Returns the least multiple of an alignment that isn't below a place. An alignment of 0 counts as
/// 1.
#[tactic(auto, unfolding(crate::specs::Offsets::aligned), using(crate::proofs::Aligning::aligned_above, crate::proofs::Aligning::aligned_near, crate::proofs::Aligning::aligned_page))]
pub(crate) fn aligned(place: u128, align: u64) -> u128
    requires { place < 2 ^ 120 }
    ensures aligned { result ≡ aligned place align }
    ensures above { place ≤ result }
    ensures near { align ≤ 4096 → result ≤ place + 4096 }
    ensures page { align ≡ 4096 → result % 4096 ≡ 0 }
{
    let align = u128::from(if align < 1 { 1 } else { align });
    align * ((place + (align - 1)) / align)
}

/// Returns the end of a class that begins at `start`, after the first `count` sections of the
/// object.
pub(crate) fn end_of_first(object: &Object, class: Class, start: u128, count: u32) -> u128
    requires start { start < 2 ^ 100 }
    requires count { count ≤ length object.now.sections }
    ensures end { result ≡ end_of start (of_class class (take count object.now.sections)) }
    ensures near { result ≤ start + 2 ^ 90 }
{
    let all = object.section_count();
    prove!(count <= all);
    let mut end = start;
    for i in 0..count {
        end = end_with(class, object.section(i), end);
    }
    end
}

/// Returns the end of a class that begins at `start`.
pub(crate) fn end_of_class(object: &Object, class: Class, start: u128) -> u128
    requires { start < 2 ^ 100 }
    ensures end { result ≡ end_of start (of_class class object.now.sections) }
    ensures near { result ≤ start + 2 ^ 90 }
{
    end_of_first(object, class, start, object.section_count())
}

/// Returns the end of a class after this section. `end` is the end of the earlier sections of the
/// class.
#[tactic(auto, using(crate::proofs::Aligning::alignment_small))]
fn end_with(class: Class, section: &Section, end: u128) -> u128
    requires end { end < 2 ^ 110 }
    requires aligned { section.now.kept ≡ true → is_alignment section.now.align ≡ true }
    ensures end { result
        ≡ (if is_in class section.now
        then aligned end section.now.align + section.now.size
        else end) }
    ensures near { result ≤ end + 2 ^ 65 }
{
    if !is_in(class, section) {
        return end;
    }
    aligned(end, section.align) + u128::from(section.size)
}
