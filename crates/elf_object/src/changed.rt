// The bytes of one section that places change.

ghost use Rattle.std.specs.Prelude.{◌≡◌, ◌+◌, ◌-◌, ◌<◌, ◌≤◌, ◌^◌, ℕ, length, IfOk};

use std::alloc::{AllocError, Global};

/// The bytes that the places of one section change, while the places are met. The sections are met
/// one after the other, and each has a mark of its own, so no mark has to be taken away.
#[derive(Drop)]
pub(crate) struct ChangedBytes {
    /// For each offset the mark of the last section whose byte there is changed, or 0.
    pub(crate) marks: Vec<u16>,
    /// The mark of the section.
    pub(crate) mark: u16,
    /// The least offset of a byte that two places change. If there is none, the number of offsets.
    pub(crate) shared: usize,
}

impl ChangedBytes {
    ghost use Rattle.elf_object.specs.Overlap.{HasChanged, HasMarks, count_between};

    /// Returns the state before the first section. No section has more than `size` bytes.
    pub(crate) fn new(alloc: Global, size: usize) -> Result<Self, AllocError>
        ensures marks { IfOk result HasMarks }
        ensures mark { IfOk result (λ c. c.mark ≡ 0) }
        ensures size { IfOk result (λ c. length c.marks.items ≡ size) }
    {
        Ok(ChangedBytes {
            marks: vec![in alloc; 0u16; size]?,
            mark: 0,
            shared: size,
        })
    }

    /// Begins with the next section, of which no place was met.
    pub(crate) fn begin(&mut self)
        requires { self.old.mark < 2 ^ 16 - 1 }
        ensures none { HasMarks self.old → HasChanged self.new (λ x. 0) }
        ensures mark { self.new.mark ≡ self.old.mark + 1 }
        ensures size { length self.new.marks.items ≡ length self.old.marks.items }
    {
        self.mark += 1;
        self.shared = self.marks.len();
    }

    /// Meets a place that changes `width` bytes from `offset` on.
    pub(crate) fn change(&mut self, offset: u64, width: u8)
        requires { 0 < width → offset + width ≤ length self.old.marks.items }
        ensures changed { (count : ℕ → ℕ) → HasChanged self.old count
            → HasChanged self.new (λ x. count x + count_between offset (offset + width) x) }
        ensures mark { self.new.mark ≡ self.old.mark }
        ensures size { length self.new.marks.items ≡ length self.old.marks.items }
    {
        if width == 0 {
            return;
        }
        let offset = offset as usize;
        for at in offset..offset + usize::from(width) {
            self.change_byte(at);
        }
    }

    /// Meets a byte that a place changes.
    #[inline(always)]
    fn change_byte(&mut self, at: usize)
        requires { at < length self.old.marks.items }
        ensures changed { (low : ℕ) (count : ℕ → ℕ) → low ≤ at
            → HasChanged self.old (λ x. count x + count_between low at x)
            → HasChanged self.new (λ x. count x + count_between low (at + 1) x) }
        ensures mark { self.new.mark ≡ self.old.mark }
        ensures size { length self.new.marks.items ≡ length self.old.marks.items }
    {
        if self.marks[at] == self.mark {
            self.shared = self.shared.min(at);
        }
        self.marks[at] = self.mark;
    }
}
