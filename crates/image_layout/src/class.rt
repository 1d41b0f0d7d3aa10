// The classes of sections in memory.

ghost use Rattle.std.specs.Prelude.{◌≡◌};
ghost use Rattle.image_layout.specs.Offsets.{class_of, is_class, is_in};

use elf_format::{SHF_EXECINSTR, SHF_WRITE};
use elf_object::Section;

/// The classes of sections in memory, in the order they are placed in.
#[derive(Clone, Copy, Debug)]
pub(crate) enum Class {
    /// Sections with code.
    Code,
    /// Sections without code that are only read.
    Fixed,
    /// The other sections.
    Variable,
}

/// Returns the class of a section.
#[tactic(auto, unfolding(crate::specs::Offsets::class_of))]
pub(crate) fn class_of(section: &Section) -> Class
    ensures { result ≡ class_of section.now }
{
    if section.flags & SHF_EXECINSTR != 0 {
        Class::Code
    } else if section.flags & SHF_WRITE == 0 {
        Class::Fixed
    } else {
        Class::Variable
    }
}

/// Returns whether a section is in memory, in this class.
pub(crate) fn is_in(class: Class, section: &Section) -> bool
    ensures { result ≡ is_in class section.now }
{
    section.kept && are_one(class, class_of(section))
}

/// Returns whether two classes are the same.
fn are_one(class: Class, other: Class) -> bool
    ensures { result ≡ is_class class other }
{
    match (class, other) {
        (Class::Code, Class::Code) => true,
        (Class::Fixed, Class::Fixed) => true,
        (Class::Variable, Class::Variable) => true,
        (Class::Code, Class::Fixed | Class::Variable)
        | (Class::Fixed, Class::Code | Class::Variable)
        | (Class::Variable, Class::Code | Class::Fixed) => false,
    }
}
