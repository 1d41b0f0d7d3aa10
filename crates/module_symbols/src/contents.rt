// The bytes of an object's sections. gABI 4, "Sections".

ghost use Rattle.std.specs.Prelude.{◌≡◌, ◌≤◌, length, IfSome, option_copied};
ghost use Rattle.km_names.specs.Limit.{file_limit};
ghost use Rattle.module_symbols.specs.Contents.{modinfo_bytes, named_bytes, section_contents};

use elf_format::SHT_NOBITS;
use elf_object::ObjectView;

/// Returns the bytes of the section `i`, and none if there is no such section. gABI 4, "Sections".
#[tactic(auto, unfolding(crate::specs::Contents::section_contents))]
pub fn section_contents<'a>(object: &ObjectView<'a>, i: u32) -> &'a [u8]
    ensures { result.now ≡ section_contents object.now i }
{
    if i < object.section_count() {
        object.section_bytes(i)
    } else {
        &[]
    }
}

/// Returns the bytes of the first section of this name. The result is `None` if no section has the
/// name, and if the first one that has it is of type NOBITS. gABI 4, "Sections", sh_type.
#[tactic(auto, unfolding(crate::specs::Contents::named_section, crate::specs::Contents::named_bytes))]
pub fn named_bytes<'a>(object: &ObjectView<'a>, name: &[u8]) -> Option<&'a [u8]>
    ensures bytes { option_copied result ≡ named_bytes object.now name.now }
    ensures short { IfSome result (λ bytes. length bytes.now ≤ file_limit) }
{
    let i = object.section_named(name)?;
    if object.section(i).kind == SHT_NOBITS {
        return None;
    }
    Some(object.section_bytes(i))
}

/// Returns the bytes of the section `.modinfo`, and none if there is no such section. The kernel's
/// include/linux/moduleparam.h, __MODULE_INFO.
#[tactic(auto, unfolding(crate::specs::Contents::modinfo_bytes))]
pub fn modinfo_bytes<'a>(object: &ObjectView<'a>) -> &'a [u8]
    ensures { result.now ≡ modinfo_bytes object.now }
{
    named_bytes(object, b".modinfo").unwrap_or(&[])
}
