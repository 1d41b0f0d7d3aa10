// What modinfo shows of the module at a path.
ghost use Rattle.std.specs.Prelude.{◌≡◌, IfOk, codes, option_copied};
ghost use Rattle.modinfo_tool.specs.Show.{shown_text};
ghost use Rattle.command_modinfo.specs.ModuleInfo.{bytes_named, module_fields};
ghost use Rattle.command_modinfo.specs.PlainKeys.{if_plain, plain_key};

use elf_sections::SectionFile;
use km_names::{Blob, Name, PathText};
use modinfo_fields::fields;
use modinfo_tool::{ShowOptions, show, show_values};
use std::alloc::{AllocError, Global};

/// Returns the text that modinfo shows of the module at a path, by its first `.modinfo` section.
/// The values of one key are taken from the section as they are, since it may have very many
/// fields.
pub(crate) fn module_text(
    alloc: Global,
    path: &PathText,
    sections: &SectionFile,
    options: &ShowOptions,
) -> Result<Blob, AllocError>
    ensures { IfOk result
        (λ text. text ≡ shown_text path.now (module_fields sections.now) options.now) }
{
    let section = module_info(alloc, sections)?;
    match plain_key(&options.field) {
        Some(key) => show_values(alloc, section, key, options.zero),
        None => show(alloc, path, &fields(alloc, section)?, options),
    }
}

/// Returns the key, if there is one and its values are in the fields as they are.
fn plain_key(field: &Option<Name>) -> Option<&[u8]>
    ensures { option_copied result ≡ plain_key field.now }
{
    match field {
        Some(key) => if_plain(key.as_bytes()),
        None => None,
    }
}

#[tactic(auto, unfolding(crate::specs::PlainKeys::stands_for_else))]
fn if_plain(key: &[u8]) -> Option<&[u8]>
    ensures { option_copied result ≡ if_plain key.now }
{
    if key == b"filename".as_slice() || key == b"parm".as_slice() {
        return None;
    }
    Some(key)
}

/// Returns the bytes of the module's first `.modinfo` section, or none if there is no such section.
fn module_info(alloc: Global, sections: &SectionFile) -> Result<&[u8], AllocError>
    ensures { IfOk result (λ bytes. bytes.now ≡ bytes_named (codes ".modinfo") sections.now) }
{
    let table = sections.table(alloc)?;
    match table.section_named(b".modinfo") {
        Some(index) => Ok(table.section_bytes(index)),
        None => Ok(&[]),
    }
}
