// A list of sections, with the section of their names.
ghost use Rattle.std.specs.Prelude.{◌≡◌, [], ◌∷◌, ◌++◌, OnOk};
ghost use Rattle.std.specs.List.{flat_map};
ghost use Rattle.elf_write.specs.Number.{with_nul};
ghost use Rattle.elf_write.specs.Part.{with_names};

use crate::part::{Attributes, Part};
use elf_format::SHT_STRTAB;
use std::alloc::{AllocError, Global};

/// The name of the section that has the names of all sections.
const SECTION_NAMES_NAME: &[u8] = b".shstrtab";

/// Puts the section of this name, with these attributes and this content, at the end of a list of
/// sections. The only error is out of memory.
pub fn push_part(
    alloc: Global,
    parts: &mut Vec<Part>,
    name: &[u8],
    attributes: Attributes,
    content: Vec<u8>,
) -> Result<(), AllocError>
    ensures { OnOk result
        (parts.new.items
        ≡ parts.old.items
        ++ record { name = name.now; attributes = attributes; content = content.items }
        ∷ []) }
{
    parts.push(Part::new(alloc, name, attributes, content)?)?;
    Ok(())
}

/// Puts the section `.shstrtab` at the end of a list of sections, and then the further sections. It
/// has the names of all of them, each with its NUL, after an empty one. gABI 4, "Special Sections".
/// The only error is out of memory.
pub fn push_further(
    alloc: Global,
    parts: &mut Vec<Part>,
    mut further: Vec<Part>,
) -> Result<(), AllocError>
    ensures { OnOk result (parts.new.items ≡ with_names parts.old.items further.items) }
{
    let mut names = Vec::new(alloc);
    names.push(0)?;
    push_names(&mut names, parts)?;
    names.extend_from_slice(SECTION_NAMES_NAME)?;
    names.push(0)?;
    push_names(&mut names, &further)?;
    let attributes = Attributes::plain(SHT_STRTAB, 0, 1);
    push_part(alloc, parts, SECTION_NAMES_NAME, attributes, names)?;
    parts.append(&mut further)?;
    Ok(())
}

/// Puts the names of sections at the end, each with its NUL.
fn push_names(out: &mut Vec<u8>, parts: &[Part]) -> Result<(), AllocError>
    ensures { OnOk result
        (out.new.items ≡ out.old.items ++ flat_map (λ p. with_nul p.name) parts.now) }
{
    for part in parts {
        out.extend_from_slice(part.name.as_bytes())?;
        out.push(0)?;
    }
    Ok(())
}
