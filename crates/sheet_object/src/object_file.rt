// The object file of a sheet.
ghost use Rattle.std.specs.Prelude.{◌≡◌, IsTrue, IfOk};
ghost use Rattle.sheet_object.specs.Sheet.{is_sheet, no_more};
ghost use Rattle.sheet_object.specs.Object.{object_of, object_more_of};

use crate::parts::parts_of;
use crate::section::SECTION_NAMES;
use crate::sheet::{Sheet, SheetMore};
use elf_write::file_of;
use km_names::Blob;
use std::alloc::{AllocError, Global};

/// Writes the relocatable object of a sheet: the file header, the contents of eight sections, and
/// the section header table. The contents of each section begin at a multiple of 8.
/// [`is_sheet`](crate::is_sheet) tests what it requires. gABI 4; x86-64 psABI. The only error is
/// out of memory.
pub fn object(alloc: Global, sheet: &Sheet) -> Result<Blob, AllocError>
    requires { IsTrue (is_sheet sheet.now no_more) }
    ensures { IfOk result (λ bytes. bytes ≡ object_of sheet.now) }
{
    object_more(alloc, sheet, &SheetMore::none(alloc))
}

/// Writes the relocatable object of a sheet with extended versions, GPL-only exports and
/// namespaces. Sections for these follow the eight of the sheet, each only if it isn't empty.
/// [`is_sheet`](crate::is_sheet) tests what it requires. gABI 4; the kernel's
/// include/linux/export.h and scripts/mod/modpost.c. The only error is out of memory.
#[tactic(auto, unfolding(crate::specs::Object::object_more_of))]
pub fn object_more(alloc: Global, sheet: &Sheet, more: &SheetMore) -> Result<Blob, AllocError>
    requires { IsTrue (is_sheet sheet.now more.now) }
    ensures { IfOk result (λ bytes. bytes ≡ object_more_of sheet.now more.now) }
{
    let parts = parts_of(alloc, sheet, more)?;
    let bytes = file_of(alloc, SECTION_NAMES, &parts)?;
    Ok(Blob::from_vec(bytes))
}
