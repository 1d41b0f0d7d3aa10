// The objects of sheets that are written out.
ghost use Rattle.std.specs.Prelude.{◌≡◌, ◌⊎◌, false, IfErr, IfOk};
ghost use Rattle.sheet_object.specs.Sheet.{is_sheet, no_more};
ghost use Rattle.sheet_object.specs.Object.{object_more_of};
ghost use Rattle.test_objects.specs.Rows.{sheet_of, more_of};
ghost use Rattle.test_objects.specs.declared.fault.RowFault.TheVariants.{Memory};

use crate::fault::RowFault;
use crate::lists::{exports, needs, places, spaces, texts, versions};
use crate::row::{MoreRow, SheetRow};
use crate::sheets::NO_MORE;
use km_names::Blob;
use sheet_object::{Sheet, SheetMore, is_sheet, object_more};
use std::alloc::{AllocError, Global};

/// Returns the sheet that is written out.
pub fn sheet(alloc: Global, row: &SheetRow) -> Result<Sheet, AllocError>
    ensures { IfOk result (λ sheet. sheet ≡ sheet_of row.now) }
{
    Ok(Sheet {
        texts: texts(alloc, row.texts)?,
        versions: versions(alloc, row.versions)?,
        exports: exports(alloc, row.exports)?,
        needs: needs(alloc, row.needs)?,
        places: places(alloc, row.places)?,
    })
}

/// Returns what is written out besides a sheet.
pub fn more(alloc: Global, row: &MoreRow) -> Result<SheetMore, AllocError>
    ensures { IfOk result (λ more. more ≡ more_of row.now) }
{
    Ok(SheetMore {
        ext: versions(alloc, row.ext)?,
        gpl: texts(alloc, row.gpl)?,
        spaces: spaces(alloc, row.spaces)?,
    })
}

/// Returns the object of a sheet that is written out.
pub fn object_of(alloc: Global, row: &SheetRow) -> Result<Blob, RowFault>
    ensures made { IfOk result (λ bytes. bytes ≡ object_more_of (sheet_of row.now) no_more) }
    ensures refused { IfErr result
        (λ fault. (fault ≡ Memory) ⊎ (is_sheet (sheet_of row.now) no_more ≡ false)) }
{
    object_with(alloc, row, &NO_MORE)
}

/// Returns the object of a sheet with more, both written out.
pub fn object_with(alloc: Global, row: &SheetRow, besides: &MoreRow) -> Result<Blob, RowFault>
    ensures made { IfOk result
        (λ bytes. bytes ≡ object_more_of (sheet_of row.now) (more_of besides.now)) }
    ensures refused { IfErr result
        (λ fault. (fault ≡ Memory) ⊎ (is_sheet (sheet_of row.now) (more_of besides.now) ≡ false)) }
{
    let sheet = sheet(alloc, row)?;
    let more = more(alloc, besides)?;
    if !is_sheet(alloc, &sheet, &more)? {
        return Err(RowFault::NoSheet);
    }
    Ok(object_more(alloc, &sheet, &more)?)
}
