// The lists of a sheet that is written out.
ghost use Rattle.std.specs.Prelude.{◌≡◌, map, IfOk};
ghost use Rattle.test_objects.specs.Rows.{version_of, export_of, need_of, place_of, space_of};
ghost use Rattle.test_objects.specs.Rows.{slices_of};

use crate::row::{ExportRow, NeedRow, PlaceRow, SpaceRow, VersionRow};
use km_names::{Bytes, List, Name};
use sheet_object::{
    SheetExport, SheetExports, SheetNeed, SheetNeeds, SheetPlace, SheetPlaces, SheetSpace,
    SheetSpaces, SheetVersion, SheetVersions,
};
use std::alloc::{AllocError, Global};

/// Returns the list of these texts or names.
pub(crate) fn texts<K>(alloc: Global, rows: &[&[u8]]) -> Result<List<Bytes<K>>, AllocError>
    ensures { IfOk result (λ list. list ≡ slices_of rows.now) }
{
    let mut list = List::new(alloc);
    for row in rows {
        list.push(Bytes::from_slice(alloc, row)?)?;
    }
    Ok(list)
}

/// Returns the list of these versions of needed symbols.
pub(crate) fn versions(alloc: Global, rows: &[VersionRow]) -> Result<SheetVersions, AllocError>
    ensures { IfOk result (λ list. list ≡ map version_of rows.now) }
{
    let mut list = List::new(alloc);
    for row in rows {
        list.push(SheetVersion {
            name: Name::from_slice(alloc, row.name)?,
            crc: row.crc,
        })?;
    }
    Ok(list)
}

/// Returns the list of these exported symbols.
pub(crate) fn exports(alloc: Global, rows: &[ExportRow]) -> Result<SheetExports, AllocError>
    ensures { IfOk result (λ list. list ≡ map export_of rows.now) }
{
    let mut list = List::new(alloc);
    for row in rows {
        list.push(SheetExport {
            name: Name::from_slice(alloc, row.name)?,
            crc: row.crc,
        })?;
    }
    Ok(list)
}

/// Returns the list of these undefined symbols.
pub(crate) fn needs(alloc: Global, rows: &[NeedRow]) -> Result<SheetNeeds, AllocError>
    ensures { IfOk result (λ list. list ≡ map need_of rows.now) }
{
    let mut list = List::new(alloc);
    for row in rows {
        list.push(SheetNeed {
            name: Name::from_slice(alloc, row.name)?,
            weak: row.weak,
        })?;
    }
    Ok(list)
}

/// Returns the list of these relocated words.
pub(crate) fn places(alloc: Global, rows: &[PlaceRow]) -> Result<SheetPlaces, AllocError>
    ensures { IfOk result (λ list. list ≡ map place_of rows.now) }
{
    let mut list = List::new(alloc);
    for row in rows {
        list.push(SheetPlace {
            kind: row.kind,
            symbol: Name::from_slice(alloc, row.symbol)?,
            addend: row.addend,
        })?;
    }
    Ok(list)
}

/// Returns the list of these namespaces of exports.
pub(crate) fn spaces(alloc: Global, rows: &[SpaceRow]) -> Result<SheetSpaces, AllocError>
    ensures { IfOk result (λ list. list ≡ map space_of rows.now) }
{
    let mut list = List::new(alloc);
    for row in rows {
        list.push(SheetSpace {
            name: Name::from_slice(alloc, row.name)?,
            space: Name::from_slice(alloc, row.space)?,
        })?;
    }
    Ok(list)
}
