// The entries of a table for the exports of a module.

ghost use Rattle.std.specs.Prelude.{◌≡◌, IfOk, Some, map};
ghost use Rattle.export_table.specs.Standing.{export_pair, named_pair};

use crate::placed::PlacedExport;
use crate::standing::{Named, Standing};
use km_names::{List, Name};
use std::alloc::{AllocError, Global};
use std::collections::VecDeque;

/// Returns the table's entries for the exports of an owner.
pub fn named_exports(
    alloc: Global,
    owner: &[u8],
    exports: &List<PlacedExport>,
) -> Result<VecDeque<Named>, AllocError>
    ensures { IfOk result
        (λ named. map named_pair named.items ≡ map (export_pair (Some owner.now)) exports.now) }
{
    let mut named = VecDeque::new(alloc);
    for export in exports.as_slice() {
        named.push_back(named_export(alloc, owner, export)?)?;
    }
    Ok(named)
}

/// Returns the table's entry for an export of an owner.
fn named_export(alloc: Global, owner: &[u8], export: &PlacedExport) -> Result<Named, AllocError>
    ensures { IfOk result (λ n. named_pair n ≡ export_pair (Some owner.now) export.now) }
{
    let name = Vec::from_slice(alloc, export.name.as_bytes())?;
    let space = Name::from_slice(alloc, export.space.as_bytes())?;
    let owner = Name::from_slice(alloc, owner)?;
    let standing = Standing {
        crc: export.crc,
        gpl: export.gpl,
        space,
        address: export.address,
        owner: Some(owner),
    };
    Ok(Named { name, standing })
}
