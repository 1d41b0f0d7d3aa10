// The exports of loaded modules.

ghost use Rattle.std.specs.Prelude.{◌≡◌, ◌<◌, All, IfOk, length, map};
ghost use Rattle.module_symbols.specs.declared.exports.Export.{Export};
ghost use Rattle.export_table.specs.Standing.{placed_by};

use km_names::{List, Name};
use module_facts::{Export, Exports};
use std::alloc::{AllocError, Global};

/// An export of a loaded module, at its address.
#[derive(Drop)]
pub struct PlacedExport {
    /// The exported name.
    pub name: Name,
    /// The version of the export, if it has one.
    pub crc: Option<u64>,
    /// Whether only GPL-compatible modules may use it.
    pub gpl: bool,
    /// Its namespace, empty if it has none.
    pub space: Name,
    /// Its address.
    pub address: u64,
}

/// Returns the exports of a module, by the addresses of its symbols.
pub fn placed_exports(
    alloc: Global,
    exports: &Exports,
    addresses: &[u64],
) -> Result<List<PlacedExport>, AllocError>
    requires { All (λ (e : Export). e.symbol < length addresses.now) exports.now }
    ensures { IfOk result (λ l. l ≡ map (placed_by addresses.now) exports.now) }
{
    let mut placed = List::new(alloc);
    for export in exports.as_slice() {
        placed.push(placed_export(alloc, export, addresses)?)?;
    }
    Ok(placed)
}

/// Returns an export of a module, by the addresses of the module's symbols.
fn placed_export(
    alloc: Global,
    export: &Export,
    addresses: &[u64],
) -> Result<PlacedExport, AllocError>
    requires { export.now.symbol < length addresses.now }
    ensures { IfOk result (λ e. e ≡ placed_by addresses.now export.now) }
{
    Ok(PlacedExport {
        name: Name::from_slice(alloc, export.name.as_bytes())?,
        crc: export.crc,
        gpl: export.gpl,
        space: Name::from_slice(alloc, export.space.as_bytes())?,
        address: addresses[export.symbol as usize],
    })
}
