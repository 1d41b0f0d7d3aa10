// The table of the exports of a kernel.

ghost use Rattle.std.specs.Prelude.{◌≡◌, ◌⊎◌, ℕ, List, None, Some, OnOk, IfErr, IfOk, map};
ghost use Rattle.std.specs.Prelude.{option_map, is_none, false, if◌then◌else◌};
ghost use Rattle.std.specs.Option.{option_or};
ghost use Rattle.std.specs.Str.{bytes_eq};
ghost use Rattle.load_fault.specs.declared.fault.MachineFault.TheVariants.{KernelWithoutAddress};
ghost use Rattle.export_table.specs.Exports.{export_named, kernel_fault, kernel_placed, standing};
ghost use Rattle.export_table.specs.Standing.{export_pair, named_pair, standing_of};

use crate::standing::{ExportTable, Named, Standing};
use kernel_exports::{Kernel, KernelExport};
use km_names::Name;
use load_fault::MachineFault;
use std::alloc::{AllocError, Global};

/// Returns the table of the exports of a kernel.
///
/// # Errors
///
/// `KernelWithoutAddress` with the first export without an address, if there is one, or `Memory`.
pub fn kernel_table(alloc: Global, kernel: &Kernel) -> Result<ExportTable, MachineFault>
    ensures table { IfOk result
        (λ t. (x : List ℕ)
        → standing_of t x
        ≡ option_map (standing None)
        (export_named x (map kernel_placed kernel.now.exports))) }
    ensures passed { OnOk result (kernel_fault kernel.now.exports ≡ None) }
    ensures fault { IfErr result
        (λ e. (e ≡ MachineFault.Memory) ⊎ (kernel_fault kernel.now.exports ≡ Some e)) }
{
    let mut table = ExportTable::new(alloc);
    for export in kernel.exports.as_slice() {
        enter_export(alloc, &mut table, export)?;
    }
    Ok(table)
}

/// Enters an export of a kernel into a table, unless it has no address.
fn enter_export(
    alloc: Global,
    table: &mut ExportTable,
    export: &KernelExport,
) -> Result<(), MachineFault>
    ensures table { OnOk result ((x : List ℕ) → standing_of table.new x
        ≡ option_or (standing_of table.old x)
        (if bytes_eq export.now.name x
        then Some (standing None (kernel_placed export.now))
        else None)) }
    ensures passed { OnOk result (is_none export.now.address ≡ false) }
    ensures fault { IfErr result (λ e. (e ≡ MachineFault.Memory)
        ⊎ ((export.now.address ≡ None) × (e ≡ KernelWithoutAddress export.now.name))) }
{
    let Some(address) = export.address else {
        return Err(without_address(alloc, export)?);
    };
    table.reserve(1)?;
    let named = named_kernel_export(alloc, export, address)?;
    table.enter(named);
    Ok(())
}

/// Returns the refusal of a kernel for an export without an address.
fn without_address(alloc: Global, export: &KernelExport) -> Result<MachineFault, AllocError>
    ensures { IfOk result (λ e. e ≡ KernelWithoutAddress export.now.name) }
{
    Ok(MachineFault::KernelWithoutAddress {
        name: Name::from_slice(alloc, export.name.as_bytes())?,
    })
}

/// Returns what the table keeps of an export of the kernel at an address.
fn named_kernel_export(
    alloc: Global,
    export: &KernelExport,
    address: u64,
) -> Result<Named, AllocError>
    requires { export.now.address ≡ Some address }
    ensures { IfOk result (λ n. named_pair n ≡ export_pair None (kernel_placed export.now)) }
{
    let name = Vec::from_slice(alloc, export.name.as_bytes())?;
    let space = Name::from_slice(alloc, export.space.as_bytes())?;
    let standing = Standing {
        crc: export.crc,
        gpl: export.gpl,
        space,
        address,
        owner: None,
    };
    Ok(Named { name, standing })
}
