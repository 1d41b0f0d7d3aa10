// The tests of a module's needs and exports.

ghost use Rattle.std.specs.Prelude.{◌≡◌, ◌⊎◌, None, Some, OnOk, IfErr, IfOk, map, unwrap_or};
ghost use Rattle.km_names.specs.First.{first};
ghost use Rattle.symbol_binding.specs.Unmet.{vmlinux};
ghost use Rattle.load_fault.specs.declared.fault.LoadFault.TheVariants.{ExportTaken};
ghost use Rattle.export_table.specs.NeedTests.{binding_tests, taken_by};

use crate::needs::Check;
use crate::standing::{ExportTable, Standing};
use km_names::Name;
use load_fault::LoadFault;
use module_facts::{Export, Facts};
use std::alloc::{AllocError, Global};

/// Tests the needs and the exports of a module by a table.
///
/// # Errors
///
/// The fault of the first test that fails, or `Memory`: a strong need that nobody exports, or that
/// only GPL-compatible modules see; a need in another version, or in a namespace that isn't
/// imported; an export whose name is taken.
pub fn check_bindings(alloc: Global, table: &ExportTable, facts: &Facts) -> Result<(), LoadFault>
    ensures passed { OnOk result (first (binding_tests table.now facts.now) ≡ None) }
    ensures fault { IfErr result
        (λ e. (e ≡ LoadFault.Memory) ⊎ (first (binding_tests table.now facts.now) ≡ Some e)) }
{
    Check::Missing.check(alloc, table, facts)?;
    Check::Hidden.check(alloc, table, facts)?;
    Check::OtherVersion.check(alloc, table, facts)?;
    Check::Barred.check(alloc, table, facts)?;
    check_exports(alloc, table, facts)
}

/// Tests that no name of a module's exports is taken.
fn check_exports(alloc: Global, table: &ExportTable, facts: &Facts) -> Result<(), LoadFault>
    ensures passed { OnOk result (first (map (taken_by table.now) facts.now.exports) ≡ None) }
    ensures fault { IfErr result
        (λ e. (e ≡ LoadFault.Memory)
        ⊎ (first (map (taken_by table.now) facts.now.exports) ≡ Some e)) }
{
    for export in facts.exports.as_slice() {
        if let Some(standing) = table.get(export.name.as_bytes()) {
            return Err(taken(alloc, export, standing)?);
        }
    }
    Ok(())
}

/// Returns the refusal of an export whose name is taken.
fn taken(alloc: Global, export: &Export, standing: &Standing) -> Result<LoadFault, AllocError>
    ensures { IfOk result
        (λ e. e ≡ ExportTaken export.now.name (unwrap_or standing.now.owner vmlinux)) }
{
    let owner = match &standing.owner {
        Some(owner) => owner.as_bytes(),
        None => b"vmlinux",
    };
    Ok(LoadFault::ExportTaken {
        name: Name::from_slice(alloc, export.name.as_bytes())?,
        owner: Name::from_slice(alloc, owner)?,
    })
}
