// The tests of a module's own names.

ghost use Rattle.std.specs.Prelude.{◌≡◌, ◌⊎◌, None, Some, OnOk, IfErr};
ghost use Rattle.std.specs.List.{list_any};
ghost use Rattle.std.specs.Str.{bytes_eq};
ghost use Rattle.km_names.specs.First.{first};
ghost use Rattle.model_loader.specs.Machine.{Machine};
ghost use Rattle.model_loader.specs.Standing.{Keeps};
ghost use Rattle.model_loader.specs.Step.{name_tests};

use crate::LoadFault;
use crate::entry::Entry;
use export_table::{ExportTable, check_bindings};
use module_facts::Facts;
use std::alloc::Global;

/// Returns whether a module of this name is among these entries.
pub(crate) fn is_loaded(entries: &[Entry], name: &[u8]) -> bool
    ensures { result ≡ list_any (λ e. bytes_eq e.loaded.name name.now) entries.now }
{
    entries
        .iter()
        .any(|entry| entry.loaded.name.as_bytes() == name)
}

/// Tests the names of a module, over the machine that has these entries and whose exported names
/// are in a table.
pub(crate) fn check_names(
    alloc: Global,
    entries: &[Entry],
    table: &ExportTable,
    facts: &Facts,
) -> Result<(), LoadFault>
    ensures passed { OnOk result ((machine : Machine) → machine.entries ≡ entries.now
        → Keeps table.now machine
        → first (name_tests machine facts.now) ≡ None) }
    ensures fault { IfErr result (λ e. (machine : Machine) → machine.entries ≡ entries.now
        → Keeps table.now machine
        → (e ≡ LoadFault.Memory) ⊎ (first (name_tests machine facts.now) ≡ Some e)) }
{
    if is_loaded(entries, facts.name.as_bytes()) {
        return Err(LoadFault::AlreadyLoaded);
    }
    check_bindings(alloc, table, facts)
}
