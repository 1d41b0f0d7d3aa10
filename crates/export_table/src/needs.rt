// The tests of a module's needs.

ghost use Rattle.std.specs.Prelude.{◌≡◌, ◌⊎◌, None, Some, OnOk, IfErr, find, option_map};
ghost use Rattle.std.specs.Prelude.{option_copied};
ghost use Rattle.provider_rel.specs.Faces.{face_of, need_of_facts};
ghost use Rattle.export_table.specs.Exports.{standing_export};
ghost use Rattle.export_table.specs.NeedTests.{failed_need, fault_of, need_fails, test_of};

use crate::standing::{ExportTable, Standing};
use km_names::Name;
use load_fault::LoadFault;
use module_facts::{Facts, Need};
use std::alloc::Global;
use symbol_binding::{agree, may_use, sees};

/// What can be wrong with a need, in the order of a load's tests.
#[derive(Clone, Copy)]
pub(crate) enum Check {
    /// It is strong, and nobody exports it.
    Missing,
    /// It is strong, and the module doesn't see the export.
    Hidden,
    /// The module sees the export, which has another version.
    OtherVersion,
    /// The module sees the export, and may not use it.
    Barred,
}

/// Returns whether an exported need of a module fails a test.
fn fails_found(check: Check, found: &Standing, facts: &Facts, need: &Need) -> bool
    ensures { result
        ≡ test_of check (Some (standing_export need.now.name found.now)) (face_of facts.now)
        (need_of_facts need.now) }
{
    let seen = sees(facts.free, found.gpl);
    match check {
        Check::Missing => false,
        Check::Hidden => !need.weak && !seen,
        Check::OtherVersion => seen && !agree(need.crc, found.crc),
        Check::Barred => seen && !may_use(&facts.imports, found.space.as_bytes()),
    }
}

/// Returns whether a need of a module fails a test, by what is exported under its name.
fn fails(check: Check, found: Option<&Standing>, facts: &Facts, need: &Need) -> bool
    ensures { result
        ≡ test_of check (option_map (standing_export need.now.name) (option_copied found.entry))
        (face_of facts.now) (need_of_facts need.now) }
{
    match (found, check) {
        (Some(found), _) => fails_found(check, found, facts, need),
        (None, Check::Missing) => !need.weak,
        (None, _) => false,
    }
}

/// Returns the first need of a module that fails a test.
fn first_failing<'a>(check: Check, table: &ExportTable, facts: &'a Facts) -> Option<&'a Need>
    ensures { option_copied result
        ≡ find (need_fails (test_of check) table.now facts.now) facts.now.needs }
{
    for need in facts.needs.as_slice() {
        let found = table.get(need.name.as_bytes());
        if fails(check, found, facts, need) {
            return Some(need);
        }
    }
    None
}

impl Check {
    /// Returns the refusal of a load whose need of this name fails the test.
    fn fault(self, name: Name) -> LoadFault
        ensures { result ≡ fault_of self name }
    {
        match self {
            Check::Missing => LoadFault::MissingSymbol { name },
            Check::Hidden => LoadFault::GplOnly { name },
            Check::OtherVersion => LoadFault::VersionDiffers { name },
            Check::Barred => LoadFault::NotImported { name },
        }
    }

    /// Tests that no need of a module fails, by a table.
    pub(crate) fn check(
        self,
        alloc: Global,
        table: &ExportTable,
        facts: &Facts,
    ) -> Result<(), LoadFault>
        ensures passed { OnOk result
            (failed_need table.now facts.now (test_of self) (fault_of self) ≡ None) }
        ensures fault { IfErr result (λ e. (e ≡ LoadFault.Memory)
            ⊎ (failed_need table.now facts.now (test_of self) (fault_of self) ≡ Some e)) }
    {
        match first_failing(self, table, facts) {
            None => Ok(()),
            Some(need) => {
                let name = Name::from_slice(alloc, need.name.as_bytes())?;
                Err(self.fault(name))
            }
        }
    }
}
