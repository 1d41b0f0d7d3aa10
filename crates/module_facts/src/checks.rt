// The tests of a module's facts.

ghost use Rattle.std.specs.Prelude.{◌≡◌, ◌⊎◌, find, None, Some, IfOk, IfErr, OnOk, option_copied};
ghost use Rattle.std.specs.List.{list_all, list_any};
ghost use Rattle.km_names.specs.Ascii.{is_graphic};
ghost use Rattle.km_names.specs.First.{first};
ghost use Rattle.module_facts.specs.Times.{HasSeen};
ghost use Rattle.module_symbols.specs.SymbolTables.{AreTablesFor, HasTables};
ghost use Rattle.module_facts.specs.Faults.{facts_tests, has_bad_space, has_bad_version};
ghost use Rattle.module_facts.specs.Faults.{has_bad_versions, has_good_names, is_twice};
ghost use Rattle.module_facts.specs.Faults.{is_undefined, space_test, twice_test, undefined_test};

use crate::seen::{SeenNames, Times};
use crate::{Facts, ModuleFault};
use elf_object::ObjectView;
use km_names::{Name, is_graphic};
use module_symbols::{
    Export, Need, Role, SymbolTables, given_space, given_version, is_bad_list, symbol_of,
};
use std::alloc::{AllocError, Global};

/// The greatest length of a module's name in bytes: the kernel's MODULE_NAME_LEN, less the NUL.
const MODULE_NAME_LIMIT: usize = 55;

/// Tests the facts of an object.
#[tactic(auto, unfolding(crate::specs::Faults::facts_tests))]
pub(crate) fn check_facts(
    alloc: Global,
    object: &ObjectView,
    tables: Option<&SymbolTables>,
    facts: &Facts,
) -> Result<(), ModuleFault>
    requires { AreTablesFor facts.now.exports object.now (option_copied tables) }
    ensures passed { OnOk result (first (facts_tests object.now facts.now) ≡ None) }
    ensures fault { IfErr result
        (λ e. (e ≡ ModuleFault.Memory) ⊎ (first (facts_tests object.now facts.now) ≡ Some e)) }
{
    let exports = facts.exports.as_slice();
    if facts.name.len() > MODULE_NAME_LIMIT {
        return Err(ModuleFault::NameTooLong);
    }
    if !has_good_names(facts) {
        return Err(ModuleFault::BadName);
    }
    check_once(alloc, exports)?;
    check_defined(alloc, object, tables, exports)?;
    if has_bad_versions(object, tables, exports) {
        return Err(ModuleFault::BadVersions);
    }
    check_spaces(alloc, object, tables, exports)?;
    Ok(())
}

/// Returns whether the names of the module, its exports and its needs can be words of a line.
#[tactic(auto, unfolding(crate::specs::Faults::has_good_names))]
fn has_good_names(facts: &Facts) -> bool
    ensures { result ≡ has_good_names facts.now }
{
    is_graphic(facts.name.as_bytes())
        && have_good_names(facts.exports.as_slice())
        && needs_have_good_names(facts.needs.as_slice())
}

/// Tests that no two exports have one name.
fn check_once(alloc: Global, exports: &[Export]) -> Result<(), ModuleFault>
    ensures passed { OnOk result (twice_test exports.now ≡ None) }
    ensures fault { IfErr result
        (λ e. (e ≡ ModuleFault.Memory) ⊎ (twice_test exports.now ≡ Some e)) }
{
    match first_twice(alloc, exports)? {
        Some(export) => Err(ModuleFault::ExportTwice {
            name: Name::from_slice(alloc, export.name.as_bytes())?,
        }),
        None => Ok(()),
    }
}

/// Tests that each export is defined.
fn check_defined(
    alloc: Global,
    object: &ObjectView,
    tables: Option<&SymbolTables>,
    exports: &[Export],
) -> Result<(), ModuleFault>
    requires { AreTablesFor exports.now object.now (option_copied tables) }
    ensures passed { OnOk result (undefined_test object.now exports.now ≡ None) }
    ensures fault { IfErr result
        (λ e. (e ≡ ModuleFault.Memory) ⊎ (undefined_test object.now exports.now ≡ Some e)) }
{
    match first_undefined(object, tables, exports) {
        Some(export) => Err(ModuleFault::ExportUndefined {
            name: Name::from_slice(alloc, export.name.as_bytes())?,
        }),
        None => Ok(()),
    }
}

/// Returns whether the versions of the needs or of the exports are invalid.
#[tactic(auto, unfolding(crate::specs::Faults::has_bad_versions))]
fn has_bad_versions(object: &ObjectView, tables: Option<&SymbolTables>, exports: &[Export]) -> bool
    requires { AreTablesFor exports.now object.now (option_copied tables) }
    ensures { result ≡ has_bad_versions object.now exports.now }
{
    is_bad_list(object) || has_bad_export_version(object, tables, exports)
}

/// Tests that each symbol for a namespace gives one.
fn check_spaces(
    alloc: Global,
    object: &ObjectView,
    tables: Option<&SymbolTables>,
    exports: &[Export],
) -> Result<(), ModuleFault>
    requires { AreTablesFor exports.now object.now (option_copied tables) }
    ensures passed { OnOk result (space_test object.now exports.now ≡ None) }
    ensures fault { IfErr result
        (λ e. (e ≡ ModuleFault.Memory) ⊎ (space_test object.now exports.now ≡ Some e)) }
{
    match first_bad_space(object, tables, exports) {
        Some(export) => Err(ModuleFault::BadNamespace {
            name: Name::from_slice(alloc, export.name.as_bytes())?,
        }),
        None => Ok(()),
    }
}

/// Returns whether the names of exports can be words of a line.
fn have_good_names(exports: &[Export]) -> bool
    ensures { result ≡ list_all (λ e. is_graphic e.name) exports.now }
{
    exports.iter().all(|e| is_graphic(e.name.as_bytes()))
}

/// Returns whether the names of needs can be words of a line.
fn needs_have_good_names(needs: &[Need]) -> bool
    ensures { result ≡ list_all (λ n. is_graphic n.name) needs.now }
{
    needs.iter().all(|n| is_graphic(n.name.as_bytes()))
}

/// Returns the first export whose name another export has too.
fn first_twice<'a>(alloc: Global, exports: &'a [Export]) -> Result<Option<&'a Export>, AllocError>
    ensures { IfOk result (λ found. option_copied found ≡ find (is_twice exports.now) exports.now) }
{
    let table = seen_names(alloc, exports)?;
    for export in exports {
        if table.is_repeated(export.name.as_bytes()) {
            return Ok(Some(export));
        }
    }
    Ok(None)
}

/// Returns the first export that no symbol defines.
fn first_undefined<'a>(
    object: &ObjectView,
    tables: Option<&SymbolTables>,
    exports: &'a [Export],
) -> Option<&'a Export>
    requires { AreTablesFor exports.now object.now (option_copied tables) }
    ensures { option_copied result ≡ find (is_undefined object.now) exports.now }
{
    let tables = tables?;
    exports
        .iter()
        .find(|export| is_undefined(object, tables, *export))
}

/// Returns whether one of the exports has a bad version.
fn has_bad_export_version(
    object: &ObjectView,
    tables: Option<&SymbolTables>,
    exports: &[Export],
) -> bool
    requires { AreTablesFor exports.now object.now (option_copied tables) }
    ensures { result ≡ list_any (has_bad_version object.now) exports.now }
{
    let Some(tables) = tables else {
        return false;
    };
    exports
        .iter()
        .any(|export| has_bad_version(object, tables, export))
}

/// Returns the first export whose symbol for a namespace gives none.
fn first_bad_space<'a>(
    object: &ObjectView,
    tables: Option<&SymbolTables>,
    exports: &'a [Export],
) -> Option<&'a Export>
    requires { AreTablesFor exports.now object.now (option_copied tables) }
    ensures { option_copied result ≡ find (has_bad_space object.now) exports.now }
{
    let tables = tables?;
    exports
        .iter()
        .find(|export| has_bad_space(object, tables, *export))
}

/// Returns a table that has seen the names of the exports.
fn seen_names<'a>(alloc: Global, exports: &'a [Export]) -> Result<SeenNames<'a>, AllocError>
    ensures { IfOk result (λ table. HasSeen table exports.now) }
{
    let mut table = SeenNames::with_capacity(alloc, exports.len())?;
    for export in exports {
        let name = export.name.as_bytes();
        let times = if table.get(name).is_some() {
            Times::More
        } else {
            Times::Once
        };
        table.put(name, times)?;
    }
    Ok(table)
}

/// Returns whether no symbol defines an export.
#[tactic(auto, unfolding(crate::specs::Faults::is_undefined))]
fn is_undefined(object: &ObjectView, tables: &SymbolTables, export: &Export) -> bool
    requires { HasTables tables.now object.now }
    ensures { result ≡ is_undefined object.now export.now }
{
    tables
        .first_symbol(Role::Definition, export.name.as_bytes())
        .is_none()
}

/// Returns whether the symbol that gives the export's version has no 4 bytes in its section.
#[tactic(auto, unfolding(crate::specs::Faults::has_bad_version))]
fn has_bad_version(object: &ObjectView, tables: &SymbolTables, export: &Export) -> bool
    requires { HasTables tables.now object.now }
    ensures { result ≡ has_bad_version object.now export.now }
{
    match symbol_of(object, tables, Role::Version, export.name.as_bytes()) {
        Some(symbol) => given_version(object, symbol).is_none(),
        None => false,
    }
}

/// Returns whether the symbol for the export's namespace gives none.
#[tactic(auto, unfolding(crate::specs::Faults::has_bad_space))]
fn has_bad_space(object: &ObjectView, tables: &SymbolTables, export: &Export) -> bool
    requires { HasTables tables.now object.now }
    ensures { result ≡ has_bad_space object.now export.now }
{
    match symbol_of(object, tables, Role::Space, export.name.as_bytes()) {
        Some(symbol) => given_space(object, symbol).is_none(),
        None => false,
    }
}
