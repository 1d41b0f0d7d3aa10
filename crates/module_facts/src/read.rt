// Reads a module from the bytes of its file.

ghost use Rattle.std.specs.Prelude.{◌≡◌, ◌≤◌, ◌⊎◌, length, None, Some, IfOk, IfErr, OnOk};
ghost use Rattle.std.specs.Prelude.{option_copied};
ghost use Rattle.km_names.specs.First.{first};
ghost use Rattle.km_names.specs.Limit.{file_limit};
ghost use Rattle.module_facts.specs.Module.{IsSound};
ghost use Rattle.elf_object.specs.Object.{file_object};
ghost use Rattle.module_symbols.specs.SymbolTables.{AreTablesFor};
ghost use Rattle.module_symbols.specs.Exports.{exports_of};
ghost use Rattle.module_facts.specs.Facts.{facts_of, object_facts, texts_of};
ghost use Rattle.module_facts.specs.Faults.{fact_fault, facts_tests};

use crate::checks::check_facts;
use crate::texts::{StatedTexts, is_free, read_texts};
use crate::{Facts, Module, ModuleFault};
use elf_object::{Object, ObjectView};
use km_names::{Blob, PathText, is_compressed, module_name};
use module_symbols::{SymbolTables, exports_by, modinfo_bytes, read_needs, tables_of};
use std::alloc::{AllocError, Global};

/// Reads the module at a path from the bytes of its file, and keeps the bytes. After a refusal they
/// are dropped. modinfo(8), depmod(8).
///
/// # Errors
///
/// The first test of the module that fails, or `Memory`.
#[tactic(auto, unfolding(crate::specs::Faults::fact_fault, crate::specs::Faults::module_tests))]
pub fn read_module(alloc: Global, path: &PathText, bytes: Blob) -> Result<Module, ModuleFault>
    requires { length bytes ≤ file_limit }
    ensures object { IfOk result (λ m. m.object ≡ file_object bytes) }
    ensures facts { IfOk result (λ m. m.facts ≡ facts_of path.now bytes) }
    ensures path { IfOk result (λ m. m.facts.path ≡ path.now) }
    ensures sound { IfOk result (λ m. IsSound m.object m.facts) }
    ensures passed { OnOk result (fact_fault path.now bytes ≡ None) }
    ensures fault { IfErr result
        (λ e. (e ≡ ModuleFault.Memory) ⊎ (fact_fault path.now bytes ≡ Some e)) }
{
    if is_compressed(path) {
        return Err(ModuleFault::Compressed);
    }
    let object = Object::read(alloc, bytes)?;
    let facts = facts_of_object(alloc, path, &object)?;
    Ok(Module { object, facts })
}

/// Reads the facts of the module at a path from the bytes of its file. All tests of
/// [`read_module`](crate::read_module) are made, and only the facts are kept, so this takes less
/// time and memory. modinfo(8), depmod(8).
///
/// # Errors
///
/// The same as for [`read_module`](crate::read_module), but fewer files are out of memory by a
/// limit. One under a megabyte is only if the names of its needs, or of its exports, or their
/// namespaces have more than 268,435,456 bytes together.
#[tactic(auto, unfolding(crate::specs::Faults::fact_fault, crate::specs::Faults::module_tests))]
pub fn read_facts(alloc: Global, path: &PathText, bytes: &[u8]) -> Result<Facts, ModuleFault>
    requires { length bytes.now ≤ file_limit }
    ensures facts { IfOk result (λ facts. facts ≡ facts_of path.now bytes.now) }
    ensures path { IfOk result (λ facts. facts.path ≡ path.now) }
    ensures sound { IfOk result (λ facts. IsSound (file_object bytes.now) facts) }
    ensures passed { OnOk result (fact_fault path.now bytes.now ≡ None) }
    ensures fault { IfErr result
        (λ e. (e ≡ ModuleFault.Memory) ⊎ (fact_fault path.now bytes.now ≡ Some e)) }
{
    if is_compressed(path) {
        return Err(ModuleFault::Compressed);
    }
    let object = ObjectView::read(alloc, bytes)?;
    checked_facts(alloc, path, &object)
}

/// Returns the facts of the module at a path, by its object.
fn facts_of_object(alloc: Global, path: &PathText, object: &Object) -> Result<Facts, ModuleFault>
    ensures facts { IfOk result (λ facts. facts ≡ object_facts path.now object.now) }
    ensures passed { OnOk result
        (first (facts_tests object.now (object_facts path.now object.now)) ≡ None) }
    ensures fault { IfErr result
        (λ e. (e ≡ ModuleFault.Memory)
        ⊎ (first (facts_tests object.now (object_facts path.now object.now)) ≡ Some e)) }
{
    let view = object.view(alloc)?;
    checked_facts(alloc, path, &view)
}

/// Returns the facts of the module at a path, after all tests that they must pass.
fn checked_facts(alloc: Global, path: &PathText, object: &ObjectView) -> Result<Facts, ModuleFault>
    ensures facts { IfOk result (λ facts. facts ≡ object_facts path.now object.now) }
    ensures passed { OnOk result
        (first (facts_tests object.now (object_facts path.now object.now)) ≡ None) }
    ensures fault { IfErr result
        (λ e. (e ≡ ModuleFault.Memory)
        ⊎ (first (facts_tests object.now (object_facts path.now object.now)) ≡ Some e)) }
{
    let tables = tables_of(alloc, object)?;
    facts_by_tables(alloc, path, object, tables.as_ref())
}

/// Returns the facts of the module at a path, after all tests that they must pass, by the tables of
/// its symbols.
fn facts_by_tables(
    alloc: Global,
    path: &PathText,
    object: &ObjectView,
    tables: Option<&SymbolTables>,
) -> Result<Facts, ModuleFault>
    requires { AreTablesFor (exports_of object.now) object.now (option_copied tables) }
    ensures facts { IfOk result (λ facts. facts ≡ object_facts path.now object.now) }
    ensures passed { OnOk result
        (first (facts_tests object.now (object_facts path.now object.now)) ≡ None) }
    ensures fault { IfErr result
        (λ e. (e ≡ ModuleFault.Memory)
        ⊎ (first (facts_tests object.now (object_facts path.now object.now)) ≡ Some e)) }
{
    let facts = facts_by(alloc, path, object, tables)?;
    check_facts(alloc, object, tables, &facts)?;
    Ok(facts)
}

/// Returns the facts of the module at a path, by its object and the object's tables, if it exports
/// something.
#[tactic(auto, unfolding(crate::specs::Facts::object_facts, crate::specs::Facts::texts_of))]
fn facts_by(
    alloc: Global,
    path: &PathText,
    object: &ObjectView,
    tables: Option<&SymbolTables>,
) -> Result<Facts, AllocError>
    requires { AreTablesFor (exports_of object.now) object.now (option_copied tables) }
    ensures { IfOk result (λ facts. facts ≡ object_facts path.now object.now) }
{
    let stated_path = PathText::from_slice(alloc, path.as_bytes())?;
    let name = module_name(alloc, path)?;
    let exports = exports_by(alloc, object, tables)?;
    let needs = read_needs(alloc, object)?;
    let StatedTexts {
        licenses,
        aliases,
        softdeps,
        imports,
    } = read_texts(alloc, modinfo_bytes(object))?;
    Ok(Facts {
        path: stated_path,
        name,
        exports,
        needs,
        aliases,
        softdeps,
        free: is_free(&licenses),
        imports,
    })
}
