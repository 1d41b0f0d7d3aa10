// The plan of a removal.
ghost use Rattle.std.specs.Prelude.{◌≡◌, ◌<◌, ◌⊎◌, ℕ, All, None, Some, IfOk, IfErr, OnOk, length};
ghost use Rattle.std.specs.Prelude.{map};
ghost use Rattle.name_table.specs.NameTable.{IsTableOf};
ghost use Rattle.model_loader.specs.Use.{name_at};
ghost use Rattle.remove_plan.specs.Marks.{is_marked};
ghost use Rattle.remove_plan.specs.Removal.{AreRemoved, is_asked, removed_by};
ghost use Rattle.remove_plan.specs.Steps.{removal_fault, removal_steps, remove_step, removed_name};

use crate::asked::asked;
use crate::commands::{command_for, table_of};
use crate::members::removed;
use crate::users::in_use;
use crate::{RemoveFault, RemovePlan, RemoveStep};
use km_names::{Blob, Name, Names};
use model_loader::Machine;
use modprobe_conf::Rules;
use name_table::NameTable;
use std::alloc::{AllocError, Global};

/// Returns the steps that remove the modules of these names, and those that only removed modules
/// use, youngest first. Each module is removed, or the first command that a rule has for it is run
/// instead. Names that aren't loaded are skipped. If `ignore_remove`, the modules that are asked
/// for are removed whatever the rules say. modprobe(8), `-r`.
///
/// # Errors
///
/// Reports `InUse` exactly if a module that isn't asked for binds to one that is. It names the
/// oldest such module and its oldest such user. Reports `Memory` if it runs out of memory.
pub fn plan_removal(
    alloc: Global,
    names: &Names,
    ignore_remove: bool,
    rules: &Rules,
    machine: &Machine,
) -> Result<RemovePlan, RemoveFault>
    ensures plan { IfOk result
        (λ plan. plan ≡ removal_steps machine.now rules.now ignore_remove names.now) }
    ensures least { OnOk result
        (AreRemoved machine.now (is_asked machine.now names.now)
        (removed_by machine.now names.now)) }
    ensures passed { OnOk result (removal_fault machine.now names.now ≡ None) }
    ensures fault { IfErr result
        (λ e. (e ≡ RemoveFault.Memory) ⊎ (removal_fault machine.now names.now ≡ Some e)) }
{
    let uses = machine.uses(alloc)?;
    let asked = asked(alloc, machine, names)?;
    if let Some((j, k)) = in_use(alloc, machine, &uses, &asked)? {
        return Err(used_by(alloc, machine, j, k)?);
    }
    let going = removed(alloc, machine, &uses, &asked)?;
    let choice = Choice {
        rules,
        table: table_of(alloc, rules)?,
        ignored: ignore_remove,
    };
    let plan = steps(alloc, machine, &choice, &asked, &going)?;
    Ok(plan)
}

/// Returns the refusal for a module that another uses.
fn used_by(alloc: Global, machine: &Machine, j: usize, k: usize) -> Result<RemoveFault, AllocError>
    requires module { j < length machine.now.entries }
    requires user { k < length machine.now.entries }
    ensures { IfOk result
        (λ e. e ≡ RemoveFault.InUse (name_at machine.now j) (name_at machine.now k)) }
{
    Ok(RemoveFault::InUse {
        name: Name::from_slice(alloc, name_of(machine, j))?,
        user: Name::from_slice(alloc, name_of(machine, k))?,
    })
}

/// The rules for removing modules, and whether the commands for the modules that are asked for are
/// ignored.
#[derive(Drop)]
struct Choice<'a> {
    rules: &'a Rules,
    table: NameTable<'a>,
    ignored: bool,
    ghost is_table: { IsTableOf table (map removed_name rules.now) },
}

/// Returns the steps of modules.
fn steps(
    alloc: Global,
    machine: &Machine,
    choice: &Choice,
    asked: &[bool],
    going: &[usize],
) -> Result<RemovePlan, AllocError>
    requires going { All (λ (k : ℕ). k < length machine.now.entries) going.now }
    requires asked { length asked.now ≡ length machine.now.entries }
    ensures { IfOk result
        (λ plan. plan
        ≡ map (remove_step machine.now choice.now.rules.now choice.now.ignored
        (is_marked asked.now)) going.now) }
{
    let mut plan = RemovePlan::new(alloc);
    for k in going {
        plan.push(remove_step(alloc, machine, choice, asked, *k)?)?;
    }
    Ok(plan)
}

/// Returns the name of the module that was loaded `k`-th.
fn name_of(machine: &Machine, k: usize) -> &[u8]
    requires { k < length machine.now.entries }
    ensures { result.now ≡ name_at machine.now k }
{
    machine.module_at(k).name.as_bytes()
}

/// Returns the step of a module.
fn remove_step(
    alloc: Global,
    machine: &Machine,
    choice: &Choice,
    asked: &[bool],
    k: usize,
) -> Result<RemoveStep, AllocError>
    requires place { k < length machine.now.entries }
    requires asked { k < length asked.now }
    ensures { IfOk result
        (λ step. step
        ≡ remove_step machine.now choice.now.rules.now choice.now.ignored (is_marked asked.now)
        k) }
{
    let name = name_of(machine, k);
    let command = if choice.ignored && asked[k] {
        None
    } else {
        command_for(choice.rules, &choice.table, name)
    };
    let name = Name::from_slice(alloc, name)?;
    match command {
        Some(command) => {
            let command = Blob::from_slice(alloc, command)?;
            Ok(RemoveStep::Command { name, command })
        }
        None => Ok(RemoveStep::Rmmod { name }),
    }
}
