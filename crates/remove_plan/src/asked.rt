// The modules that are asked for.
ghost use Rattle.std.specs.Prelude.{◌≡◌, ◌<◌, ℕ, List, IfOk, length};
ghost use Rattle.name_table.specs.FirstSeen.{is_among};
ghost use Rattle.remove_plan.specs.Marks.{AreAsked};
ghost use Rattle.remove_plan.specs.Removal.{is_asked};

use km_names::Names;
use model_loader::Machine;
use name_table::NameSet;
use std::alloc::{AllocError, Global};

/// Returns for each module, oldest first, whether it has one of these names.
pub(crate) fn asked(
    alloc: Global,
    machine: &Machine,
    names: &Names,
) -> Result<Vec<bool>, AllocError>
    ensures { IfOk result (λ v. AreAsked machine.now names.now v.items) }
{
    let set = set_of(alloc, names)?;
    let mut marks = Vec::with_capacity(alloc, machine.module_count())?;
    for k in 0..machine.module_count() {
        marks.push(is_asked(machine, &set, k))?;
    }
    Ok(marks)
}

/// Returns the set of some names.
fn set_of<'a>(alloc: Global, names: &'a Names) -> Result<NameSet<'a>, AllocError>
    ensures { IfOk result (λ set. (name : List ℕ) → is_among set name ≡ is_among names.now name) }
{
    let mut set = NameSet::new(alloc);
    for name in names.as_slice() {
        set.insert(name.as_bytes())?;
    }
    Ok(set)
}

/// Returns whether the name of the module that was loaded `k`-th is in a set.
fn is_asked(machine: &Machine, set: &NameSet, k: usize) -> bool
    requires { k < length machine.now.entries }
    ensures { result ≡ is_asked machine.now set.now k }
{
    set.contains(machine.module_at(k).name.as_bytes())
}
