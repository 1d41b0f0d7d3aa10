// The modules that are removed.
ghost use Rattle.std.specs.Prelude.{◌≡◌, ◌<◌, ◌&&◌, ◌||◌, ℕ, not, All, IfOk, length, map};
ghost use Rattle.model_loader.specs.Use.{AreUses};
ghost use Rattle.remove_plan.specs.Marks.{is_marked};
ghost use Rattle.remove_plan.specs.Removal.{removed as removed_spec};

use crate::marks::mark;
use model_loader::Machine;
use std::alloc::{AllocError, Global};

/// Returns the places of the modules that are removed if these are asked for, youngest first. A
/// module's users are younger than it, so they are decided when its turn comes.
pub(crate) fn removed(
    alloc: Global,
    machine: &Machine,
    uses: &[Vec<usize>],
    asked: &[bool],
) -> Result<Vec<usize>, AllocError>
    requires uses { AreUses machine.now (map (λ u. u.items) uses.now) }
    requires asked { length asked.now ≡ length machine.now.entries }
    ensures places { IfOk result (λ v. v.items ≡ removed_spec machine.now (is_marked asked.now)) }
    ensures within { IfOk result (λ v. All (λ (j : ℕ). j < length machine.now.entries) v.items) }
{
    let count = machine.module_count();
    let mut going = Vec::new(alloc);
    let mut used = vec![in alloc; false; count]?;
    let mut kept = vec![in alloc; false; count]?;
    for done in 0..count {
        let k = count - 1 - done;
        let bound = uses[k].as_slice();
        if goes(asked, &used, &kept, k) {
            going.push(k)?;
            mark(&mut used, bound);
        } else {
            mark(&mut kept, bound);
        }
    }
    Ok(going)
}

/// Returns whether a module is removed: it is asked for, or only removed modules use it.
fn goes(asked: &[bool], used: &[bool], kept: &[bool], k: usize) -> bool
    requires asked { k < length asked.now }
    requires used { k < length used.now }
    requires kept { k < length kept.now }
    ensures { result
        ≡ (is_marked asked.now k || (is_marked used.now k && not (is_marked kept.now k))) }
{
    asked[k] || used[k] && !kept[k]
}
