// The users of the modules that are asked for.
ghost use Rattle.std.specs.Prelude.{◌≡◌, ◌<◌, ◌&&◌, ℕ, not, All, None, Some, IfOk, IfSome, length};
ghost use Rattle.std.specs.Prelude.{map, nat_eq, option_map, slice_index_or, if◌then◌else◌};
ghost use Rattle.std.specs.List.{list_any};
ghost use Rattle.std.specs.Option.{option_or};
ghost use Rattle.model_loader.specs.Use.{AreUses};
ghost use Rattle.remove_plan.specs.Marks.{AreUsers, is_marked};
ghost use Rattle.remove_plan.specs.Removal.{in_use};

use crate::marks::note;
use model_loader::Machine;
use std::alloc::{AllocError, Global};

/// Returns the oldest module that is asked for and has a user that isn't, and the oldest such user.
pub(crate) fn in_use(
    alloc: Global,
    machine: &Machine,
    uses: &[Vec<usize>],
    asked: &[bool],
) -> Result<Option<(usize, usize)>, AllocError>
    requires uses { AreUses machine.now (map (λ u. u.items) uses.now) }
    requires asked { length asked.now ≡ length machine.now.entries }
    ensures found { IfOk result (λ found. found ≡ in_use machine.now (is_marked asked.now)) }
    ensures within { IfOk result
        (λ found. IfSome found
        (λ p. (p.0 < length machine.now.entries) × (p.1 < length machine.now.entries))) }
{
    let users = users_outside(alloc, machine, uses, asked)?;
    Ok(first_used(machine, asked, &users))
}

/// Returns for each module the oldest one that binds to it and isn't asked for.
fn users_outside(
    alloc: Global,
    machine: &Machine,
    uses: &[Vec<usize>],
    asked: &[bool],
) -> Result<Vec<Option<usize>>, AllocError>
    requires uses { AreUses machine.now (map (λ u. u.items) uses.now) }
    requires asked { length asked.now ≡ length machine.now.entries }
    ensures { IfOk result
        (λ v. AreUsers machine.now (is_marked asked.now) (length machine.now.entries) v.items) }
{
    let count = machine.module_count();
    let mut users = vec![in alloc; None; count]?;
    for k in 0..count {
        note_outside(asked, &mut users, uses[k].as_slice(), k);
    }
    Ok(users)
}

/// Returns the oldest module that is asked for and has a user that isn't, with the oldest such
/// user. `users` has that user of each module.
fn first_used(machine: &Machine, asked: &[bool], users: &[Option<usize>]) -> Option<(usize, usize)>
    requires asked { length asked.now ≡ length machine.now.entries }
    requires users { AreUsers machine.now (is_marked asked.now) (length machine.now.entries)
        users.now }
    ensures found { result ≡ in_use machine.now (is_marked asked.now) }
    ensures within { IfSome result
        (λ p. (p.0 < length machine.now.entries) × (p.1 < length machine.now.entries)) }
{
    for j in 0..machine.module_count() {
        if let Some(found) = used(asked, users, j) {
            return Some(found);
        }
    }
    None
}

/// Notes a module at the places that it binds to, unless it is asked for.
fn note_outside(asked: &[bool], users: &mut [Option<usize>], uses: &[usize], k: usize)
    requires asked { k < length asked.now }
    requires uses { All (λ (j : ℕ). j < length users.old) uses.now }
    ensures counted { length users.new ≡ length users.old }
    ensures at { (j : ℕ)
        → slice_index_or users.new j None
        ≡ option_or (slice_index_or users.old j None)
        (if list_any (nat_eq j) uses.now && not (is_marked asked.now k)
        then Some k
        else None) }
{
    if !asked[k] {
        note(users, uses, k);
    }
}

/// Returns a module that is asked for with its oldest user that isn't, if it has one.
fn used(asked: &[bool], users: &[Option<usize>], j: usize) -> Option<(usize, usize)>
    requires asked { j < length asked.now }
    requires users { j < length users.now }
    ensures { result
        ≡ (if is_marked asked.now j
        then option_map (λ k. (j, k)) (slice_index_or users.now j None)
        else None) }
{
    if !asked[j] {
        return None;
    }
    let user = users[j]?;
    Some((j, user))
}
