//! Modules removed from the modelled machine.
//!
//! The crate builds on `model_loader` for the machine, its modules' uses of each other, and a
//! machine without one module.
#![tactic(auto)]

ghost use Rattle.std.specs.Prelude.{◌≡◌, ◌<◌, ℕ, List, Ok, Err, Some, OnOk, OnErr, IfErr, length};
ghost use Rattle.std.specs.Prelude.{remove};
ghost use Rattle.module_facts.specs.declared.module.Module.{Module};
ghost use Rattle.model_loader.specs.Sound.{IsSound};
ghost use Rattle.model_unload.specs.Below.{IsUnusedBelow};
ghost use Rattle.model_unload.specs.Unload.{first_user, place_of, UnusedAreUnloaded, unloaded};

use model_loader::Machine;
use thiserror::Error;

/// Why a module isn't removed.
#[derive(Clone, Copy, Debug, PartialEq, Eq, Error)]
pub enum UnloadFault {
    /// No module of this name is loaded.
    #[error("not loaded")]
    NotLoaded,
    /// The `user`-th loaded module, counted from 0, binds to it, and no older one does.
    #[error("in use by the module at {user}")]
    InUse { user: usize },
}

/// Returns the place of the module of this name.
fn place_of(machine: &Machine, name: &[u8]) -> Option<usize>
    ensures { result ≡ place_of machine.now name.now }
{
    for k in 0..machine.module_count() {
        if machine.module_at(k).name.as_bytes() == name {
            return Some(k);
        }
    }
    None
}

/// Returns the oldest module that binds to the `j`-th loaded one.
fn first_user(machine: &Machine, j: usize) -> Option<usize>
    requires { j < length machine.now.entries }
    ensures { result ≡ first_user machine.now j }
{
    for k in 0..machine.module_count() {
        if machine.binds(k, j) {
            return Some(k);
        }
    }
    None
}

/// Removes the module of this name from a machine. All others stay as they are, and a sound machine
/// stays sound. It takes no memory. After a refusal the machine is as before.
///
/// # Errors
///
/// `NotLoaded` exactly if no module has the name; `InUse` exactly if some module binds to it, with
/// the oldest.
pub fn unload(machine: &mut Machine, name: &[u8]) -> Result<(), UnloadFault>
    ensures done { OnOk result (unloaded machine.old name.now ≡ Ok machine.new) }
    ensures sound { OnOk result ((modules : List Module) (j : ℕ)
        → place_of machine.old name.now ≡ Some j
        → IsSound machine.old modules → IsSound machine.new (remove modules j)) }
    ensures fault { IfErr result (λ e. unloaded machine.old name.now ≡ Err e) }
    ensures unchanged { OnErr result (machine.new ≡ machine.old) }
{
    let Some(j) = place_of(machine, name) else {
        return Err(UnloadFault::NotLoaded);
    };
    if let Some(user) = first_user(machine, j) {
        return Err(UnloadFault::InUse { user });
    }
    machine.drop_entry(j);
    Ok(())
}

/// Returns the place of the module of this name, which is below the place `end`.
fn place_below(machine: &Machine, end: usize, name: &[u8]) -> usize
    requires { IsUnusedBelow machine.now end name.now }
    ensures { place_of machine.now name.now ≡ Some result }
{
    for k in (0..end).rev() {
        if machine.module_at(k).name.as_bytes() == name {
            return k;
        }
    }
    unreachable!()
}

/// Removes the module of this name, which is below the place `end` and which no module binds to, as
/// `unload` does. Returns its place. It is looked for from `end` down, so modules that are removed
/// youngest first, each below the one before it, are found in one pass over the machine.
pub fn unload_below(machine: &mut Machine, end: usize, name: &[u8]) -> usize
    requires { IsUnusedBelow machine.old end name.now }
    ensures done { unloaded machine.old name.now ≡ Ok machine.new }
    ensures place { place_of machine.old name.now ≡ Some result }
{
    let place = place_below(machine, end, name);
    machine.drop_entry(place);
    place
}

/// States that modules that are unused, each at its turn, are removed by their names.
pub fn unused_are_unloaded()
    ensures { UnusedAreUnloaded }
{}
