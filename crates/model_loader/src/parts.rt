// The parts of the entry of a module.

ghost use Rattle.std.specs.Prelude.{◌≡◌, IfOk, map};
ghost use Rattle.model_loader.specs.Step.{bound_need};

use crate::entry::BoundNeed;
use km_names::{List, Name, Names};
use module_facts::{Need, Needs};
use std::alloc::{AllocError, Global};

/// Copies names.
pub(crate) fn copied_names(alloc: Global, names: &Names) -> Result<Names, AllocError>
    ensures { IfOk result (λ copy. copy ≡ names.now) }
{
    let mut copy = Names::new(alloc);
    for name in names.as_slice() {
        copy.push(copied(alloc, name)?)?;
    }
    Ok(copy)
}

/// Returns what an entry keeps of the needs of a module.
pub(crate) fn bound_needs(alloc: Global, needs: &Needs) -> Result<List<BoundNeed>, AllocError>
    ensures { IfOk result (λ l. l ≡ map bound_need needs.now) }
{
    let mut copy = List::new(alloc);
    for need in needs.as_slice() {
        copy.push(bound_need(alloc, need)?)?;
    }
    Ok(copy)
}

/// Copies a name.
fn copied(alloc: Global, name: &Name) -> Result<Name, AllocError>
    ensures { IfOk result (λ copy. copy ≡ name.now) }
{
    Name::from_slice(alloc, name.as_bytes())
}

/// Returns what an entry keeps of a need.
fn bound_need(alloc: Global, need: &Need) -> Result<BoundNeed, AllocError>
    ensures { IfOk result (λ n. n ≡ bound_need need.now) }
{
    Ok(BoundNeed {
        name: copied(alloc, &need.name)?,
        weak: need.weak,
        crc: need.crc,
    })
}
