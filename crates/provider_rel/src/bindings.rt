// What the needs of a tree are bound to.
ghost use Rattle.std.specs.Prelude.{◌≡◌, map, IfOk, IfErr};
ghost use Rattle.provider_rel.specs.Tree.{IsTree};
ghost use Rattle.provider_rel.specs.Items.{owner_under, used_places};
ghost use Rattle.provider_rel.specs.Bindings.{AreBindings};

use crate::items::{ExportItem, all_bound, all_items, item_at, names_of};
use crate::{RelationFault, TreeFacts};
use kernel_exports::Kernel;
use name_table::OwnedNameTable;
use std::alloc::{AllocError, Global};

/// What the needs of a tree are bound to. It has all exports, the places of their names, and
/// whether the kernel's exports are known. For each need of each module it has the place of the
/// first export of its name.
#[derive(Drop)]
pub(crate) struct Bindings<'a> {
    pub(crate) items: Vec<ExportItem<'a>>,
    pub(crate) names: OwnedNameTable,
    pub(crate) bound: Vec<Vec<Option<u32>>>,
    pub(crate) known: bool,
}

impl<'a> Bindings<'a> {
    /// Binds the needs of a tree over a kernel.
    pub(crate) fn new(
        alloc: Global,
        tree: &'a TreeFacts,
        kernel: &'a Kernel,
    ) -> Result<Bindings<'a>, RelationFault>
        requires { IsTree tree.now }
        ensures ok { IfOk result (λ bindings. AreBindings tree.now kernel.now bindings) }
        ensures err { IfErr result (λ fault. fault ≡ RelationFault.Memory) }
    {
        let items = all_items(alloc, tree, kernel)?;
        let names = names_of(alloc, &items)?;
        let bound = all_bound(alloc, &names, tree)?;
        Ok(Bindings {
            items,
            names,
            bound,
            known: kernel.known,
        })
    }
}

/// Lists for each module the places of the modules that it uses. `bound` has for each module what
/// its needs are bound to.
pub(crate) fn all_used(
    alloc: Global,
    items: &[ExportItem],
    bound: &[Vec<Option<u32>>],
) -> Result<Vec<Vec<usize>>, AllocError>
    ensures { IfOk result
        (λ used. map (λ u. u.items) used.items
        ≡ map (λ b. used_places items.now b.items) bound.now) }
{
    let mut all = Vec::new(alloc);
    for needs in bound {
        all.push(used(alloc, items, needs)?)?;
    }
    Ok(all)
}

/// Finds the places of the modules that a module uses, by what its needs are bound to.
fn used(
    alloc: Global,
    items: &[ExportItem],
    bound: &[Option<u32>],
) -> Result<Vec<usize>, AllocError>
    ensures { IfOk result (λ used. used.items ≡ used_places items.now bound.now) }
{
    let mut used = Vec::new(alloc);
    for place in bound {
        if let Some(owner) = owner_at(items, *place) {
            used.push(owner as usize)?;
        }
    }
    Ok(used)
}

/// Returns the place of the module that has the export at a place, if a module has it.
fn owner_at(items: &[ExportItem], place: Option<u32>) -> Option<u32>
    ensures { result ≡ owner_under items.now place }
{
    match item_at(items, place) {
        Some(item) => item.place(),
        None => None,
    }
}
