// Everything that is exported, in order, and what needs it.
ghost use Rattle.std.specs.Prelude.{◌≡◌, ◌+◌, ◌<◌, ◌^◌, ◌++◌, length, map, option_copied};
ghost use Rattle.std.specs.Prelude.{option_and_then, slice_get, OnOk, IfOk, IfErr};
ghost use Rattle.name_table.specs.NameTable.{IsTableOf};
ghost use Rattle.provider_rel.specs.Faces.{modules_of, kernel_of};
ghost use Rattle.provider_rel.specs.Tree.{IsTree};
ghost use Rattle.provider_rel.specs.Items.{kernel_item, module_item, items as items_spec};
ghost use Rattle.provider_rel.specs.Items.{item_name, bound_of};

use crate::{RelationFault, TreeFacts};
use kernel_exports::Kernel;
use module_facts::{Facts, Needs};
use name_table::OwnedNameTable;
use std::alloc::{AllocError, Global};
use std::marker::Model;

/// An export: the place of the module that exports it, or none for the kernel; the path of its
/// exporter; and what is exported.
#[derive(Drop)]
pub(crate) struct ExportItem<'a> {
    place: Option<u32>,
    path: &'a [u8],
    name: &'a [u8],
    crc: Option<u64>,
    gpl: bool,
    space: &'a [u8],
}

impl<'a> Model for ExportItem<'a> {
    ghost use Rattle.provider_rel.specs.Items.{Item};

    ghost Value = { Item };

    ghost view = { λ i. record {
      place = i.place;
      path = i.path.now;
      export
          = record { name = i.name.now; crc = i.crc; gpl = i.gpl; space = i.space.now };
    } };
}

impl<'a> ExportItem<'a> {
    /// Returns the place of the module that exports it, none for the kernel.
    pub(crate) fn place(&self) -> Option<u32>
        ensures { result ≡ self.now.place }
    {
        self.place
    }

    /// Returns the path of its exporter.
    pub(crate) fn path(&self) -> &'a [u8]
        ensures { result.now ≡ self.now.path }
    {
        self.path
    }

    /// Returns its name.
    pub(crate) fn name(&self) -> &'a [u8]
        ensures { result.now ≡ self.now.export.name }
    {
        self.name
    }

    /// Returns its version.
    pub(crate) fn crc(&self) -> Option<u64>
        ensures { result ≡ self.now.export.crc }
    {
        self.crc
    }

    /// Returns whether it is for GPL-compatible modules only.
    pub(crate) fn gpl(&self) -> bool
        ensures { result ≡ self.now.export.gpl }
    {
        self.gpl
    }

    /// Returns its namespace.
    pub(crate) fn space(&self) -> &'a [u8]
        ensures { result.now ≡ self.now.export.space }
    {
        self.space
    }
}

/// Lists all exports: the kernel's, and then each module's in the order of the tree.
pub(crate) fn all_items<'a>(
    alloc: Global,
    tree: &'a TreeFacts,
    kernel: &'a Kernel,
) -> Result<Vec<ExportItem<'a>>, AllocError>
    requires { IsTree tree.now }
    ensures { IfOk result
        (λ items. items.items ≡ items_spec (modules_of tree.now) (kernel_of kernel.now)) }
{
    let mut items = Vec::new(alloc);
    push_kernel_items(&mut items, kernel)?;
    let modules = tree.as_slice();
    for i in 0..modules.len() {
        push_module_items(&mut items, &modules[i], i as u32)?;
    }
    Ok(items)
}

/// Makes the table of the names of exports, by their places. If the places don't fit in 32 bits, it
/// is out of memory.
pub(crate) fn names_of(alloc: Global, items: &[ExportItem]) -> Result<OwnedNameTable, RelationFault>
    ensures names { IfOk result (λ names. IsTableOf names (map item_name items.now)) }
    ensures few { OnOk result (length items.now < 2 ^ 32) }
    ensures err { IfErr result (λ fault. fault ≡ RelationFault.Memory) }
{
    if items.len() >= u32::MAX as usize {
        return Err(RelationFault::Memory);
    }
    let mut names = OwnedNameTable::new(alloc);
    for item in items {
        names.push(alloc, Some(item.name()))?;
    }
    Ok(names)
}

/// Finds for each need of each module of a tree the place of the first export of that name.
pub(crate) fn all_bound(
    alloc: Global,
    names: &OwnedNameTable,
    tree: &TreeFacts,
) -> Result<Vec<Vec<Option<u32>>>, AllocError>
    ensures { IfOk result
        (λ bound. map (λ b. b.items) bound.items ≡ map (λ f. bound_of names.now f.needs) tree.now) }
{
    let mut bound = Vec::new(alloc);
    for facts in tree.as_slice() {
        bound.push(bound_needs(alloc, names, &facts.needs)?)?;
    }
    Ok(bound)
}

/// Returns the export at a place, if there is one.
pub(crate) fn item_at<'s, 'a>(
    items: &'s [ExportItem<'a>],
    place: Option<u32>,
) -> Option<&'s ExportItem<'a>>
    ensures { option_copied result ≡ option_and_then (slice_get items.now) place }
{
    match place {
        Some(place) => items.get(place as usize),
        None => None,
    }
}

/// Adds the exports of a kernel.
fn push_kernel_items<'a>(
    items: &mut Vec<ExportItem<'a>>,
    kernel: &'a Kernel,
) -> Result<(), AllocError>
    ensures { OnOk result
        (items.new.items ≡ items.old.items ++ map kernel_item kernel.now.exports) }
{
    for export in kernel.exports.as_slice() {
        items.push(ExportItem {
            place: None,
            path: b"vmlinux",
            name: export.name.as_bytes(),
            crc: export.crc,
            gpl: export.gpl,
            space: export.space.as_bytes(),
        })?;
    }
    Ok(())
}

/// Adds the exports of the module at a place.
fn push_module_items<'a>(
    items: &mut Vec<ExportItem<'a>>,
    facts: &'a Facts,
    place: u32,
) -> Result<(), AllocError>
    ensures { OnOk result
        (items.new.items
        ≡ items.old.items ++ map (module_item place facts.now.path) facts.now.exports) }
{
    for export in facts.exports.as_slice() {
        items.push(ExportItem {
            place: Some(place),
            path: facts.path.as_bytes(),
            name: export.name.as_bytes(),
            crc: export.crc,
            gpl: export.gpl,
            space: export.space.as_bytes(),
        })?;
    }
    Ok(())
}

/// Finds for each need the place of the first export of its name.
fn bound_needs(
    alloc: Global,
    names: &OwnedNameTable,
    needs: &Needs,
) -> Result<Vec<Option<u32>>, AllocError>
    ensures { IfOk result (λ bound. bound.items ≡ bound_of names.now needs.now) }
{
    needs
        .as_slice()
        .iter()
        .map(|need| names.place(need.name.as_bytes()))
        .collect(alloc)
}
