// The entry of a module, made before the machine is changed.

ghost use Rattle.std.specs.Prelude.{◌≡◌, ◌<◌, ◌^◌, ◌/◌, ◌⊎◌, All, None, Some, OnOk, IfErr, IfOk};
ghost use Rattle.std.specs.Prelude.{length, map};
ghost use Rattle.km_names.specs.First.{first};
ghost use Rattle.model_loader.specs.declared.entry.Entry.{Entry};
ghost use Rattle.model_loader.specs.declared.prepare.Prepared.{Prepared};
ghost use Rattle.model_loader.specs.Machine.{Machine};
ghost use Rattle.model_loader.specs.Gap.{gap};
ghost use Rattle.model_loader.specs.Runs.{IsPaged, run_of};
ghost use Rattle.export_table.specs.Standing.{export_pair, named_pair};
ghost use Rattle.model_loader.specs.Standing.{Keeps};
ghost use Rattle.model_loader.specs.Parts.{HasParts, entry_by};
ghost use Rattle.model_loader.specs.Step.{entry_at, module_base, module_size, named_pages};
ghost use Rattle.model_loader.specs.Step.{overflow_fault, placement_tests, refusal};

use crate::entry::{Entry, LoadedModule};
use crate::gap::lowest_gap;
use crate::names::check_names;
use crate::parts::{bound_needs, copied_names};
use crate::{LoadFault, Region};
use elf_format::PAGE;
use export_table::{ExportTable, Named, given_addresses, named_exports, placed_exports};
use image_layout::{Layout, addresses, image_at, image_size};
use km_names::Name;
use module_facts::Module;
use raw_image::Image;
use std::alloc::{AllocError, Global};
use std::collections::VecDeque;

/// The entry of a module, and the table's entries for its exports.
#[derive(Drop)]
pub(crate) struct Prepared {
    pub(crate) entry: Entry,
    pub(crate) named: VecDeque<Named>,
}

/// Returns the entry of a module in the lowest gap of a region, after all tests of a load, over the
/// machine that has these entries and whose exported names are in a table.
pub(crate) fn ready(
    alloc: Global,
    region: &Region,
    entries: &[Entry],
    table: &ExportTable,
    module: &Module,
) -> Result<Prepared, LoadFault>
    requires { All (λ (e : Entry). IsPaged (run_of e)) entries.now }
    ensures entry { IfOk result (λ p. (machine : Machine)
        → HasParts machine region.now entries.now table.now
        → p.entry ≡ entry_at machine «module».now (module_base machine «module».now)) }
    ensures named { IfOk result
        (λ p. map named_pair p.named.items
        ≡ map (export_pair (Some p.entry.loaded.name)) p.entry.exports) }
    ensures passed { OnOk result ((machine : Machine)
        → HasParts machine region.now entries.now table.now
        → refusal machine «module».now ≡ None) }
    ensures fault { IfErr result (λ e. (machine : Machine)
        → HasParts machine region.now entries.now table.now
        → (e ≡ LoadFault.Memory) ⊎ (refusal machine «module».now ≡ Some e)) }
{
    check_names(alloc, entries, table, &module.facts)?;
    prepare(alloc, region, entries, table, module)
}

/// Returns the entry of a module in the lowest gap of a region, after the tests of its place.
fn prepare(
    alloc: Global,
    region: &Region,
    entries: &[Entry],
    table: &ExportTable,
    module: &Module,
) -> Result<Prepared, LoadFault>
    requires { All (λ (e : Entry). IsPaged (run_of e)) entries.now }
    ensures entry { IfOk result (λ p. (machine : Machine)
        → HasParts machine region.now entries.now table.now
        → p.entry ≡ entry_at machine «module».now (module_base machine «module».now)) }
    ensures named { IfOk result
        (λ p. map named_pair p.named.items
        ≡ map (export_pair (Some p.entry.loaded.name)) p.entry.exports) }
    ensures passed { OnOk result ((machine : Machine)
        → HasParts machine region.now entries.now table.now
        → first (placement_tests machine «module».now) ≡ None) }
    ensures fault { IfErr result (λ e. (machine : Machine)
        → HasParts machine region.now entries.now table.now
        → (e ≡ LoadFault.Memory) ⊎ (first (placement_tests machine «module».now) ≡ Some e)) }
{
    let size = image_size(&module.object);
    let gap = lowest_gap(alloc, region, entries, size)?;
    let Some(base) = gap else {
        return Err(LoadFault::RegionFull {
            pages: named_pages(size),
        });
    };
    if size >= 1 << 63 {
        return Err(LoadFault::Memory);
    }
    let entry = entry_of(alloc, table, module, base)?;
    let named = named_exports(alloc, entry.loaded.name.as_bytes(), &entry.exports)?;
    Ok(Prepared { entry, named })
}

/// Returns the number of pages of this many bytes, as a refusal states it.
fn named_pages(size: u128) -> u64
    ensures { result ≡ named_pages (size / 4096) }
{
    let pages = size / u128::from(PAGE);
    if pages < 1 << 64 {
        pages as u64
    } else {
        u64::MAX
    }
}

/// Returns the entry of a module at a base, over the machine whose exported names are in a table.
fn entry_of(
    alloc: Global,
    table: &ExportTable,
    module: &Module,
    base: u64,
) -> Result<Entry, LoadFault>
    requires { module_size «module».now < 2 ^ 63 }
    ensures entry { IfOk result
        (λ e. (machine : Machine) → Keeps table.now machine
        → e ≡ entry_at machine «module».now base) }
    ensures fits { OnOk result
        ((machine : Machine) → Keeps table.now machine
        → overflow_fault machine «module».now base ≡ None) }
    ensures fault { IfErr result (λ e. (machine : Machine) → Keeps table.now machine
        → (e ≡ LoadFault.Memory) ⊎ (overflow_fault machine «module».now base ≡ Some e)) }
{
    let object = &module.object;
    let layout = Layout::new(alloc, object)?;
    let given = given_addresses(alloc, table, &module.facts, object.symbol_count())?;
    let addresses = addresses(alloc, object, &layout, base, &given)?;
    let image = match image_at(alloc, object, &layout, base, &addresses) {
        Ok(image) => image,
        Err(fault) => return Err(LoadFault::from(fault)),
    };
    Ok(entry_with(alloc, module, base, image, &addresses)?)
}

/// Returns the entry of a module at a base, by its image and the addresses of its symbols.
fn entry_with(
    alloc: Global,
    module: &Module,
    base: u64,
    image: Image,
    addresses: &[u64],
) -> Result<Entry, AllocError>
    requires { length addresses.now ≡ length «module».now.object.symbols }
    ensures { IfOk result (λ e. e ≡ entry_by «module».now base image addresses.now) }
{
    let facts = &module.facts;
    let size = image.as_bytes().len() as u64;
    Ok(Entry {
        loaded: LoadedModule {
            name: Name::from_slice(alloc, facts.name.as_bytes())?,
            base,
            size,
        },
        image,
        free: facts.free,
        imports: copied_names(alloc, &facts.imports)?,
        exports: placed_exports(alloc, &facts.exports, addresses)?,
        needs: bound_needs(alloc, &facts.needs)?,
    })
}
