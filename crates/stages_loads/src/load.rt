// Loads of the modules of a plan.
ghost use Rattle.std.specs.Prelude.{◌≡◌, Err, IfOk};
ghost use Rattle.km_course.specs.FollowsOn.{FollowsOnFilesAndOut, Returns};
ghost use Rattle.load_fault.specs.FaultText.{load_fault_text};
ghost use Rattle.model_loader.specs.Step.{step};
ghost use Rattle.stages_loads.specs.Loads.{load_outcome, load_refusal, loads_all, loads_one};
ghost use Rattle.stages_loads.specs.Read.{loads_read};

use crate::module::read_module_in;
use crate::shown::{Images, show_load};
use km_course::{Refusal, Stop};
use km_names::{Blob, List, Name, PathText};
use model_loader::{LoadFault, Machine};
use module_facts::Module;
use outside_calls::{Out, Writes};
use std::alloc::{AllocError, Global};

/// Why a module is loaded.
#[derive(Clone, Copy)]
pub enum Cause {
    /// It is listed as loaded.
    Listed,
    /// It is one of a plan.
    Planned,
}

/// A module that is to be loaded.
#[derive(Drop)]
pub struct Insertion {
    /// Its path in the tree of the folder.
    pub path: PathText,
    /// Its options.
    pub options: Blob,
}

/// Modules that are to be loaded, in order.
pub type Insertions = List<Insertion>;

/// Loads modules of the tree in the folder, one after the other. Each is read and checked and goes
/// into the machine. Then its image is shown, and the one with its parameters if those are asked
/// for. The first refusal ends the command, and what was loaded and shown before it stays.
/// modprobe(8).
pub fn load_all<F: Writes, O: Out>(
    alloc: Global,
    folder: &PathText,
    images: &Images,
    mut machine: Machine,
    inserts: &[Insertion],
    files: &mut F,
    out: &mut O,
) -> Result<Machine, Stop>
    ensures { FollowsOnFilesAndOut (loads_all folder.now images.now machine inserts.now)
        F.seen files.old files.new O.seen out.old out.new result }
{
    for insert in inserts {
        machine = load_one(alloc, folder, images, machine, insert, files, out)?;
    }
    Ok(machine)
}

/// Returns the machine with the module, or the refusal of the load.
pub(crate) fn load(
    alloc: Global,
    cause: Cause,
    mut machine: Machine,
    module: &Module,
) -> Result<Machine, Stop>
    ensures { Returns (load_outcome cause «module».now.facts.name (step machine «module».now))
        result }
{
    match machine.load(module) {
        Ok(_) => Ok(machine),
        Err(fault) => {
            let stop = load_stop(alloc, cause, &module.facts.name, &fault);
            drop(fault);
            Err(stop)
        }
    }
}

/// Loads a module of the tree in the folder, and gives the machine after it.
fn load_one<F: Writes, O: Out>(
    alloc: Global,
    folder: &PathText,
    images: &Images,
    machine: Machine,
    insert: &Insertion,
    files: &mut F,
    out: &mut O,
) -> Result<Machine, Stop>
    ensures { FollowsOnFilesAndOut (loads_one folder.now images.now machine insert.now)
        F.seen files.old files.new O.seen out.old out.new result }
{
    let module = read_module_in(alloc, folder, &insert.path, files)?;
    let options = &insert.options;
    let after = load_read(alloc, images, machine, &module, options, files, out);
    drop(module);
    after
}

/// Returns the stop for a load that is refused for this fault.
fn load_stop(alloc: Global, cause: Cause, name: &Name, fault: &LoadFault) -> Stop
    ensures memory { fault.now ≡ LoadFault.Memory → result ≡ Stop.Memory }
    ensures refused { Returns (load_outcome cause name.now (Err fault.now)) (Err result) }
{
    match fault {
        LoadFault::Memory => Stop::Memory,
        LoadFault::AlreadyLoaded
        | LoadFault::MissingSymbol { .. }
        | LoadFault::GplOnly { .. }
        | LoadFault::VersionDiffers { .. }
        | LoadFault::NotImported { .. }
        | LoadFault::ExportTaken { .. }
        | LoadFault::RegionFull { .. }
        | LoadFault::Overflow { .. } => match refused(alloc, cause, name, fault) {
            Ok(refusal) => Stop::from(refusal),
            Err(_) => Stop::Memory,
        },
    }
}

/// Loads a module that was read and shows it, and gives the machine after it.
fn load_read<F: Writes, O: Out>(
    alloc: Global,
    images: &Images,
    machine: Machine,
    module: &Module,
    options: &Blob,
    files: &mut F,
    out: &mut O,
) -> Result<Machine, Stop>
    ensures { FollowsOnFilesAndOut (loads_read images.now options.now machine «module».now)
        F.seen files.old files.new O.seen out.old out.new result }
{
    let after = load(alloc, Cause::Planned, machine, module)?;
    show_load(alloc, images, &after, module, options, files, out)?;
    Ok(after)
}

/// Returns the refusal of a load for this fault.
fn refused(
    alloc: Global,
    cause: Cause,
    name: &Name,
    fault: &LoadFault,
) -> Result<Refusal, AllocError>
    ensures { IfOk result
        (λ refusal. refusal ≡ load_refusal cause name.now (load_fault_text fault.now)) }
{
    let text = fault.text(alloc)?;
    let name = Name::from_slice(alloc, name.as_bytes())?;
    Ok(match cause {
        Cause::Listed => Refusal::ListedRefused { name, text },
        Cause::Planned => Refusal::LoadRefused { name, text },
    })
}
