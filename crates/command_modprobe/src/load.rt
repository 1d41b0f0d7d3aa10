// Plans that are loaded.
ghost use Rattle.std.specs.Prelude.{◌≡◌, ◌⊎◌, ◌++◌, OnOk, IfErr, None, Some, option_map};
ghost use Rattle.km_course.specs.FollowsOn.{FollowsOnFilesAndOut, Returns};
ghost use Rattle.command_modprobe.specs.Loaded.{command_owner, inserted, inserts_outcome};
ghost use Rattle.command_modprobe.specs.Loaded.{install_stop};
ghost use Rattle.command_modprobe.specs.Loaded.{loads_plan, loads_request, loads_steps};
ghost use Rattle.command_modprobe.specs.Parts.{loads_known};

use crate::basis::{Basis, read_basis};
use crate::plan::{plan_in, say_plan};
use km_course::{Refusal, Stop};
use km_names::{Blob, Name, PathText};
use kmod_words::{Mode, ModprobeWords};
use model_loader::{Machine, Region};
use outside_calls::{Out, Writes};
use plan_builder::{PlanStep, PlanSteps};
use stages_loads::{Images, Insertion, Insertions, load_all, load_listed, read_machine};
use std::alloc::Global;

/// Prints the plan for the requested names. It loads the plan's modules into the modelled machine
/// of this System.map, after those that are listed as loaded. A plan that runs a command is
/// refused. modprobe(8).
pub(crate) fn load_plan<F: Writes, O: Out>(
    alloc: Global,
    mut asked: ModprobeWords,
    system_map: PathText,
    files: &mut F,
    out: &mut O,
) -> Result<(), Stop>
    ensures { FollowsOnFilesAndOut (loads_plan asked system_map)
        F.seen files.old files.new O.seen out.old out.new result }
{
    let region = asked.region();
    let symvers = asked.symvers.take();
    let images = Images {
        folder: asked.image.take(),
        params: asked.params,
    };
    let basis = read_basis(alloc, asked, files)?;
    load_known(
        alloc, &images, &basis, system_map, symvers, region, files, out,
    )
}

/// Reads the machine, makes the plan of a request, and loads it.
fn load_known<F: Writes, O: Out>(
    alloc: Global,
    images: &Images,
    basis: &Basis,
    system_map: PathText,
    symvers: Option<PathText>,
    region: Region,
    files: &mut F,
    out: &mut O,
) -> Result<(), Stop>
    ensures { FollowsOnFilesAndOut
        (loads_known basis.now.folder images.now basis.now.request system_map symvers region
        basis.now.known)
        F.seen files.old files.new O.seen out.old out.new result }
{
    let machine = read_machine(alloc, system_map, symvers, region, files)?;
    load_request(alloc, images, basis, machine, files, out)
}

/// Makes the plan of a request, and loads it.
fn load_request<F: Writes, O: Out>(
    alloc: Global,
    images: &Images,
    basis: &Basis,
    machine: Machine,
    files: &mut F,
    out: &mut O,
) -> Result<(), Stop>
    ensures { FollowsOnFilesAndOut
        (loads_request basis.now.folder images.now basis.now.request basis.now.known machine)
        F.seen files.old files.new O.seen out.old out.new result }
{
    let steps = plan_in(alloc, Mode::Load, &basis.known, &basis.request)?;
    let inserts = inserts_of(alloc, &steps)?;
    load_steps(alloc, images, basis, machine, &steps, &inserts, files, out)
}

/// Loads the listed modules, prints the lines of a plan, and loads its modules.
fn load_steps<F: Writes, O: Out>(
    alloc: Global,
    images: &Images,
    basis: &Basis,
    machine: Machine,
    steps: &PlanSteps,
    inserts: &Insertions,
    files: &mut F,
    out: &mut O,
) -> Result<(), Stop>
    ensures { FollowsOnFilesAndOut
        (loads_steps basis.now.folder images.now basis.now.known machine steps.now inserts.now)
        F.seen files.old files.new O.seen out.old out.new result }
{
    let listed = load_listed(
        alloc,
        &basis.folder,
        &basis.known.indexes.dep,
        machine,
        basis.known.loaded.as_slice(),
        files,
    )?;
    say_plan(alloc, &basis.folder, steps, out)?;
    load_all(
        alloc,
        &basis.folder,
        images,
        listed,
        inserts.as_slice(),
        files,
        out,
    )?;
    Ok(())
}

/// Returns the modules that a plan loads, or the refusal of its first step that runs a command.
fn inserts_of(alloc: Global, steps: &PlanSteps) -> Result<Insertions, Stop>
    ensures { Returns (inserts_outcome steps.now) result }
{
    let mut inserts = Insertions::new(alloc);
    for step in steps.as_slice() {
        push_insert(alloc, &mut inserts, step)?;
    }
    Ok(inserts)
}

/// Adds the module that a step loads, if it loads one. A step that runs a command is refused.
fn push_insert(alloc: Global, inserts: &mut Insertions, step: &PlanStep) -> Result<(), Stop>
    ensures passed { OnOk result (command_owner step.now ≡ None) }
    ensures inserts { OnOk result (inserts.new ≡ inserts.old ++ inserted step.now) }
    ensures err { IfErr result
        (λ stop. (stop ≡ Stop.Memory)
        ⊎ (option_map install_stop (command_owner step.now) ≡ Some stop)) }
{
    match step {
        PlanStep::Insert { path, options, .. } => {
            let path = PathText::from_slice(alloc, path.as_bytes())?;
            let options = Blob::from_slice(alloc, options.as_bytes())?;
            inserts.push(Insertion { path, options })?;
            Ok(())
        }
        PlanStep::Install { name, .. } => {
            let name = Name::from_slice(alloc, name.as_bytes())?;
            Err(Stop::from(Refusal::InstallChosen { name }))
        }
        PlanStep::Builtin { .. } => Ok(()),
    }
}
