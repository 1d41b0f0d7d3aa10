// The course of a removal: the files that it reads, and its steps.
ghost use Rattle.std.specs.Prelude.{◌≡◌, List, length};
ghost use Rattle.km_course.specs.FollowsOn.{FollowsOnFilesAndOut, FollowsOnOut};
ghost use Rattle.module_facts.specs.declared.module.Module.{Module};
ghost use Rattle.kernel_exports.specs.declared.kernel.Kernel.{Kernel};
ghost use Rattle.module_region.specs.declared.region.Region.{Region};
ghost use Rattle.model_loader.specs.Machine.{new_machine};
ghost use Rattle.laws_closed_plans.specs.Binding.{IsLoaded};
ghost use Rattle.command_remove.specs.Over.{removes_known, removes_over};
ghost use Rattle.command_remove.specs.Remove.{carries_out, removes, removes_listed, removes_names};
ghost use Rattle.command_remove.specs.Taken.{CanBeTakenOut};

use crate::lines::step_lines;
use crate::listed::take_listed;
use crate::plan::{check_chosen, steps_in};
use crate::unloads::unload_unless;
use km_course::{Stop, say_any};
use km_names::{Names, PathText};
use kmod_words::ModprobeWords;
use model_loader::{Machine, Region};
use outside_calls::{Out, Reads};
use remove_plan::RemovePlan;
use stages_files::modules_folder;
use stages_known::{Known, names_found, read_known};
use stages_loads::read_machine;
use std::alloc::Global;

/// What is to be removed.
#[derive(Drop)]
pub struct Removal {
    /// The names that are asked for.
    pub names: Names,
    /// Whether the blacklist applies to names too.
    pub use_blacklist: bool,
    /// Whether remove commands of the requested modules are ignored.
    pub ignore_remove: bool,
    /// Whether the steps are only printed.
    pub dry_run: bool,
}

/// Prints the steps that take the modules of the requested names out of the modelled machine of the
/// listed modules, with the symbols of this System.map. Unless it is a dry run, it takes them out,
/// and then prints a line for each module that is left. A removal that runs a command is refused.
/// modprobe(8), `-r`.
pub fn remove<F: Reads, O: Out>(
    alloc: Global,
    dry_run: bool,
    asked: ModprobeWords,
    system_map: PathText,
    files: &mut F,
    out: &mut O,
) -> Result<(), Stop>
    ensures { FollowsOnFilesAndOut (removes dry_run asked system_map)
        F.seen files.old files.new O.seen out.old out.new result }
{
    let region = asked.region();
    let folder = modules_folder(alloc, &asked.dirname, &asked.version)?;
    let ModprobeWords {
        use_blacklist,
        ignore_install,
        config,
        loaded,
        symvers,
        words,
        ..
    } = asked;
    let removal = Removal {
        names: words,
        use_blacklist,
        ignore_remove: ignore_install,
        dry_run,
    };
    let sources = Sources {
        config,
        loaded,
        system_map,
        symvers,
    };
    remove_over(alloc, &folder, &removal, sources, region, files, out)
}

/// The files that a removal reads, beside those of the folder of the kernel's modules.
#[derive(Drop)]
struct Sources {
    config: Option<PathText>,
    loaded: Option<PathText>,
    system_map: PathText,
    symvers: Option<PathText>,
}

/// Reads these files, and removes modules from a machine with this region.
fn remove_over<F: Reads, O: Out>(
    alloc: Global,
    folder: &PathText,
    removal: &Removal,
    sources: Sources,
    region: Region,
    files: &mut F,
    out: &mut O,
) -> Result<(), Stop>
    ensures { FollowsOnFilesAndOut
        (removes_over folder.now removal.now sources region)
        F.seen files.old files.new O.seen out.old out.new result }
{
    let Sources {
        config,
        loaded,
        system_map,
        symvers,
    } = sources;
    let known = read_known(alloc, config, folder, loaded, files)?;
    remove_known(
        alloc, folder, removal, &known, system_map, symvers, region, files, out,
    )
}

/// Reads the symbols of the kernel, and removes modules from a machine with this region.
fn remove_known<F: Reads, O: Out>(
    alloc: Global,
    folder: &PathText,
    removal: &Removal,
    known: &Known,
    system_map: PathText,
    symvers: Option<PathText>,
    region: Region,
    files: &mut F,
    out: &mut O,
) -> Result<(), Stop>
    ensures { FollowsOnFilesAndOut
        (removes_known folder.now removal.now known.now system_map symvers region)
        F.seen files.old files.new O.seen out.old out.new result }
{
    let machine = read_machine(alloc, system_map, symvers, region, files)?;
    remove_listed(alloc, folder, removal, known, machine, files, out)
}

/// Loads the listed modules, and removes the modules of the names.
fn remove_listed<F: Reads, O: Out>(
    alloc: Global,
    folder: &PathText,
    removal: &Removal,
    known: &Known,
    machine: Machine,
    files: &mut F,
    out: &mut O,
) -> Result<(), Stop>
    requires { (kernel : Kernel) × (region : Region) × (machine ≡ new_machine kernel region) }
    ensures { FollowsOnFilesAndOut (removes_listed folder.now removal.now known.now machine)
        F.seen files.old files.new O.seen out.old out.new result }
{
    let mut listed = take_listed(
        alloc,
        folder,
        &known.indexes,
        machine,
        known.loaded.as_slice(),
        files,
    )?;
    remove_names(alloc, removal, known, &mut listed, out)
}

/// Looks the names up, and removes the modules that they stand for.
fn remove_names<O: Out>(
    alloc: Global,
    removal: &Removal,
    known: &Known,
    listed: &mut Machine,
    out: &mut O,
) -> Result<(), Stop>
    requires { (kernel : Kernel) × (region : Region) × (ms : List Module)
        × IsLoaded kernel region ms listed.old }
    ensures { FollowsOnOut (removes_names removal.now known.now listed.old)
        O.seen out.old out.new result }
{
    let names = names_found(
        alloc,
        known,
        removal.use_blacklist,
        removal.names.as_slice(),
    )?;
    let steps = steps_in(alloc, &names, removal.ignore_remove, &known.rules, listed)?;
    carry_out(alloc, removal.dry_run, listed, &steps, out)
}

/// Prints the steps, and carries them out unless they are only printed.
fn carry_out<O: Out>(
    alloc: Global,
    dry_run: bool,
    machine: &mut Machine,
    steps: &RemovePlan,
    out: &mut O,
) -> Result<(), Stop>
    requires { CanBeTakenOut machine.old (length machine.old.entries) steps.now }
    ensures { FollowsOnOut (carries_out dry_run machine.old steps.now)
        O.seen out.old out.new result }
{
    check_chosen(alloc, dry_run, steps)?;
    let text = step_lines(alloc, steps)?;
    say_any(out, text.as_bytes())?;
    unload_unless(alloc, dry_run, machine, steps, out)
}
