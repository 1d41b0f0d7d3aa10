// The modules that are listed as loaded.
ghost use Rattle.std.specs.Prelude.{◌≡◌, IfOk, option_copied};
ghost use Rattle.km_course.specs.FollowsOn.{FollowsOnFiles};
ghost use Rattle.stages_loads.specs.Listed.{loads_listed, loads_listed_one};
ghost use Rattle.command_remove.specs.Listed.{well_formed_path};

use km_course::Stop;
use km_names::{Name, PathText};
use model_loader::Machine;
use name_lookup::Indexes;
use outside_calls::Reads;
use plan_builder::well_formed;
use stages_files::path_listed;
use stages_loads::load_listed_at;
use std::alloc::{AllocError, Global};

/// Loads the modules that are listed as loaded, the oldest first, from the folder of the kernel's
/// modules. The list has the newest first. Nothing is written. A name whose value in
/// modules.dep.bin isn't well formed ends the command, and so does a module whose load is refused.
pub(crate) fn take_listed<F: Reads>(
    alloc: Global,
    folder: &PathText,
    indexes: &Indexes,
    mut machine: Machine,
    names: &[Name],
    files: &mut F,
) -> Result<Machine, Stop>
    ensures { FollowsOnFiles
        (loads_listed folder.now (well_formed_path indexes.now) machine names.now)
        F.seen files.old files.new result }
{
    let mut left = names.len();
    while left > 0 {
        left -= 1;
        machine = take_listed_one(alloc, folder, indexes, machine, &names[left], files)?;
    }
    Ok(machine)
}

/// Loads the listed module of a name.
fn take_listed_one<F: Reads>(
    alloc: Global,
    folder: &PathText,
    indexes: &Indexes,
    machine: Machine,
    name: &Name,
    files: &mut F,
) -> Result<Machine, Stop>
    ensures { FollowsOnFiles
        (loads_listed_one folder.now (well_formed_path indexes.now) machine name.now)
        F.seen files.old files.new result }
{
    let found = well_formed_path(alloc, indexes, name)?;
    load_listed_at(alloc, folder, machine, name, found, files)
}

/// Returns the path in the folder of the module of a name, if its value in modules.dep.bin is well
/// formed. modules.dep(5).
fn well_formed_path<'a>(
    alloc: Global,
    indexes: &'a Indexes,
    name: &Name,
) -> Result<Option<&'a [u8]>, AllocError>
    ensures { IfOk result (λ path. option_copied path ≡ well_formed_path indexes.now name.now) }
{
    if well_formed(alloc, name, indexes)? {
        Ok(path_listed(&indexes.dep, name.as_bytes()))
    } else {
        Ok(None)
    }
}
