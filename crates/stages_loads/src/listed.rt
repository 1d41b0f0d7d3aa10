// The modules that are listed as loaded.
ghost use Rattle.std.specs.Prelude.{option_copied};
ghost use Rattle.stages_files.specs.KernelModules.{path_listed};
ghost use Rattle.km_course.specs.FollowsOn.{FollowsOnFiles, Returns};
ghost use Rattle.stages_loads.specs.Listed.{listed_outcome, loads_listed, loads_listed_at};
ghost use Rattle.stages_loads.specs.Listed.{loads_listed_one};
ghost use Rattle.stages_loads.specs.Read.{loads_listed_file};

use crate::load::{Cause, load};
use crate::module::read_module_in;
use index_read::Index;
use km_course::{Refusal, Stop};
use km_names::{Name, PathText};
use model_loader::Machine;
use outside_calls::Reads;
use stages_files::path_listed;
use std::alloc::Global;

/// Loads the modules that are listed as loaded, the oldest first, from the folder of the kernel's
/// modules. The folder's modules.dep.bin is the index, and the list has the newest first. Nothing
/// is written. A name that the index doesn't have, or whose value is no dependency line, ends the
/// command with a line of its own. So does a module whose load is refused. modprobe(8), proc(5).
pub fn load_listed<F: Reads>(
    alloc: Global,
    folder: &PathText,
    index: &Index,
    mut machine: Machine,
    names: &[Name],
    files: &mut F,
) -> Result<Machine, Stop>
    ensures { FollowsOnFiles (loads_listed folder.now (path_listed index.now) machine names.now)
        F.seen files.old files.new result }
{
    let mut left = names.len();
    while left > 0 {
        left -= 1;
        machine = load_listed_one(alloc, folder, index, machine, &names[left], files)?;
    }
    Ok(machine)
}

/// Loads the listed module of a name that has this path in the folder, if it has one. A name
/// without a path ends the command with a line of its own, and so does a module whose load is
/// refused. modprobe(8).
pub fn load_listed_at<F: Reads>(
    alloc: Global,
    folder: &PathText,
    machine: Machine,
    name: &Name,
    found: Option<&[u8]>,
    files: &mut F,
) -> Result<Machine, Stop>
    ensures { FollowsOnFiles
        (loads_listed_at folder.now machine name.now (option_copied found.entry))
        F.seen files.old files.new result }
{
    let path = path_of_listed(alloc, name, found)?;
    load_listed_file(alloc, folder, machine, &path, files)
}

/// Loads the listed module of a name.
fn load_listed_one<F: Reads>(
    alloc: Global,
    folder: &PathText,
    index: &Index,
    machine: Machine,
    name: &Name,
    files: &mut F,
) -> Result<Machine, Stop>
    ensures { FollowsOnFiles (loads_listed_one folder.now (path_listed index.now) machine name.now)
        F.seen files.old files.new result }
{
    let found = path_listed(index, name.as_bytes());
    load_listed_at(alloc, folder, machine, name, found, files)
}

/// Returns the path in the folder of the listed module of a name, or its refusal.
fn path_of_listed(alloc: Global, name: &Name, found: Option<&[u8]>) -> Result<PathText, Stop>
    ensures { Returns (listed_outcome name.now (option_copied found.entry)) result }
{
    match found {
        Some(path) => Ok(PathText::from_slice(alloc, path)?),
        None => {
            let name = Name::from_slice(alloc, name.as_bytes())?;
            Err(Stop::from(Refusal::ListedNotFound { name }))
        }
    }
}

/// Loads the listed module at a path in the folder.
fn load_listed_file<F: Reads>(
    alloc: Global,
    folder: &PathText,
    machine: Machine,
    path: &PathText,
    files: &mut F,
) -> Result<Machine, Stop>
    ensures { FollowsOnFiles (loads_listed_file folder.now machine path.now)
        F.seen files.old files.new result }
{
    let module = read_module_in(alloc, folder, path, files)?;
    let after = load(alloc, Cause::Listed, machine, &module);
    drop(module);
    after
}
