// The modules that are to be loaded.
ghost use Rattle.std.specs.Prelude.{◌≤◌, length};
ghost use Rattle.km_names.specs.Limit.{file_limit};
ghost use Rattle.km_course.specs.FollowsOn.{FollowsOnFiles, Returns};
ghost use Rattle.stages_loads.specs.Modules.{file_outcome, reads_module};

use km_course::{Refusal, Stop, read_needed};
use km_names::{Blob, PathText, is_compressed, join};
use module_facts::{Module, ModuleFault, read_module};
use outside_calls::Reads;
use std::alloc::Global;

/// Reads the module at a path of the tree in the folder. A compressed one is refused unread.
/// Refusals name the whole path.
pub(crate) fn read_module_in<F: Reads>(
    alloc: Global,
    folder: &PathText,
    path: &PathText,
    files: &mut F,
) -> Result<Module, Stop>
    ensures { FollowsOnFiles (reads_module folder.now path.now) F.seen files.old files.new result }
{
    let file = join(alloc, folder, path.as_bytes())?;
    if is_compressed(path) {
        return Err(Stop::from(Refusal::Compressed { path: file }));
    }
    let bytes = read_needed(alloc, files, &file)?;
    check_module(alloc, file, path, bytes)
}

/// Returns the module of these bytes at a path of the tree, or the refusal of the file.
fn check_module(alloc: Global, file: PathText, path: &PathText, bytes: Blob) -> Result<Module, Stop>
    requires { length bytes ≤ file_limit }
    ensures { Returns (file_outcome file path.now bytes) result }
{
    match read_module(alloc, path, bytes) {
        Ok(module) => Ok(module),
        Err(fault) => match fault {
            ModuleFault::Memory => Err(Stop::Memory),
            ModuleFault::Compressed
            | ModuleFault::Object(_)
            | ModuleFault::NameTooLong
            | ModuleFault::BadName
            | ModuleFault::ExportTwice { .. }
            | ModuleFault::ExportUndefined { .. }
            | ModuleFault::BadVersions
            | ModuleFault::BadNamespace { .. } => {
                let text = fault.text(alloc)?;
                Err(Stop::from(Refusal::BadModule { path: file, text }))
            }
        },
    }
}
