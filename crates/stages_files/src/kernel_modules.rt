ghost use Rattle.std.specs.Prelude.{◌≡◌, IfOk, option_copied};
ghost use Rattle.km_names.specs.Path.{underscored};
ghost use Rattle.km_course.specs.FollowsOn.{FollowsOnFiles, Returns};
ghost use Rattle.stages_files.specs.KernelModules.{modules_folder, path_listed, path_outcome};
ghost use Rattle.stages_files.specs.KernelModules.{reads_modules};

use crate::index_file::read_index;
use index_read::Index;
use index_read::plain::first_text;
use km_course::{Refusal, Stop};
use km_names::{Name, PathText, join, underscored};
use mod_tree::line_path;
use outside_calls::Reads;
use std::alloc::{AllocError, Global};

/// The modules of a kernel, as its modules.dep.bin lists them.
#[derive(Drop)]
pub struct KernelModules {
    /// The folder of the kernel's modules.
    pub folder: PathText,
    /// The folder's index from the names of modules to their dependency lines.
    pub index: Index,
}

/// Returns the folder of the modules of a kernel of this version, below a root. depmod(8),
/// modprobe(8).
pub fn modules_folder(
    alloc: Global,
    root: &PathText,
    version: &Name,
) -> Result<PathText, AllocError>
    ensures { IfOk result (λ folder. folder ≡ modules_folder root.now version.now) }
{
    let folder = join(alloc, root, b"lib/modules")?;
    join(alloc, &folder, version.as_bytes())
}

/// Reads the modules in the folder, by its modules.dep.bin.
pub fn read_modules<F: Reads>(
    alloc: Global,
    folder: PathText,
    files: &mut F,
) -> Result<KernelModules, Stop>
    ensures { FollowsOnFiles (reads_modules folder) F.seen files.old files.new result }
{
    let file = join(alloc, &folder, b"modules.dep.bin")?;
    let index = read_index(alloc, file, files)?;
    Ok(KernelModules { folder, index })
}

/// Returns the path of the module of this name, with each `-` replaced by `_`. A name that isn't
/// listed, or whose value is no dependency line, is not found.
pub fn path_of_name(alloc: Global, modules: &KernelModules, name: &[u8]) -> Result<PathText, Stop>
    ensures { Returns (path_outcome modules.now (underscored name.now)) result }
{
    let name = underscored(alloc, name)?;
    match path_listed(&modules.index, name.as_bytes()) {
        Some(path) => Ok(join(alloc, &modules.folder, path)?),
        None => Err(Stop::from(Refusal::NotFound { name })),
    }
}

/// Returns the path in the folder of the module of this name, by its dependency line. The result is
/// `None` if the name isn't listed, or its value is no dependency line. modules.dep(5).
#[tactic(auto, unfolding(crate::specs::IndexFile::first_text))]
pub fn path_listed<'a>(index: &'a Index, name: &[u8]) -> Option<&'a [u8]>
    ensures { option_copied result ≡ path_listed index.now name.now }
{
    match first_text(index, name) {
        Some(line) => line_path(line),
        None => None,
    }
}
