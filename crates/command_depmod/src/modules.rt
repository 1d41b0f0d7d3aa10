// The modules of a tree, each read and checked at its turn.
ghost use Rattle.std.specs.Prelude.{◌≤◌, length, IfOk};
ghost use Rattle.km_names.specs.Limit.{file_limit};
ghost use Rattle.km_course.specs.FollowsOn.{FollowsOnFiles, Returns};
ghost use Rattle.command_depmod.specs.Tree.{AreTreePaths};
ghost use Rattle.module_facts.specs.Faults.{fact_fault};
ghost use Rattle.provider_rel.specs.Tree.{IsTree};
ghost use Rattle.command_depmod.specs.Modules.{AreFactsAt, facts_outcome, reads_facts};
ghost use Rattle.command_depmod.specs.Modules.{reads_modules_facts};

use km_course::{Refusal, Stop, read_needed_into};
use km_names::{PathText, is_compressed, join};
use module_facts::{Facts, ModuleFault};
use outside_calls::{FileBuffer, Reads};
use provider_rel::TreeFacts;
use std::alloc::Global;

/// Reads the facts of the modules at the paths of a tree in the folder. One module's file is held
/// at a time, each in the memory of those before.
pub(crate) fn read_modules_facts<F: Reads>(
    alloc: Global,
    folder: &PathText,
    paths: &[PathText],
    files: &mut F,
) -> Result<TreeFacts, Stop>
    requires { AreTreePaths paths.now }
    ensures follows { FollowsOnFiles (reads_modules_facts folder.now paths.now)
        F.seen files.old files.new result }
    ensures tree { IfOk result (λ tree. IsTree tree) }
{
    let mut tree = TreeFacts::new(alloc);
    let mut buffer = FileBuffer::new(alloc);
    for path in paths {
        let facts = read_facts(alloc, folder, path, files, &mut buffer)?;
        tree.push(facts)?;
    }
    Ok(tree)
}

/// Reads the facts of the module at a path of the tree in the folder, whose file is read into the
/// buffer. A compressed one is refused unread.
fn read_facts<F: Reads>(
    alloc: Global,
    folder: &PathText,
    path: &PathText,
    files: &mut F,
    buffer: &mut FileBuffer,
) -> Result<Facts, Stop>
    ensures follows { FollowsOnFiles (reads_facts folder.now path.now)
        F.seen files.old files.new result }
    ensures facts { IfOk result (λ facts. AreFactsAt path.now facts) }
{
    if is_compressed(path) {
        let path = PathText::from_slice(alloc, path.as_bytes())?;
        return Err(Stop::from(Refusal::Compressed { path }));
    }
    let file = join(alloc, folder, path.as_bytes())?;
    read_needed_into(alloc, files, &file, buffer)?;
    check_facts(alloc, path, buffer.as_bytes())
}

/// Returns the facts of the module of these bytes at a path of the tree, or its refusal.
fn check_facts(alloc: Global, path: &PathText, bytes: &[u8]) -> Result<Facts, Stop>
    requires { length bytes.now ≤ file_limit }
    ensures answers { Returns (facts_outcome path.now bytes.now (fact_fault path.now bytes.now))
        result }
    ensures facts { IfOk result (λ facts. AreFactsAt path.now facts) }
{
    match module_facts::read_facts(alloc, path, bytes) {
        Ok(facts) => Ok(facts),
        Err(fault) => match fault {
            ModuleFault::Memory => Err(Stop::Memory),
            ModuleFault::Compressed
            | ModuleFault::Object(_)
            | ModuleFault::NameTooLong
            | ModuleFault::BadName
            | ModuleFault::ExportTwice { .. }
            | ModuleFault::ExportUndefined { .. }
            | ModuleFault::BadVersions
            | ModuleFault::BadNamespace { .. } => {
                let text = fault.text(alloc)?;
                let path = PathText::from_slice(alloc, path.as_bytes())?;
                Err(Stop::from(Refusal::BadModule { path, text }))
            }
        },
    }
}
