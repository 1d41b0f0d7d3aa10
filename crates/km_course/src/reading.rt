// Reads of files and listings of folders, each with the stage that it follows. The path is copied
// before the call, since the stop of a failed call takes no memory.
ghost use Rattle.std.specs.Prelude.{◌≡◌, ◌≤◌, length, IfOk, OnOk};
ghost use Rattle.km_names.specs.Limit.{file_limit};
ghost use Rattle.km_course.specs.Course.{reads, reads_any, lists_conf, lists_any_conf, lists_tree};
ghost use Rattle.km_course.specs.Follows.{stop_for};
ghost use Rattle.km_course.specs.FollowsOn.{FollowsOnFiles, FollowsOnFilesAs};

use crate::{End, Stop};
use km_names::{Blob, Names, PathText, Paths};
use outside_calls::{FileAnswer, FileBuffer, Files, Reads};
use std::alloc::Global;

/// Reads the file at the path, which is needed. An absent file and one past the limit end the
/// command with status 1, and a failed read stops it with status 3.
pub fn read_needed<F: Reads>(alloc: Global, files: &mut F, path: &PathText) -> Result<Blob, Stop>
    ensures follows { FollowsOnFiles (reads path.now) F.seen files.old files.new result }
    ensures limit { IfOk result (λ bytes. length bytes ≤ file_limit) }
{
    let named = PathText::from_slice(alloc, path.as_bytes())?;
    match files.read(alloc, path) {
        Ok(bytes) => Ok(bytes),
        Err(answer) => Err(stop_at(answer, named)),
    }
}

/// Reads the file at the path into the buffer. It is needed, as in [`read_needed`].
pub fn read_needed_into<F: Reads>(
    alloc: Global,
    files: &mut F,
    path: &PathText,
    buffer: &mut FileBuffer,
) -> Result<(), Stop>
    ensures follows { FollowsOnFilesAs (λ done. buffer.new) (reads path.now) F.seen files.old
        files.new result }
    ensures limit { OnOk result (length buffer.new ≤ file_limit) }
{
    let named = PathText::from_slice(alloc, path.as_bytes())?;
    match files.read_into(alloc, path, buffer) {
        Ok(()) => Ok(()),
        Err(answer) => Err(stop_at(answer, named)),
    }
}

/// Reads the file at the path. Returns no bytes if nothing is there.
pub fn read_optional<F: Reads>(alloc: Global, files: &mut F, path: &PathText) -> Result<Blob, Stop>
    ensures follows { FollowsOnFiles (reads_any path.now) F.seen files.old files.new result }
    ensures limit { IfOk result (λ bytes. length bytes ≤ file_limit) }
{
    let named = PathText::from_slice(alloc, path.as_bytes())?;
    match files.read(alloc, path) {
        Ok(bytes) => Ok(bytes),
        Err(answer) => match answer {
            FileAnswer::Absent => Ok(Blob::new(alloc)),
            FileAnswer::Failed | FileAnswer::TooLarge { .. } | FileAnswer::Memory => {
                Err(stop_at(answer, named))
            }
        },
    }
}

/// Lists the names of the configuration files in the folder, which is needed.
pub fn list_conf_needed<F: Reads>(
    alloc: Global,
    files: &mut F,
    dir: &PathText,
) -> Result<Names, Stop>
    ensures { FollowsOnFiles (lists_conf dir.now) F.seen files.old files.new result }
{
    let named = PathText::from_slice(alloc, dir.as_bytes())?;
    match files.list_conf(alloc, dir) {
        Ok(names) => Ok(names),
        Err(answer) => Err(stop_at(answer, named)),
    }
}

/// Lists the names of the configuration files in the folder. Returns none if nothing is there.
pub fn list_conf_optional<F: Reads>(
    alloc: Global,
    files: &mut F,
    dir: &PathText,
) -> Result<Names, Stop>
    ensures { FollowsOnFiles (lists_any_conf dir.now) F.seen files.old files.new result }
{
    let named = PathText::from_slice(alloc, dir.as_bytes())?;
    match files.list_conf(alloc, dir) {
        Ok(names) => Ok(names),
        Err(answer) => match answer {
            FileAnswer::Absent => Ok(Names::new(alloc)),
            FileAnswer::Failed | FileAnswer::TooLarge { .. } | FileAnswer::Memory => {
                Err(stop_at(answer, named))
            }
        },
    }
}

/// Lists the paths of all files below the folder, relative to it. The folder is needed.
pub fn list_tree_needed<F: Files>(
    alloc: Global,
    files: &mut F,
    dir: &PathText,
) -> Result<Paths, Stop>
    ensures { FollowsOnFiles (lists_tree dir.now) F.seen files.old files.new result }
{
    let named = PathText::from_slice(alloc, dir.as_bytes())?;
    match files.list_tree(alloc, dir) {
        Ok(paths) => Ok(paths),
        Err(answer) => Err(stop_at(answer, named)),
    }
}

/// Returns the stop of a command after a refused call on files at the path, if what it asks for is
/// needed.
fn stop_at(answer: FileAnswer, path: PathText) -> Stop
    ensures { result ≡ stop_for answer path }
{
    match answer {
        FileAnswer::Absent => Stop::Ended(End::NoFile { path }),
        FileAnswer::Failed => Stop::FileFault { path },
        FileAnswer::TooLarge { length: _ } => Stop::Ended(End::TooLarge { path }),
        FileAnswer::Memory => Stop::Memory,
    }
}
