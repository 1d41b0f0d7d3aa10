// What a command writes: to its outputs, and whole files.
ghost use Rattle.std.specs.Prelude.{⊤};
ghost use Rattle.km_course.specs.Course.{says, says_any, warns, puts};
ghost use Rattle.km_course.specs.FollowsOn.{FollowsOnErr, FollowsOnFiles, FollowsOnOut};

use crate::Stop;
use km_names::PathText;
use outside_calls::{Out, ReplaceAnswer, Writes};
use std::alloc::Global;

/// Writes the bytes to the output, in one piece. A failed write stops the command with status 3.
pub fn say<O: Out>(out: &mut O, bytes: &[u8]) -> Result<(), Stop>
    ensures { FollowsOnOut (says bytes.now) O.seen out.old out.new result }
{
    match out.write(bytes) {
        Ok(()) => Ok(()),
        Err(_) => Err(Stop::OutputFault),
    }
}

/// Writes the bytes to the output if there are any.
pub fn say_any<O: Out>(out: &mut O, bytes: &[u8]) -> Result<(), Stop>
    ensures { FollowsOnOut (says_any bytes.now) O.seen out.old out.new result }
{
    if bytes.is_empty() {
        return Ok(());
    }
    say(out, bytes)
}

/// Writes the bytes to err, in one piece. A failed write stops the command with status 3.
pub fn warn<E: Out>(err: &mut E, bytes: &[u8]) -> Result<(), Stop>
    ensures { FollowsOnErr (warns bytes.now) E.seen err.old err.new result }
{
    match err.write(bytes) {
        Ok(()) => Ok(()),
        Err(_) => Err(Stop::WarningFault),
    }
}

/// Puts a file of these bytes at the path, whole or not at all. A failed replacement stops the
/// command with status 3.
pub fn put<F: Writes>(
    alloc: Global,
    files: &mut F,
    path: PathText,
    bytes: &[u8],
) -> Result<(), Stop>
    ensures { FollowsOnFiles (puts path bytes.now) F.seen files.old files.new result }
{
    match files.replace(alloc, &path, bytes) {
        Ok(()) => Ok(()),
        Err(ReplaceAnswer::Failed) => Err(Stop::FileFault { path }),
        Err(ReplaceAnswer::Memory) => Err(Stop::Memory),
    }
}
