// The commands inside a trial.
ghost use Rattle.std.specs.Prelude.{◌≡◌, true, IfOk};
ghost use Rattle.outside_calls.specs.MemFilesSeen.{no_kind_listed};
ghost use Rattle.km_course.specs.Follows.{Answers};
ghost use Rattle.km_course.specs.Inner.{inner_outcome};
ghost use Rattle.command_depmod.specs.Depmod.{depmod_course};
ghost use Rattle.command_modprobe.specs.Modprobe.{modprobe_course};
ghost use Rattle.command_trial.specs.Trial.{inner_room};
ghost use Rattle.command_trial.specs.Words.{depmod_words, modprobe_words};

use crate::handed::{bytes_from, hand_on};
use crate::words::{depmod_words, modprobe_words};
use command_depmod::depmod;
use command_modprobe::modprobe;
use km_course::{Stop, concluded};
use outside_calls::{MemFiles, MemOut};
use std::alloc::Global;

/// The capacity in bytes of each output of a command inside.
const ROOM: usize = 4_194_304;

/// Indexes the made tree in these files, whose calls don't fail, and gives what depmod wrote to its
/// output. If an output is full the trial is refused. Any other end of depmod is the trial's.
pub(crate) fn index_made(alloc: Global, files: &mut MemFiles) -> Result<MemOut, Stop>
    requires { no_kind_listed files.old.kinds ≡ true }
    ensures left { Answers (λ out. record { files = files.new.contents; out = out.bytes })
        (inner_outcome inner_room ((depmod_course depmod_words).run files.old.contents)
        files.old.contents) result }
    ensures sure { IfOk result (λ out. no_kind_listed files.new.kinds ≡ true) }
{
    let words = depmod_words(alloc)?;
    let mut out = MemOut::with_room(alloc, ROOM)?;
    let mut err = MemOut::with_room(alloc, ROOM)?;
    let outcome = depmod(alloc, words.as_slice(), files, &mut out, &mut err);
    let warned = err.bytes().len();
    let conclusion = concluded(alloc, outcome, &mut err);
    hand_on(alloc, conclusion, bytes_from(err.bytes(), warned))?;
    Ok(out)
}

/// Loads this many modules of the made tree in these files, whose calls don't fail, and gives what
/// modprobe wrote to its output. If an output is full the trial is refused. Any other end of
/// modprobe is the trial's.
pub(crate) fn load_made(alloc: Global, count: u32, files: &mut MemFiles) -> Result<MemOut, Stop>
    requires { no_kind_listed files.old.kinds ≡ true }
    ensures { Answers (λ out. record { files = files.new.contents; out = out.bytes })
        (inner_outcome inner_room ((modprobe_course (modprobe_words count)).run files.old.contents)
        files.old.contents) result }
{
    let words = modprobe_words(alloc, count)?;
    let mut out = MemOut::with_room(alloc, ROOM)?;
    let mut err = MemOut::with_room(alloc, ROOM)?;
    let outcome = modprobe(alloc, words.as_slice(), files, &mut out);
    let conclusion = concluded(alloc, outcome, &mut err);
    hand_on(alloc, conclusion, err.bytes())?;
    Ok(out)
}
