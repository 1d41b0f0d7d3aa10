// The end of a command: its line on err, and its exit status.

ghost use Rattle.std.specs.Prelude.{◌≡◌, ◌++◌, Err, IfOk, OnErr};
ghost use Rattle.outside_calls.specs.OutSeen.{WriteAnswers};
ghost use Rattle.km_course.specs.Carries.{Closes, Concludes, IsRefused, SaysOf, WritesLine};
ghost use Rattle.km_course.specs.Carries.{stop_line, stop_status, unwritten_status};
ghost use Rattle.km_course.specs.Conclusion.{conclusion_status};
ghost use Rattle.km_course.specs.Lines.{end_line};
ghost use Rattle.km_course.specs.declared.stop.Stop.TheVariants.{Ended, Memory};

use crate::{End, Stop};
use km_names::Blob;
use outside_calls::{Out, OutFailed};
use std::alloc::{AllocError, Global};

/// The line of a command that ran out of memory.
const MEMORY_LINE: &[u8] = b"kmod: out of memory\n";

/// How a command was concluded, which is what its exit status says.
#[derive(Clone, Copy, Debug, PartialEq, Eq)]
pub enum Conclusion {
    /// The command reached its end: status 0.
    Done,
    /// It was refused, or a file that it needs is missing or too large: status 1.
    Refused,
    /// Its words weren't understood: status 2.
    NotUnderstood,
    /// A call on files or an output failed: status 3.
    Fault,
    /// Out of memory: status 4.
    OutOfMemory,
}

impl Conclusion {
    /// Returns the exit status.
    fn status(self) -> u8
        ensures { result ≡ conclusion_status self }
    {
        match self {
            Conclusion::Done => 0,
            Conclusion::Refused => 1,
            Conclusion::NotUnderstood => 2,
            Conclusion::Fault => 3,
            Conclusion::OutOfMemory => 4,
        }
    }
}

/// Writes the line of a command's stop to err and returns the exit status. If the line can't be
/// written the status is 3, or 4 if the command or the text of its refusal ran out of memory. The
/// line of a failed call is written in pieces and takes no memory.
pub fn conclude<E: Out>(alloc: Global, outcome: Result<(), Stop>, err: &mut E) -> u8
    ensures { Concludes outcome (E.seen err.old) (E.seen err.new) result }
{
    concluded(alloc, outcome, err).status()
}

/// Writes the line of a command's stop to err, as [`conclude`] does, and returns the conclusion
/// that the exit status stands for.
pub fn concluded<E: Out>(alloc: Global, outcome: Result<(), Stop>, err: &mut E) -> Conclusion
    ensures { Concludes outcome (E.seen err.old) (E.seen err.new) (conclusion_status result) }
{
    match outcome {
        Ok(()) => Conclusion::Done,
        Err(stop) => {
            let conclusion = conclude_stop(alloc, &stop, err);
            drop(stop);
            conclusion
        }
    }
}

/// Writes the line of the stop to err and returns the conclusion. If the text of a refusal can't be
/// made, it is the line for that.
fn conclude_stop<E: Out>(alloc: Global, stop: &Stop, err: &mut E) -> Conclusion
    ensures { Concludes (Err stop.now) (E.seen err.old) (E.seen err.new)
        (conclusion_status result) }
{
    match said(alloc, stop) {
        Ok(text) => close(err, stop, text.as_bytes()),
        Err(_) => close_memory(err),
    }
}

/// Writes the line for want of memory to err, and returns its conclusion.
fn close_memory<E: Out>(err: &mut E) -> Conclusion
    ensures { Closes Memory (E.seen err.old) (E.seen err.new) (conclusion_status result) }
{
    let _ = err.write(MEMORY_LINE);
    Conclusion::OutOfMemory
}

/// Returns the text of the refusal, and nothing if the stop isn't a refusal.
fn said(alloc: Global, stop: &Stop) -> Result<Blob, AllocError>
    ensures ok { IfOk result (SaysOf stop.now) }
    ensures err { OnErr result (IsRefused stop.now) }
{
    match stop {
        Stop::Ended(End::Refused(refusal)) => refusal.text(alloc),
        Stop::Ended(
            End::NotUnderstood | End::NoFile { .. } | End::TooLarge { .. } | End::Inner { .. },
        )
        | Stop::FileFault { .. }
        | Stop::OutputFault
        | Stop::WarningFault
        | Stop::Memory => Ok(Blob::new(alloc)),
    }
}

/// Writes the line of the stop to err, and returns the conclusion. The text is the refusal's, if
/// the stop is one.
fn close<E: Out>(err: &mut E, stop: &Stop, text: &[u8]) -> Conclusion
    requires { SaysOf stop.now text.now }
    ensures { Closes stop.now (E.seen err.old) (E.seen err.new) (conclusion_status result) }
{
    match write_line(err, stop, text) {
        Ok(()) => written(stop),
        Err(_) => unwritten(stop),
    }
}

/// Returns the conclusion of a stop whose line was written.
fn written(stop: &Stop) -> Conclusion
    ensures { conclusion_status result ≡ stop_status stop.now }
{
    match stop {
        Stop::Ended(End::NotUnderstood) => Conclusion::NotUnderstood,
        Stop::Ended(
            End::Refused(_) | End::NoFile { .. } | End::TooLarge { .. } | End::Inner { .. },
        ) => Conclusion::Refused,
        Stop::FileFault { .. } | Stop::OutputFault | Stop::WarningFault => Conclusion::Fault,
        Stop::Memory => Conclusion::OutOfMemory,
    }
}

/// Returns the conclusion of a stop whose line couldn't be written.
fn unwritten(stop: &Stop) -> Conclusion
    ensures { conclusion_status result ≡ unwritten_status stop.now }
{
    match stop {
        Stop::Ended(_) | Stop::FileFault { .. } | Stop::OutputFault | Stop::WarningFault => {
            Conclusion::Fault
        }
        Stop::Memory => Conclusion::OutOfMemory,
    }
}

fn write_line<E: Out>(err: &mut E, stop: &Stop, text: &[u8]) -> Result<(), OutFailed>
    requires { SaysOf stop.now text.now }
    ensures { WritesLine (stop_line stop.now) (E.seen err.old) (E.seen err.new) result }
{
    match stop {
        Stop::Ended(end) => write_end(err, end, text),
        Stop::FileFault { path } => write_around(err, b"kmod: file fault ", path.as_bytes(), b"\n"),
        Stop::OutputFault => err.write(b"kmod: output fault\n"),
        Stop::WarningFault => Ok(()),
        Stop::Memory => err.write(MEMORY_LINE),
    }
}

fn write_end<E: Out>(err: &mut E, end: &End, text: &[u8]) -> Result<(), OutFailed>
    requires { SaysOf (Ended end.now) text.now }
    ensures { WriteAnswers (end_line end.now) (E.seen err.old) (E.seen err.new) result }
{
    match end {
        End::Refused(_) => write_around(err, b"kmod: ", text, b"\n"),
        End::NotUnderstood => err.write(
            b"kmod: usage: kmod depmod|modprobe|modinfo|trial|static-nodes|builtin-alias WORDS\n",
        ),
        End::NoFile { path } => write_around(err, b"kmod: no file ", path.as_bytes(), b"\n"),
        End::TooLarge { path } => write_around(err, b"kmod: ", path.as_bytes(), b": too large\n"),
        End::Inner { line } => err.write(line.as_bytes()),
    }
}

/// Writes three pieces, one after the other.
fn write_around<E: Out>(
    err: &mut E,
    before: &[u8],
    middle: &[u8],
    after: &[u8],
) -> Result<(), OutFailed>
    ensures { WriteAnswers ((before.now ++ middle.now) ++ after.now) (E.seen err.old)
        (E.seen err.new) result }
{
    err.write(before)?;
    err.write(middle)?;
    err.write(after)
}
