// How a trial goes on after a command inside.
ghost use Rattle.std.specs.Prelude.{◌≡◌, drop};
ghost use Rattle.km_course.specs.Course.{Outcome};
ghost use Rattle.km_course.specs.Inner.{Left};
ghost use Rattle.km_course.specs.Follows.{Answers};
ghost use Rattle.command_trial.specs.Inside.{Came};

use km_course::{Conclusion, End, Refusal, Stop};
use km_names::Blob;
use std::alloc::Global;

/// Returns how a command inside stops the trial, by its conclusion and the line that it wrote. The
/// trial goes on if the command is done.
pub(crate) fn hand_on(alloc: Global, conclusion: Conclusion, line: &[u8]) -> Result<(), Stop>
    ensures { (outcome : Outcome Left) (left : Left) → Came outcome left line.now conclusion
        → Answers (λ _. left) outcome result }
{
    match conclusion {
        Conclusion::Done => Ok(()),
        Conclusion::Refused => Err(Stop::from(End::Inner {
            line: Blob::from_slice(alloc, line)?,
        })),
        Conclusion::NotUnderstood => Err(Stop::from(End::NotUnderstood)),
        Conclusion::Fault => Err(Stop::from(Refusal::InnerOutputFull)),
        Conclusion::OutOfMemory => Err(Stop::Memory),
    }
}

/// Returns the bytes from a place on.
pub(crate) fn bytes_from(bytes: &[u8], place: usize) -> &[u8]
    ensures { result.now ≡ drop place bytes.now }
{
    bytes.get(place..).unwrap_or_default()
}
