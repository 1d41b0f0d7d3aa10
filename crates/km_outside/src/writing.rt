// The loop over the library's `write`. Each turn writes at least one byte, so it ends.

ghost use Rattle.std.specs.Prelude.{◌≤◌, ℕ, length, take, MatchResult};
ghost use Rattle.std.specs.Io.{WritesAtMost};
ghost use Rattle.std.specs.Io.KnownBytes.{Appends, WriteAppends};

use outside_calls::{OutFailed, RETRIES};
use std::io;
use std::io::{ErrorKind, Write};

/// Writes all of the bytes. Each turn takes at least one byte, or the write fails; then a first
/// part of the bytes has been written.
pub(crate) fn write_whole<W: Write>(writer: &mut W, bytes: &[u8]) -> Result<(), OutFailed>
    ensures { MatchResult result
        (λ _. Appends (W.contents writer.old) (W.contents writer.new) bytes.now)
        (λ _. (n : ℕ) × (n ≤ length bytes.now)
        × Appends (W.contents writer.old) (W.contents writer.new) (take n bytes.now)) }
{
    let mut written = 0;
    while written < bytes.len() {
        match write_some(writer, &bytes[written..]) {
            Ok(0) | Err(_) => return Err(OutFailed),
            Ok(count) => written += count,
        }
    }
    Ok(())
}

/// Writes once, and again if a signal interrupted it.
fn write_some<W: Write>(writer: &mut W, bytes: &[u8]) -> io::Result<usize>
    ensures bound { WritesAtMost result bytes.now }
    ensures bytes { WriteAppends (W.contents writer.old) (W.contents writer.new) result bytes.now }
{
    for _ in 0..RETRIES {
        match writer.write(bytes) {
            Err(error) if error.kind() == ErrorKind::Interrupted => {}
            answer => return answer,
        }
    }
    writer.write(bytes)
}
