// The loop over the library's `read`. Each turn reads at least one byte, so it ends.

ghost use Rattle.std.specs.Prelude.{◌≡◌, ◌+◌, ◌<◌, ◌≤◌, length, take, drop, vec_len, IfOk, OnOk};
ghost use Rattle.std.specs.Prelude.{IfSome};
ghost use Rattle.std.specs.Io.{ReadsAtMost};
ghost use Rattle.std.specs.Io.KnownBytes.{Consumes, IsAtEnd, ReadConsumes};
ghost use Rattle.km_names.specs.Limit.{file_limit};

use km_names::FILE_LIMIT;
use std::alloc::{AllocError, Global};
use std::io;
use std::io::{ErrorKind, Read};

/// How many times in a row a call that a signal interrupted is repeated.
pub const RETRIES: u32 = 1000;

/// The least room, in bytes, that is made for a file. Some files don't report their length.
const LEAST_ROOM: usize = 4096;

/// Reads to the end, and at most to one byte past [`FILE_LIMIT`], over what the buffer holds.
/// Returns how many bytes were read. If about `expected` bytes are to come, memory for them is
/// reserved once.
pub(crate) fn read_limited<R: Read>(
    reader: &mut R,
    buffer: &mut Vec<u8>,
    expected: usize,
) -> io::Result<usize>
    requires { vec_len buffer.old ≤ file_limit + 1 }
    ensures room { vec_len buffer.new ≤ file_limit + 1 }
    ensures filled { IfOk result (λ n. n ≤ vec_len buffer.new) }
    ensures bytes { IfOk result
        (λ n. IfSome (R.remaining reader.old)
        (λ left. take n buffer.new.items ≡ take (file_limit + 1) left)) }
{
    lengthen(buffer, expected.clamp(LEAST_ROOM, FILE_LIMIT) + 1)?;
    let mut filled = 0;
    while filled <= FILE_LIMIT {
        match read_more(reader, buffer, filled)? {
            0 => break,
            count => filled += count,
        }
    }
    Ok(filled)
}

/// Extends the buffer with zeros to this length, unless it is that long already. After a refusal it
/// is as before.
fn lengthen(buffer: &mut Vec<u8>, length: usize) -> Result<(), AllocError>
    requires { length ≤ file_limit + 1 }
    ensures room { OnOk result (length ≤ vec_len buffer.new) }
    ensures limit { vec_len buffer.old ≤ file_limit + 1 → vec_len buffer.new ≤ file_limit + 1 }
    ensures front { take (vec_len buffer.old) buffer.new.items ≡ buffer.old.items }
{
    if length <= buffer.len() {
        return Ok(());
    }
    buffer.resize(length, 0)
}

/// Runs one turn of a read: makes room after the filled part, and reads some bytes into the room.
/// At the end no bytes are read.
fn read_more<R: Read>(reader: &mut R, buffer: &mut Vec<u8>, filled: usize) -> io::Result<usize>
    requires within { filled ≤ vec_len buffer.old }
    requires below_limit { filled ≤ file_limit }
    requires limit { vec_len buffer.old ≤ file_limit + 1 }
    ensures limit { vec_len buffer.new ≤ file_limit + 1 }
    ensures front { OnOk result (take filled buffer.new.items ≡ take filled buffer.old.items) }
    ensures fits { IfOk result (λ n. filled + n ≤ vec_len buffer.new) }
    ensures bytes { IfOk result
        (λ n. Consumes (R.remaining reader.old) (R.remaining reader.new)
        (take n (drop filled buffer.new.items))) }
    ensures end { IfOk result (λ n. n ≡ 0 → IsAtEnd (R.remaining reader.new)) }
{
    if filled == buffer.len() {
        lengthen(buffer, (filled * 2).min(FILE_LIMIT) + 1)?;
    }
    read_at(reader, buffer.as_mut_slice(), filled)
}

/// Reads some bytes into the buffer after its filled part. No bytes means the end.
fn read_at<R: Read>(reader: &mut R, buffer: &mut [u8], filled: usize) -> io::Result<usize>
    requires { filled < length buffer.old }
    ensures front { take filled buffer.new ≡ take filled buffer.old }
    ensures fits { IfOk result (λ n. filled + n ≤ length buffer.new) }
    ensures bytes { IfOk result
        (λ n. Consumes (R.remaining reader.old) (R.remaining reader.new)
        (take n (drop filled buffer.new))) }
    ensures end { IfOk result (λ n. n ≡ 0 → IsAtEnd (R.remaining reader.new)) }
{
    read_some(reader, &mut buffer[filled..])
}

/// Reads once, and again if a signal interrupted it.
fn read_some<R: Read>(reader: &mut R, room: &mut [u8]) -> io::Result<usize>
    ensures bound { ReadsAtMost result room.new }
    ensures bytes { ReadConsumes (R.remaining reader.old) (R.remaining reader.new) result room.new }
{
    for _ in 0..RETRIES {
        match reader.read(room) {
            Err(error) if error.kind() == ErrorKind::Interrupted => {}
            answer => return answer,
        }
    }
    reader.read(room)
}
