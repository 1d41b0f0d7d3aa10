// A file of the machine, read.

ghost use Rattle.std.specs.Prelude.{◌≡◌, ◌<◌, ◌≤◌, length, OnOk, IfErr};
ghost use Rattle.km_outside.specs.DiskSeen.{answer_of, IsPast};
ghost use Rattle.km_names.specs.Limit.{file_limit};

use km_names::{FILE_LIMIT, PathText};
use outside_calls::{FileAnswer, FileBuffer};
use std::fs::{File, Metadata, OpenFile};
use std::io::ErrorKind;
use std::rt;

/// Reads the file at the path into the buffer, if its bytes are no more than the limit.
pub(crate) fn read_file<R: rt::Files>(
    rt: &R,
    path: &PathText,
    buffer: &mut FileBuffer,
) -> Result<(), FileAnswer>
    ensures limit { OnOk result (length buffer.new ≤ file_limit) }
    ensures past { IfErr result (IsPast file_limit) }
{
    let Ok(path) = str::from_utf8(path.as_bytes()) else {
        return Err(FileAnswer::Failed);
    };
    let mut file = match File::open(rt, path) {
        Ok(file) => file,
        Err(error) => return Err(answer_to(error.kind())),
    };
    let expected = told_length(&file);
    if expected > FILE_LIMIT as u64 {
        return Err(FileAnswer::TooLarge { length: expected });
    }
    match buffer.read_from(&mut file, expected as usize) {
        Ok(()) => check_length(buffer.as_bytes()),
        Err(error) => Err(answer_to(error.kind())),
    }
}

/// Returns the answer to an error of the system.
pub(crate) fn answer_to(kind: ErrorKind) -> FileAnswer
    ensures { result ≡ answer_of kind }
{
    match kind {
        ErrorKind::NotFound | ErrorKind::NotADirectory | ErrorKind::IsADirectory => {
            FileAnswer::Absent
        }
        ErrorKind::OutOfMemory => FileAnswer::Memory,
        _ => FileAnswer::Failed,
    }
}

/// Returns the length of a regular file, and 0 for everything else.
fn told_length<F: OpenFile>(file: &F) -> u64 {
    match file.metadata() {
        Ok(metadata) if metadata.is_file() => metadata.len(),
        _ => 0,
    }
}

/// Tests that the bytes that were read are no more than the limit.
fn check_length(bytes: &[u8]) -> Result<(), FileAnswer>
    ensures limit { OnOk result (length bytes.now ≤ file_limit) }
    ensures past { IfErr result (IsPast file_limit) }
{
    if bytes.len() > FILE_LIMIT {
        let length = bytes.len() as u64;
        return Err(FileAnswer::TooLarge { length });
    }
    Ok(())
}
