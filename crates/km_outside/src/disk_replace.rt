// A file of the machine, replaced.

use crate::writing::write_whole;
use km_names::PathText;
use outside_calls::ReplaceAnswer;
use std::alloc::Global;
use std::fs::{OpenFile, OpenOptions};
use std::io::ErrorKind;
use std::os::unix::fs::OpenOptionsExt;
use std::{fs, io, rt};

/// The number of names that are tried for the new file. A name that is taken was left by a run that
/// was cut off, or belongs to a run beside this one.
const TRIES: u32 = 100;

/// The permissions of a new file, before the process's own mask.
const MODE: u32 = 0o644;

/// Replaces the file at the path by one of these bytes, whole or not at all.
pub(crate) fn replace_file<R: rt::Files>(
    rt: &R,
    alloc: Global,
    path: &PathText,
    bytes: &[u8],
) -> Result<(), ReplaceAnswer> {
    let Ok(path) = str::from_utf8(path.as_bytes()) else {
        return Err(ReplaceAnswer::Failed);
    };
    let NewFile { file, path: new } = create_beside(rt, alloc, path)?;
    if let Err(error) = put_in_place(rt, file, bytes, new.as_str(), path) {
        // It isn't needed any more. If even this fails it stays, under a name that nothing reads.
        let _ = fs::remove_file(rt, new.as_str());
        return Err(answer_to(error.kind()));
    }
    Ok(())
}

/// A file beside the one that it is to replace.
#[derive(Drop)]
struct NewFile<F: Drop> {
    file: F,
    path: String,
}

/// Makes a new file beside the one at the path.
fn create_beside<R: rt::Files>(
    rt: &R,
    alloc: Global,
    path: &str,
) -> Result<NewFile<R::File>, ReplaceAnswer> {
    for number in 0..TRIES {
        let new = format!(in alloc; "{path}.{number}.new")?;
        match create_new(rt, new.as_str()) {
            Ok(file) => return Ok(NewFile { file, path: new }),
            Err(ErrorKind::AlreadyExists) => {}
            Err(kind) => return Err(answer_to(kind)),
        }
    }
    Err(ReplaceAnswer::Failed)
}

/// Writes the bytes to the new file, flushes it to the disk, and gives it the name of the old one.
fn put_in_place<R: rt::Files>(
    rt: &R,
    mut file: R::File,
    bytes: &[u8],
    new: &str,
    path: &str,
) -> io::Result<()> {
    write_whole(&mut file, bytes).map_err(|_| io::Error::from(ErrorKind::Other))?;
    file.sync_all()?;
    drop(file);
    fs::rename(rt, new, path)
}

/// Returns the answer to an error of the system.
fn answer_to(kind: ErrorKind) -> ReplaceAnswer {
    match kind {
        ErrorKind::OutOfMemory => ReplaceAnswer::Memory,
        _ => ReplaceAnswer::Failed,
    }
}

/// Makes a file if none exists.
fn create_new<R: rt::Files>(rt: &R, path: &str) -> Result<R::File, ErrorKind> {
    let mut options = OpenOptions::new();
    options.write(true);
    options.create_new(true);
    options.mode(MODE);
    match options.open(rt, path) {
        Ok(file) => Ok(file),
        Err(error) => Err(error.kind()),
    }
}
