// What differs from what a row says.
use crate::objects::Objects;
use crate::row::RowOf;
use km_names::PathText;
use outside_calls::FileAnswer;
use std::alloc::{AllocError, Global};
use std::fmt::Debug;
use test_objects::RowFault;

/// Why a row isn't as it says.
#[derive(Debug, Drop)]
pub enum Difference {
    /// It can't be prepared: out of memory, or a module isn't a sheet.
    Unprepared(RowFault),
    /// The files can't be listed.
    Unlisted(FileAnswer),
    /// Something else came out: the row, with what it is that differs, and both values.
    Other(String),
}

impl From<AllocError> for Difference {
    fn from(_refusal: AllocError) -> Difference {
        Difference::Unprepared(RowFault::Memory)
    }
}

impl From<RowFault> for Difference {
    fn from(fault: RowFault) -> Difference {
        Difference::Unprepared(fault)
    }
}

impl From<FileAnswer> for Difference {
    fn from(answer: FileAnswer) -> Difference {
        Difference::Unlisted(answer)
    }
}

/// Compares what came out of the last command with what a row says, and every file with what it is
/// to have.
pub fn compare_all(
    alloc: Global,
    objects: &mut Objects,
    row: RowOf<'_>,
    name: &str,
) -> Result<(), Difference> {
    compare_seen(alloc, objects, row, name)?;
    match objects.differing(alloc)? {
        Some(path) => Err(other_file(alloc, objects, name, &path)?),
        None => Ok(()),
    }
}

/// Compares the status that the last command answered, and what its outputs have, with what a row
/// says. The name tells a row that differs.
pub fn compare_seen(
    alloc: Global,
    objects: &Objects,
    row: RowOf<'_>,
    name: &str,
) -> Result<(), Difference> {
    let (_, status, out, err) = row;
    compare(alloc, (name, "err"), objects.err.bytes(), err.as_bytes())?;
    compare(alloc, (name, "status"), &[objects.status], &[status])?;
    compare(alloc, (name, "out"), objects.out.bytes(), out.as_bytes())
}

/// Compares bytes. The names are those of the row and of what is compared.
fn compare(
    alloc: Global,
    (name, what): (&str, &str),
    got: &[u8],
    want: &[u8],
) -> Result<(), Difference> {
    if got == want {
        Ok(())
    } else {
        Err(other(alloc, name, &what, (Some(got), Some(want)))?)
    }
}

/// Says how a file differs from what it is to be.
fn other_file(
    alloc: Global,
    objects: &Objects,
    name: &str,
    path: &PathText,
) -> Result<Difference, AllocError> {
    let both = (objects.files.get(path), objects.wanted.get(path));
    other(alloc, name, path, both)
}

/// Says what differs, with the value that came out and the value that is wanted.
fn other<W: Debug>(
    alloc: Global,
    name: &str,
    what: &W,
    (got, want): (Option<&[u8]>, Option<&[u8]>),
) -> Result<Difference, AllocError> {
    let text = format!(in alloc; "{name}: {what:?} is {got:?}, and not {want:?}")?;
    Ok(Difference::Other(text))
}
