//! Files and an output of a user's own, by the calls that have no body of their own.
ghost use Rattle.std.specs.Prelude.{None, true};

use crate::same::{holds, same};
use km_names::{Blob, FILE_LIMIT, Names, PathText, Paths};
use km_outside::{FileAnswer, FileBuffer, Files, Out, OutFailed, Reads, ReplaceAnswer, Writes};
use std::alloc::Global;
use std::process::Abort;

/// Files of which one can be read. No folder can be listed. Contracts see neither their contents
/// nor how many calls were made, and no call fails.
#[derive(Drop)]
struct OneFile {
    path: &'static [u8],
    bytes: &'static [u8],
    absences: u64,
    excesses: u64,
}

impl OneFile {
    /// Makes the file of these bytes at the path.
    fn new(path: &'static [u8], bytes: &'static [u8]) -> OneFile {
        OneFile {
            path,
            bytes,
            absences: 0,
            excesses: 0,
        }
    }
}

impl Reads for OneFile {
    ghost seen = { λ f. record {
      counts = record { faults = 0; absences = f.absences; excesses = f.excesses };
      calls = None;
      contents = None;
      sure = true;
    } };

    fn read(&mut self, alloc: Global, path: &PathText) -> Result<Blob, FileAnswer> {
        if path.as_bytes() != self.path {
            self.absences = self.absences.saturating_add(1);
            return Err(FileAnswer::Absent);
        }
        if self.bytes.len() > FILE_LIMIT {
            self.excesses = self.excesses.saturating_add(1);
            let length = self.bytes.len() as u64;
            return Err(FileAnswer::TooLarge { length });
        }
        Ok(Blob::from_slice(alloc, self.bytes)?)
    }

    fn list_conf(&mut self, _alloc: Global, _dir: &PathText) -> Result<Names, FileAnswer> {
        self.absences = self.absences.saturating_add(1);
        Err(FileAnswer::Absent)
    }
}

impl Writes for OneFile {
    fn replace(
        &mut self,
        _alloc: Global,
        _path: &PathText,
        _bytes: &[u8],
    ) -> Result<(), ReplaceAnswer> {
        Err(ReplaceAnswer::Memory)
    }
}

impl Files for OneFile {
    fn list_tree(&mut self, _alloc: Global, _dir: &PathText) -> Result<Paths, FileAnswer> {
        self.absences = self.absences.saturating_add(1);
        Err(FileAnswer::Absent)
    }
}

/// An output that counts bytes. Contracts don't see them, and no write fails.
#[derive(Drop)]
struct ByteCount {
    count: usize,
}

impl Out for ByteCount {
    ghost seen = { λ _. record { faults = 0; told = None; room = None } };

    ghost within = { λ _. tt };

    fn write(&mut self, bytes: &[u8]) -> Result<(), OutFailed> {
        self.count = self.count.saturating_add(bytes.len());
        Ok(())
    }
}

// Each call has a function over any files.

/// Reads the file at a path.
fn read<F: Reads>(alloc: Global, files: &mut F, at: &PathText) -> Result<Blob, FileAnswer> {
    files.read(alloc, at)
}

/// Reads the file at a path into a buffer.
fn read_into<F: Reads>(
    alloc: Global,
    files: &mut F,
    at: &PathText,
    buffer: &mut FileBuffer,
) -> Result<(), FileAnswer> {
    files.read_into(alloc, at, buffer)
}

/// Returns why a folder isn't listed.
fn list<F: Reads>(alloc: Global, files: &mut F, at: &PathText) -> Option<FileAnswer> {
    files.list_conf(alloc, at).err()
}

/// Replaces a file, and lists all files below its path.
fn replace_and_list<F: Files>(
    alloc: Global,
    files: &mut F,
    at: &PathText,
) -> (Option<ReplaceAnswer>, Option<FileAnswer>) {
    let replaced = files.replace(alloc, at, b"new").err();
    let listed = files.list_tree(alloc, at).err();
    (replaced, listed)
}

/// Writes two pieces.
fn write_both<O: Out>(out: &mut O) -> Result<(), OutFailed> {
    out.write(b"abc")?;
    out.write(b"de")
}

#[test]
fn an_output_of_a_users_own(rt: HostRuntime) {
    let mut out = ByteCount { count: 0 };
    assert_eq!(rt; write_both(&mut out), Ok(()));
    assert_eq!(rt; out.count, 5);
}

fn same_answer(rt: &impl Abort, got: Option<FileAnswer>, want: Option<FileAnswer>) {
    assert_eq!(rt; got, want);
}

/// What a file wasn't replaced for, and what a folder wasn't listed for.
type Answers = (Option<ReplaceAnswer>, Option<FileAnswer>);

fn same_answers(rt: &impl Abort, got: Answers, want: Answers) {
    assert_eq!(rt; got, want);
}

fn its_file_is_read(rt: &impl Abort, alloc: Global) {
    let mut files = OneFile::new(b"/m/a.ko", b"bytes");
    let at = PathText::from_slice(alloc, b"/m/a.ko").expect(rt, "a path");
    let bytes = read(alloc, &mut files, &at).expect(rt, "bytes");
    same(rt, bytes.as_bytes(), b"bytes");
    let mut buffer = FileBuffer::new(alloc);
    read_into(alloc, &mut files, &at, &mut buffer).expect(rt, "a buffer");
    same(rt, buffer.as_bytes(), b"bytes");
    holds(rt, files.absences == 0);
}

fn others_are_absent(rt: &impl Abort, alloc: Global) {
    let mut files = OneFile::new(b"/m/a.ko", b"bytes");
    let at = PathText::from_slice(alloc, b"/m/b.ko").expect(rt, "a path");
    let absent = Some(FileAnswer::Absent);
    same_answer(rt, read(alloc, &mut files, &at).err(), absent);
    same_answer(rt, list(alloc, &mut files, &at), absent);
    let answers = replace_and_list(alloc, &mut files, &at);
    same_answers(rt, answers, (Some(ReplaceAnswer::Memory), absent));
    holds(rt, files.absences == 3);
}

#[test]
fn files_of_a_users_own(rt: HostRuntime) {
    its_file_is_read(&rt, rt.alloc());
    others_are_absent(&rt, rt.alloc())
}
