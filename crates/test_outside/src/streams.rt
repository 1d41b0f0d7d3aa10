// Streams that move some bytes a call.
use km_names::PathText;
use km_outside::{DiskFiles, FileAnswer, Out, OutFailed, Reads, Stream};
use std::alloc::{Allocator, Global};
use std::fs::{Metadata, OpenFile, OpenOptions};
use std::io::{ErrorKind, Read, Seek, SeekFrom, Write};
use std::process::Abort;
use std::{io, rt};

/// A stream that moves at most two bytes a call, by a list of what its next calls do.
#[derive(Drop)]
struct Stutter {
    bytes: Vec<u8>,
    calls: &'static [Step],
    made: usize,
}

#[derive(Clone, Copy)]
enum Step {
    Moves,
    Ends,
    Fails(ErrorKind),
}

impl Stutter {
    fn next(&mut self) -> Step {
        let step = self.calls.get(self.made).copied().unwrap_or(Step::Ends);
        self.made = self.made.saturating_add(1);
        step
    }
}

impl Write for Stutter {
    fn write(&mut self, buf: &[u8]) -> io::Result<usize> {
        match self.next() {
            Step::Moves => {
                let taken = &buf[..buf.len().min(2)];
                self.bytes.extend_from_slice(taken)?;
                Ok(taken.len())
            }
            Step::Ends => Ok(0),
            Step::Fails(kind) => Err(io::Error::from(kind)),
        }
    }

    fn flush(&mut self) -> io::Result<()> {
        Ok(())
    }
}

impl Read for Stutter {
    fn read(&mut self, buf: &mut [u8]) -> io::Result<usize> {
        match self.next() {
            Step::Moves => {
                let count = buf.len().min(2);
                buf[..count].fill(b'x');
                Ok(count)
            }
            Step::Ends => Ok(0),
            Step::Fails(kind) => Err(io::Error::from(kind)),
        }
    }
}

impl Seek for Stutter {
    fn seek(&mut self, _to: SeekFrom) -> io::Result<u64> {
        Err(refused())
    }
}

impl OpenFile for Stutter {
    fn metadata(&self) -> io::Result<Metadata> {
        Err(refused())
    }

    fn set_len(&self, _size: u64) -> io::Result<()> {
        Err(refused())
    }

    fn sync_all(&self) -> io::Result<()> {
        Err(refused())
    }

    fn sync_data(&self) -> io::Result<()> {
        Err(refused())
    }
}

/// A machine that opens one stream under every path, and refuses all else.
#[derive(Clone, Copy)]
struct OneFile {
    alloc: Global,
    calls: &'static [Step],
}

/// Returns what such a machine answers otherwise.
fn refused() -> io::Error {
    io::Error::from(ErrorKind::Unsupported)
}

impl rt::Files for OneFile {
    type File = Stutter;

    type Dir = Stutter;

    fn open_file(&self, _how: &OpenOptions, _path: &str) -> io::Result<Stutter> {
        Ok(Stutter {
            bytes: Vec::new(self.alloc),
            calls: self.calls,
            made: 0,
        })
    }

    fn open_dir(&self, _path: &str) -> io::Result<Stutter> {
        Err(refused())
    }

    fn metadata(&self, _path: &str) -> io::Result<Metadata> {
        Err(refused())
    }

    fn symlink_metadata(&self, _path: &str) -> io::Result<Metadata> {
        Err(refused())
    }

    fn copy(&self, _from: &str, _to: &str) -> io::Result<u64> {
        Err(refused())
    }

    fn rename(&self, _from: &str, _to: &str) -> io::Result<()> {
        Err(refused())
    }

    fn remove_file(&self, _path: &str) -> io::Result<()> {
        Err(refused())
    }

    fn create_dir(&self, _path: &str) -> io::Result<()> {
        Err(refused())
    }

    fn remove_dir(&self, _path: &str) -> io::Result<()> {
        Err(refused())
    }

    fn remove_dir_all<B: Allocator>(&self, _alloc: B, _path: &str) -> io::Result<()> {
        Err(refused())
    }
}

/// The steps of a stream, whether it takes or gives all, and how many bytes were moved.
static STEPS: [(&[Step], bool, usize); 5] = [
    (&[Step::Moves, Step::Moves, Step::Moves], true, 5),
    (
        &[
            Step::Fails(ErrorKind::Interrupted),
            Step::Moves,
            Step::Fails(ErrorKind::Interrupted),
            Step::Moves,
            Step::Moves,
        ],
        true,
        5,
    ),
    (
        &[Step::Moves, Step::Moves, Step::Fails(ErrorKind::BrokenPipe)],
        false,
        4,
    ),
    (
        &[Step::Moves, Step::Ends, Step::Moves, Step::Moves],
        false,
        2,
    ),
    (
        &[Step::Fails(ErrorKind::Other), Step::Moves, Step::Moves],
        false,
        0,
    ),
];

/// Writes through the bound, as the crates above do.
fn write<O: Out>(out: &mut O, bytes: &[u8]) -> Result<(), OutFailed> {
    out.write(bytes)
}

/// Writes five bytes by these steps.
fn expect_written(
    rt: &impl Abort,
    alloc: Global,
    calls: &'static [Step],
    whole: bool,
    length: usize,
) {
    let mut writer = Stutter {
        bytes: Vec::new(alloc),
        calls,
        made: 0,
    };
    let mut out = Stream::new(&mut writer);
    assert_eq!(rt; write(&mut out, b"bytes").is_ok(), whole);
    assert_eq!(rt; Some(writer.bytes.as_slice()), b"bytes".get(..length));
}

fn a_write_takes_several_turns_or_fails(rt: &impl Abort, alloc: Global) {
    for (calls, whole, length) in &STEPS {
        expect_written(rt, alloc, calls, *whole, *length);
    }
}

/// The steps of a reader, and how many bytes it gives, or that it fails.
static READS: [(&[Step], Result<usize, FileAnswer>); 4] = [
    (&[Step::Ends, Step::Moves], Ok(0)),
    (&[Step::Moves, Step::Moves, Step::Ends, Step::Moves], Ok(4)),
    (
        &[
            Step::Moves,
            Step::Fails(ErrorKind::Interrupted),
            Step::Moves,
        ],
        Ok(4),
    ),
    (
        &[Step::Moves, Step::Fails(ErrorKind::TimedOut), Step::Moves],
        Err(FileAnswer::Failed),
    ),
];

/// Returns how many bytes are read of a file whose reader takes these steps.
fn read_length(alloc: Global, calls: &'static [Step]) -> Result<usize, FileAnswer> {
    let mut files = DiskFiles::new((OneFile { alloc, calls }, alloc));
    let path = PathText::from_slice(alloc, b"file")?;
    Ok(files.read(alloc, &path)?.len())
}

fn a_read_goes_on_to_the_end_or_fails(rt: &impl Abort, alloc: Global) {
    for (calls, want) in &READS {
        let length = read_length(alloc, calls);
        assert_eq!(rt; length, *want);
    }
}

#[test]
fn streams_move_some_bytes_a_call(rt: HostRuntime) {
    a_write_takes_several_turns_or_fails(&rt, rt.alloc());
    a_read_goes_on_to_the_end_or_fails(&rt, rt.alloc());
}
