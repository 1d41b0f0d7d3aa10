//! The program `kmod`. It hands the words of the command line, the files of the machine and the
//! standard streams to `kmod_cli::run`, and exits with its status. Called by the name of a command,
//! through a link, it is that command.
#![tactic(auto)]

use km_course::{End, Stop, conclude};
use km_names::{List, Word};
use km_outside::{DiskFiles, StdErr, StdOut};
use kmod_cli::run;
use std::alloc::{AllocError, Global};
use std::process::ExitCode;
use std::{env, io};

/// Nearly the largest buffer that glibc ever takes from its own region. mallopt(3),
/// `M_MMAP_THRESHOLD`.
const LARGEST: usize = 31 << 20;

/// More bytes than the index files of a large kernel have together.
const ROOM: usize = 8 << 20;

fn main(rt: HostRuntime) -> ExitCode {
    let mut out = StdOut::new(rt.stdout());
    let mut err = StdErr::new(rt.stderr());
    let words = command_words(&rt);
    let alloc = rt.alloc();
    make_room(alloc);
    let mut files = DiskFiles::new(rt);
    let status = match words {
        Ok(words) => run(alloc, words.as_slice(), &mut files, &mut out, &mut err),
        Err(stop) => conclude(alloc, Err(stop), &mut err),
    };
    ExitCode::from(status)
}

/// Takes room from the allocator and gives it back, twice. glibc gets each large buffer from the
/// system by itself, until one as large was given back. From then on it takes such buffers from a
/// region that it keeps, which the second time makes large enough for most. A kernel that gives
/// large pages to all programs, as Debian's does by default, gives them to this region too, and
/// files are read with fewer page faults. Memory that a very large file took is used again for what
/// comes after it. If there is no room, nothing is lost.
fn make_room(alloc: Global) {
    for size in [LARGEST, ROOM] {
        let room: Result<Vec<u8>, AllocError> = Vec::with_capacity(alloc, size);
        drop(room);
    }
}

/// Returns the words after the program's name, and before them that name if it is a command's.
/// Words that aren't text aren't understood.
fn command_words(rt: &HostRuntime) -> Result<List<Word>, Stop> {
    let alloc = rt.alloc();
    let mut words = List::new(alloc);
    let mut arguments = env::args(rt).map_err(stop_of)?;
    if let Some(program) = arguments.next() {
        if let Some(command) = command_called(program.as_str()) {
            words.push(Word::from_text(alloc, command)?)?;
        }
    }
    for argument in arguments {
        words.push(Word::from_text(alloc, argument.as_str())?)?;
    }
    Ok(words)
}

/// Returns the command by whose name the program at the path is called.
fn command_called(program: &str) -> Option<&'static str> {
    match program.rsplit('/').next() {
        Some("depmod") => Some("depmod"),
        Some("modprobe") => Some("modprobe"),
        Some("modinfo") => Some("modinfo"),
        _ => None,
    }
}

/// Returns how an error of reading the words stops the program.
fn stop_of(error: io::Error) -> Stop {
    match error.kind() {
        io::ErrorKind::OutOfMemory => Stop::Memory,
        _ => Stop::Ended(End::NotUnderstood),
    }
}
