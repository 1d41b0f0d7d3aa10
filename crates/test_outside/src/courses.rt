// Acts of a course that are carried out, and the lines of its ends.
use km_course::{
    End, Refusal, Stop, conclude, list_conf_needed, list_conf_optional, list_tree_needed, put,
    read_needed, read_needed_into, read_optional, say, say_any, warn,
};
use km_names::{Blob, Name, Names, PathText};
use outside_calls::{FileBuffer, MemFiles, MemOut};
use std::alloc::Global;
use std::process::Abort;

fn path(rt: &impl Abort, alloc: Global, text: &[u8]) -> PathText {
    PathText::from_slice(alloc, text).expect(rt, "a path")
}

fn blob(rt: &impl Abort, alloc: Global, text: &[u8]) -> Blob {
    Blob::from_slice(alloc, text).expect(rt, "bytes")
}

fn same(rt: &impl Abort, got: &[u8], want: &[u8]) {
    assert_eq!(rt; got, want);
}

fn same_count(rt: &impl Abort, got: usize, want: usize) {
    assert_eq!(rt; got, want);
}

// Each call is in a function of its own that promises nothing: a test compares what the call
// answered, and its contract needn't be carried along. A stop ends the test there, so that no test
// has to drop it.

fn put_file(rt: &impl Abort, alloc: Global, files: &mut MemFiles, at: &[u8], bytes: &[u8]) {
    put(alloc, files, path(rt, alloc, at), bytes).expect(rt, "put");
}

fn read(rt: &impl Abort, alloc: Global, files: &mut MemFiles, at: &[u8]) -> Blob {
    read_needed(alloc, files, &path(rt, alloc, at)).expect(rt, "read")
}

fn read_into(rt: &impl Abort, alloc: Global, files: &mut MemFiles, at: &[u8]) -> Blob {
    let mut buffer = FileBuffer::new(alloc);
    read_needed_into(alloc, files, &path(rt, alloc, at), &mut buffer).expect(rt, "read into");
    buffer.into_blob()
}

fn read_any(rt: &impl Abort, alloc: Global, files: &mut MemFiles, at: &[u8]) -> Blob {
    read_optional(alloc, files, &path(rt, alloc, at)).expect(rt, "read, or none")
}

fn list(rt: &impl Abort, alloc: Global, files: &mut MemFiles, dir: &[u8]) -> usize {
    list_conf_needed(alloc, files, &path(rt, alloc, dir))
        .expect(rt, "listed")
        .len()
}

fn list_any(rt: &impl Abort, alloc: Global, files: &mut MemFiles, dir: &[u8]) -> usize {
    list_conf_optional(alloc, files, &path(rt, alloc, dir))
        .expect(rt, "listed, or none")
        .len()
}

fn list_below(rt: &impl Abort, alloc: Global, files: &mut MemFiles, dir: &[u8]) -> usize {
    list_tree_needed(alloc, files, &path(rt, alloc, dir))
        .expect(rt, "listed below")
        .len()
}

fn write(rt: &impl Abort, out: &mut MemOut, bytes: &[u8]) {
    say(out, bytes).expect(rt, "said");
}

fn write_any(rt: &impl Abort, out: &mut MemOut, bytes: &[u8]) {
    say_any(out, bytes).expect(rt, "said, if any");
}

fn write_warning(rt: &impl Abort, err: &mut MemOut, bytes: &[u8]) {
    warn(err, bytes).expect(rt, "warned");
}

fn output(rt: &impl Abort, alloc: Global, room: usize) -> MemOut {
    MemOut::with_room(alloc, room).expect(rt, "an output")
}

/// Returns two files, put by calls.
fn made(rt: &impl Abort, alloc: Global) -> MemFiles {
    let mut files = MemFiles::new(alloc);
    put_file(rt, alloc, &mut files, b"/e/a.conf", b"text");
    put_file(rt, alloc, &mut files, b"/e/d/b.conf", b"");
    files
}

fn a_file_is_read(rt: &impl Abort, alloc: Global) {
    let mut files = made(rt, alloc);
    same(
        rt,
        read(rt, alloc, &mut files, b"/e/a.conf").as_bytes(),
        b"text",
    );
    same(
        rt,
        read_into(rt, alloc, &mut files, b"/e/a.conf").as_bytes(),
        b"text",
    );
    same(
        rt,
        read_any(rt, alloc, &mut files, b"/e/a.conf").as_bytes(),
        b"text",
    );
}

fn what_is_not_there_is_empty(rt: &impl Abort, alloc: Global) {
    let mut files = made(rt, alloc);
    same(
        rt,
        read_any(rt, alloc, &mut files, b"/none").as_bytes(),
        b"",
    );
    same_count(rt, list_any(rt, alloc, &mut files, b"/none"), 0);
}

fn a_folder_is_listed(rt: &impl Abort, alloc: Global) {
    let mut files = made(rt, alloc);
    same_count(rt, list(rt, alloc, &mut files, b"/e"), 1);
    same_count(rt, list_below(rt, alloc, &mut files, b"/e"), 2);
}

fn bytes_are_written(rt: &impl Abort, alloc: Global) {
    let mut out = output(rt, alloc, 4);
    write(rt, &mut out, b"ab");
    write_any(rt, &mut out, b"");
    write_any(rt, &mut out, b"c");
    write_warning(rt, &mut out, b"d");
    same(rt, out.bytes(), b"abcd");
}

#[test]
fn acts_are_carried_out(rt: HostRuntime) {
    a_file_is_read(&rt, rt.alloc());
    what_is_not_there_is_empty(&rt, rt.alloc());
    a_folder_is_listed(&rt, rt.alloc());
    bytes_are_written(&rt, rt.alloc());
}

/// Writes the line of a stop, and returns the status.
fn concluded(alloc: Global, stop: Stop, err: &mut MemOut) -> u8 {
    conclude(alloc, Err(stop), err)
}

/// Compares the status and the line of a stop with the expected ones.
fn expect(rt: &impl Abort, alloc: Global, stop: Stop, status: u8, line: &str) {
    let mut err = output(rt, alloc, 100);
    assert_eq!(rt; concluded(alloc, stop, &mut err), status);
    same(rt, err.bytes(), line.as_bytes());
}

/// Returns the cycle of two modules.
fn cycle(rt: &impl Abort, alloc: Global) -> Stop {
    let mut names = Names::new(alloc);
    for text in [b"a".as_slice(), b"b"] {
        let name = Name::from_slice(alloc, text).expect(rt, "a name");
        names.push(name).expect(rt, "names");
    }
    Stop::from(Refusal::Cycle { names })
}

fn obstacle(rt: &impl Abort, alloc: Global, text: &[u8]) -> Stop {
    let text = blob(rt, alloc, text);
    Stop::from(Refusal::Obstacle { text })
}

fn bad_line(rt: &impl Abort, alloc: Global, file: &[u8], number: u32) -> Stop {
    let file = path(rt, alloc, file);
    Stop::from(Refusal::BadLine { file, number })
}

/// Returns the end by the line of a command inside.
fn inner(rt: &impl Abort, alloc: Global, line: &[u8]) -> Stop {
    let line = blob(rt, alloc, line);
    Stop::from(End::Inner { line })
}

fn file_fault(rt: &impl Abort, alloc: Global, at: &[u8]) -> Stop {
    let path = path(rt, alloc, at);
    Stop::FileFault { path }
}

/// A cycle names its first module again, an obstacle has its text, and a bad line its number. An
/// inner line is handed on.
fn refusals_have_lines(rt: &impl Abort, alloc: Global) {
    let stop = cycle(rt, alloc);
    expect(rt, alloc, stop, 1, "kmod: cycle a -> b -> a\n");
    let stop = obstacle(rt, alloc, b"version kernel/w.ko maybe kernel/p.ko");
    expect(
        rt,
        alloc,
        stop,
        1,
        "kmod: version kernel/w.ko maybe kernel/p.ko\n",
    );
    let stop = bad_line(rt, alloc, b"/etc/modprobe.d/a.conf", 10);
    expect(
        rt,
        alloc,
        stop,
        1,
        "kmod: /etc/modprobe.d/a.conf: bad line 10\n",
    );
    let stop = inner(rt, alloc, b"kmod: cycle a -> a\n");
    expect(rt, alloc, stop, 1, "kmod: cycle a -> a\n");
}

/// A failed call names its path.
fn failures_have_lines(rt: &impl Abort, alloc: Global) {
    let stop = file_fault(rt, alloc, b"/m/a.ko");
    expect(rt, alloc, stop, 3, "kmod: file fault /m/a.ko\n");
    expect(rt, alloc, Stop::WarningFault, 3, "");
    expect(rt, alloc, Stop::Memory, 4, "kmod: out of memory\n");
}

#[test]
fn stops_have_lines(rt: HostRuntime) {
    refusals_have_lines(&rt, rt.alloc());
    failures_have_lines(&rt, rt.alloc());
}
