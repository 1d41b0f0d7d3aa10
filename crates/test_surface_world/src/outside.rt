//! Files and outputs in memory, and those of the machine.

use crate::lists::path;
use crate::same::{holds, same, same_option, shown};
use km_names::{Blob, Names, Paths};
use km_outside::{
    CallKind, DiskFiles, FileAnswer, Files, MemFiles, MemOut, Out, OutFailed, Reads, ReplaceAnswer,
    StdErr, StdOut, Writes,
};
use std::alloc::Global;
use std::process::Abort;

// Each call of files has a function that promises nothing.

/// Puts a file.
pub(crate) fn put(rt: &impl Abort, alloc: Global, files: &mut MemFiles, at: &[u8], bytes: &[u8]) {
    let at = path(rt, alloc, at);
    files.put(&at, bytes).expect(rt, "a file more");
}

/// Stops unless a file has these bytes, or there is none.
pub(crate) fn expect_file(
    rt: &impl Abort,
    alloc: Global,
    files: &MemFiles,
    at: &[u8],
    want: Option<&[u8]>,
) {
    let at = path(rt, alloc, at);
    same_option(rt, files.get(&at), want);
}

/// Makes a call of a kind fail.
fn fail(rt: &impl Abort, files: &mut MemFiles, kind: CallKind, number: u8) {
    files
        .fail_call(kind, u64::from(number))
        .expect(rt, "a call more");
}

/// Reads a file.
fn read(
    rt: &impl Abort,
    alloc: Global,
    files: &mut MemFiles,
    at: &[u8],
) -> Result<Blob, FileAnswer> {
    let at = path(rt, alloc, at);
    files.read(alloc, &at)
}

/// Replaces a file.
fn replace(
    rt: &impl Abort,
    alloc: Global,
    files: &mut MemFiles,
    at: &[u8],
    bytes: &[u8],
) -> Result<(), ReplaceAnswer> {
    let at = path(rt, alloc, at);
    files.replace(alloc, &at, bytes)
}

/// Lists the files of configuration of a folder.
fn list_conf(
    rt: &impl Abort,
    alloc: Global,
    files: &mut MemFiles,
    at: &[u8],
) -> Result<Names, FileAnswer> {
    let at = path(rt, alloc, at);
    files.list_conf(alloc, &at)
}

/// Lists all files below a folder.
fn list_tree(
    rt: &impl Abort,
    alloc: Global,
    files: &mut MemFiles,
    at: &[u8],
) -> Result<Paths, FileAnswer> {
    let at = path(rt, alloc, at);
    files.list_tree(alloc, &at)
}

/// A file of configuration.
static A: &[u8] = b"/e/a.conf";

/// Three files of configuration, one of them deeper, and one other.
static FILES: [&[u8]; 4] = [b"/e/b.conf", b"/e/a.conf", b"/e/f/c.conf", b"/e/a.ko"];

/// Makes these files, with the same text in each.
fn four_files(rt: &impl Abort, alloc: Global) -> MemFiles {
    let mut files = MemFiles::new(alloc);
    for at in &FILES {
        put(rt, alloc, &mut files, at, b"text");
    }
    files
}

fn files_in_memory_are_read_and_replaced(rt: &impl Abort, alloc: Global) {
    let mut files = four_files(rt, alloc);
    shown(rt, alloc, read(rt, alloc, &mut files, A), r#"Ok("text")"#);
    let replaced = replace(rt, alloc, &mut files, A, b"new");
    shown(rt, alloc, replaced, "Ok(())");
    expect_file(rt, alloc, &files, A, Some(b"new"));
    let answer = read(rt, alloc, &mut files, b"/e/none");
    shown(rt, alloc, answer, "Err(Absent)");
    expect_file(rt, alloc, &files, b"/e/none", None);
    drop(files);
}

/// The answers of listings: those of a folder, of all below it, and of one that isn't there.
static LISTED: &str =
    "(Ok(List { elements: [\"a.conf\", \"b.conf\"] }), Ok(List { elements: [\"a.conf\", \"a.ko\", \
        \"b.conf\", \"f/c.conf\"] }), Err(Absent))";

fn folders_in_memory_are_listed(rt: &impl Abort, alloc: Global) {
    let mut files = four_files(rt, alloc);
    let names = list_conf(rt, alloc, &mut files, b"/e");
    let paths = list_tree(rt, alloc, &mut files, b"/e/");
    let none = list_conf(rt, alloc, &mut files, b"/none");
    shown(rt, alloc, (names, paths, none), LISTED);
    drop(files);
}

/// Makes those files, whose second read and first call of each other kind fails.
fn failing_files(rt: &impl Abort, alloc: Global) -> MemFiles {
    let mut files = four_files(rt, alloc);
    fail(rt, &mut files, CallKind::Read, 1);
    fail(rt, &mut files, CallKind::ListConf, 0);
    fail(rt, &mut files, CallKind::ListTree, 0);
    fail(rt, &mut files, CallKind::Replace, 0);
    files
}

fn listed_calls_fail(rt: &impl Abort, alloc: Global) {
    let mut files = failing_files(rt, alloc);
    shown(rt, alloc, read(rt, alloc, &mut files, A), r#"Ok("text")"#);
    shown(rt, alloc, read(rt, alloc, &mut files, A), "Err(Failed)");
    let names = list_conf(rt, alloc, &mut files, A);
    let paths = list_tree(rt, alloc, &mut files, A);
    let replaced = replace(rt, alloc, &mut files, A, b"");
    let want = "(Err(Failed), Err(Failed), Err(Failed))";
    shown(rt, alloc, (names, paths, replaced), want);
    expect_file(rt, alloc, &files, A, Some(b"text"));
    drop(files);
}

/// Writes a piece to an output.
fn write(out: &mut MemOut, piece: &[u8]) -> Result<(), OutFailed> {
    out.write(piece)
}

fn outputs_in_memory_have_a_room(rt: &impl Abort, alloc: Global) {
    let mut out = MemOut::with_room(alloc, 5).expect(rt, "an output");
    let abc = write(&mut out, b"abc");
    let def = write(&mut out, b"def");
    let de = write(&mut out, b"de");
    shown(
        rt,
        alloc,
        (abc, def, de),
        "(Ok(()), Err(OutFailed), Ok(()))",
    );
    same(rt, out.bytes(), b"abcde");
    out.fail_write(3).expect(rt, "one write more");
    let answers = (write(&mut out, b""), write(&mut out, b""));
    shown(rt, alloc, answers, "(Err(OutFailed), Ok(()))");
    drop(out);
}

#[test]
fn the_files_and_outputs_of_the_machine(rt: HostRuntime) {
    let alloc = rt.alloc();
    let mut out = StdOut::new(rt.stdout());
    holds(&rt, out.write(b"") == Ok(()));
    let mut err = StdErr::new(rt.stderr());
    holds(&rt, err.write(b"") == Ok(()));
    let nowhere = path(&rt, alloc, b"/none/none.ko");
    let mut files = DiskFiles::new(rt);
    let answer = files.read(alloc, &nowhere).err();
    if answer != Some(FileAnswer::Absent) {
        panic!(rt; "another answer");
    }
}

#[test]
fn files_and_outputs_are_called(rt: HostRuntime) {
    files_in_memory_are_read_and_replaced(&rt, rt.alloc());
    folders_in_memory_are_listed(&rt, rt.alloc());
    listed_calls_fail(&rt, rt.alloc());
    outputs_in_memory_have_a_room(&rt, rt.alloc());
}
