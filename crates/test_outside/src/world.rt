// Files and outputs, in memory and real.
use crate::same::holds;
use km_names::{Blob, Bytes, FILE_LIMIT, List, PathText};
use km_outside::{
    CallKind, DiskFiles, FileAnswer, FileBuffer, Files, MemFiles, MemOut, Out, OutFailed,
    ReplaceAnswer, StdErr, StdOut,
};
use std::alloc::Global;
use std::fs::File;
use std::os::unix::fs::{PermissionsExt, symlink};
use std::process::Abort;
use std::{fs, io};

/// What a read or a listing is to answer.
type Wanted = Result<&'static [u8], FileAnswer>;

/// Reads through the bound, as the crates above do.
fn read<F: Files>(files: &mut F, alloc: Global, path: &[u8]) -> Result<Blob, FileAnswer> {
    files.read(alloc, &PathText::from_slice(alloc, path)?)
}

/// Writes through the bound, as the crates above do.
fn write<O: Out>(out: &mut O, bytes: &[u8]) -> Result<(), OutFailed> {
    out.write(bytes)
}

/// Lists through the bound: the names, each with a line end.
fn conf_names<F: Files>(files: &mut F, alloc: Global, dir: &[u8]) -> Result<Blob, FileAnswer> {
    let names = files.list_conf(alloc, &PathText::from_slice(alloc, dir)?)?;
    lines(alloc, &names)
}

/// Lists all files below a folder in the same way.
fn tree_paths<F: Files>(files: &mut F, alloc: Global, dir: &[u8]) -> Result<Blob, FileAnswer> {
    let paths = files.list_tree(alloc, &PathText::from_slice(alloc, dir)?)?;
    lines(alloc, &paths)
}

fn lines<K>(alloc: Global, names: &List<Bytes<K>>) -> Result<Blob, FileAnswer> {
    let mut text = Blob::new(alloc);
    for name in names.as_slice() {
        text.extend(name.as_bytes())?;
        text.push(b'\n')?;
    }
    Ok(text)
}

/// Replaces a file through the bound.
fn replace<F: Files>(
    files: &mut F,
    alloc: Global,
    path: &[u8],
    bytes: &[u8],
) -> Result<(), ReplaceAnswer> {
    files.replace(alloc, &PathText::from_slice(alloc, path)?, bytes)
}

/// Returns an answer with its bytes.
fn seen(answer: &Result<Blob, FileAnswer>) -> Result<&[u8], FileAnswer> {
    match answer {
        Ok(bytes) => Ok(bytes.as_bytes()),
        Err(answer) => Err(*answer),
    }
}

/// Compares an answer with the expected bytes or refusal.
fn expect(rt: &impl Abort, got: Result<&[u8], FileAnswer>, want: Wanted) {
    assert_eq!(rt; got, want);
}

/// Makes the reads of a table.
fn expect_reads<F: Files>(rt: &impl Abort, alloc: Global, files: &mut F, rows: &[(&[u8], Wanted)]) {
    for (path, want) in rows {
        expect(rt, seen(&read(files, alloc, path)), *want);
    }
}

/// Makes the listings of a table.
fn expect_confs<F: Files>(rt: &impl Abort, alloc: Global, files: &mut F, rows: &[(&[u8], Wanted)]) {
    for (dir, want) in rows {
        expect(rt, seen(&conf_names(files, alloc, dir)), *want);
    }
}

/// Lists all files below the folders of a table.
fn expect_trees<F: Files>(rt: &impl Abort, alloc: Global, files: &mut F, rows: &[(&[u8], Wanted)]) {
    for (dir, want) in rows {
        expect(rt, seen(&tree_paths(files, alloc, dir)), *want);
    }
}

/// Replaces the files of a table.
fn expect_replaced<F: Files>(
    rt: &impl Abort,
    alloc: Global,
    files: &mut F,
    rows: &[(&[u8], &[u8], Result<(), ReplaceAnswer>)],
) {
    for (path, bytes, want) in rows {
        holds(rt, replace(files, alloc, path, bytes) == *want);
    }
}

/// Puts a file.
fn put(rt: &impl Abort, alloc: Global, files: &mut MemFiles, path: &[u8], bytes: &[u8]) {
    let path = PathText::from_slice(alloc, path).expect(rt, "a path");
    files.put(&path, bytes).expect(rt, "put");
}

/// Compares the file at a path with the expected bytes.
fn expect_held(rt: &impl Abort, alloc: Global, files: &MemFiles, path: &[u8], want: Option<&[u8]>) {
    let path = PathText::from_slice(alloc, path).expect(rt, "a path");
    holds(rt, files.get(&path) == want);
}

/// Makes a call of a kind fail.
fn fail(rt: &impl Abort, files: &mut MemFiles, kind: CallKind, number: u8) {
    files
        .fail_call(kind, u64::from(number))
        .expect(rt, "one call more");
}

/// Paths that are read in turn, the third of them with a failure, and the answers.
static READ: [(&[u8], Wanted); 5] = [
    (b"/a", Ok(b"last")),
    (b"/ab", Ok(b"")),
    (b"/a", Err(FileAnswer::Failed)),
    (b"/b", Err(FileAnswer::Absent)),
    (b"/a", Ok(b"last")),
];

fn files_in_memory_answer_by_their_contents(rt: &impl Abort, alloc: Global) {
    let mut files = MemFiles::new(alloc);
    put(rt, alloc, &mut files, b"/a", b"first");
    put(rt, alloc, &mut files, b"/a", b"last");
    put(rt, alloc, &mut files, b"/ab", b"");
    fail(rt, &mut files, CallKind::Read, 2);
    expect_held(rt, alloc, &files, b"/a", Some(b"last"));
    expect_held(rt, alloc, &files, b"/", None);
    expect_reads(rt, alloc, &mut files, &READ);
}

/// The paths of files in memory.
static LISTED: [&[u8]; 6] = [
    b"/e/b.conf",
    b"/e/a.conf",
    b"/e/d/c.conf",
    b"/e/a.conf.old",
    b"/e2/x.conf",
    b"/only/deep/f",
];

/// Folders whose names are listed in turn, the second of them with a failure.
static CONFS: [(&[u8], Wanted); 6] = [
    (b"/e/", Ok(b"a.conf\nb.conf\n")),
    (b"/e", Err(FileAnswer::Failed)),
    (b"/e", Ok(b"a.conf\nb.conf\n")),
    (b"/only", Ok(b"")),
    (b"/none", Err(FileAnswer::Absent)),
    (b"/e/a.conf", Err(FileAnswer::Absent)),
];

/// Folders below which all files are listed in turn, the first of them with a failure.
static TREES: [(&[u8], Wanted); 4] = [
    (b"/e", Err(FileAnswer::Failed)),
    (b"/e", Ok(b"a.conf\na.conf.old\nb.conf\nd/c.conf\n")),
    (b"/only", Ok(b"deep/f\n")),
    (b"/none", Err(FileAnswer::Absent)),
];

fn folders_in_memory_are_listed_by_their_paths(rt: &impl Abort, alloc: Global) {
    let mut files = MemFiles::new(alloc);
    for path in &LISTED {
        put(rt, alloc, &mut files, path, b"");
    }
    fail(rt, &mut files, CallKind::ListConf, 1);
    fail(rt, &mut files, CallKind::ListTree, 0);
    expect_confs(rt, alloc, &mut files, &CONFS);
    expect_trees(rt, alloc, &mut files, &TREES);
}

/// Files that are replaced in turn, the first of them with a failure.
static REPLACED: [(&[u8], &[u8], Result<(), ReplaceAnswer>); 3] = [
    (b"/a", b"new", Err(ReplaceAnswer::Failed)),
    (b"/a", b"new", Ok(())),
    (b"/b/c", b"other", Ok(())),
];

/// What is there before the first success, and after the last.
static KEPT: [(&[u8], Wanted); 1] = [(b"/a", Ok(b"old"))];

static NEW: [(&[u8], Wanted); 2] = [(b"/a", Ok(b"new")), (b"/b/c", Ok(b"other"))];

fn files_in_memory_are_replaced_whole_or_not_at_all(rt: &impl Abort, alloc: Global) {
    let mut files = MemFiles::new(alloc);
    put(rt, alloc, &mut files, b"/a", b"old");
    fail(rt, &mut files, CallKind::Replace, 0);
    expect_replaced(rt, alloc, &mut files, &REPLACED[..1]);
    expect_reads(rt, alloc, &mut files, &KEPT);
    expect_replaced(rt, alloc, &mut files, &REPLACED[1..]);
    expect_reads(rt, alloc, &mut files, &NEW);
}

/// Pieces that are written to an output with room for four bytes, and whether each is taken. The
/// second fails.
static PIECES: [(&[u8], bool); 6] = [
    (b"ab", true),
    (b"c", false),
    (b"def", false),
    (b"", true),
    (b"cd", true),
    (b"e", false),
];

fn an_output_in_memory_keeps_to_its_room(rt: &impl Abort, alloc: Global) {
    let mut out = MemOut::with_room(alloc, 4).expect(rt, "an output");
    out.fail_write(1).expect(rt, "one write more");
    for (piece, taken) in &PIECES {
        holds(rt, write(&mut out, piece).is_ok() == *taken);
    }
    expect(rt, Ok(out.bytes()), Ok(b"abcd"));
}

#[test]
fn files_and_outputs_in_memory(rt: HostRuntime) {
    files_in_memory_answer_by_their_contents(&rt, rt.alloc());
    folders_in_memory_are_listed_by_their_paths(&rt, rt.alloc());
    files_in_memory_are_replaced_whole_or_not_at_all(&rt, rt.alloc());
    an_output_in_memory_keeps_to_its_room(&rt, rt.alloc());
}

/// Makes a real file of so many bytes.
fn make_long(rt: &HostRuntime, path: &str, length: usize) -> io::Result<()> {
    File::create(rt, path)?.set_len(length as u64)
}

/// Lengths of files, up to the limit and past it.
static LENGTHS: [usize; 8] = [
    0,
    1,
    4096,
    4097,
    100_000,
    FILE_LIMIT,
    FILE_LIMIT + 1,
    1 << 40,
];

/// Checks what is read of a file of so many bytes.
fn expect_length(rt: &impl Abort, got: Result<Blob, FileAnswer>, length: usize) {
    match got {
        Ok(bytes) => holds(rt, bytes.len() == length),
        Err(answer) => {
            let length = length as u64;
            holds(rt, length > FILE_LIMIT as u64);
            expect(rt, Err(answer), Err(FileAnswer::TooLarge { length }));
        }
    }
}

/// Paths that are read, and the answers.
static REAL: [(&[u8], Wanted); 6] = [
    (b"file", Ok(b"some bytes\n")),
    (b"no file", Err(FileAnswer::Absent)),
    (b"file/part", Err(FileAnswer::Absent)),
    (b".", Err(FileAnswer::Absent)),
    (b"not UTF-8 \xff", Err(FileAnswer::Failed)),
    (b"a NUL\0", Err(FileAnswer::Failed)),
];

#[test]
fn real_files_are_read_up_to_the_limit(rt: HostRuntime) {
    let alloc = rt.alloc();
    let mut files = DiskFiles::new(rt);
    for length in &LENGTHS {
        make_long(&rt, "file", *length).expect(&rt, "made");
        expect_length(&rt, read(&mut files, alloc, b"file"), *length);
    }
    fs::write(&rt, "file", b"some bytes\n").expect(&rt, "written");
    expect_reads(&rt, alloc, &mut files, &REAL);
    fs::remove_file(&rt, "file").expect(&rt, "removed");
}

/// Files that are read into one buffer, one after the other, and what is found there.
static REREAD: [(&[u8], Wanted); 4] = [
    (b"long", Ok(b"some bytes\n")),
    (b"short", Ok(b"few")),
    (b"none", Err(FileAnswer::Absent)),
    (b"long", Ok(b"some bytes\n")),
];

/// Reads into a buffer through the bound.
fn read_into<F: Files>(
    files: &mut F,
    alloc: Global,
    path: &[u8],
    buffer: &mut FileBuffer,
) -> Result<(), FileAnswer> {
    files.read_into(alloc, &PathText::from_slice(alloc, path)?, buffer)
}

/// Makes the reads of that table.
fn reread<F: Files>(rt: &impl Abort, files: &mut F, alloc: Global) {
    let mut buffer = FileBuffer::new(alloc);
    holds(rt, buffer.as_bytes().is_empty());
    for (path, want) in &REREAD {
        match read_into(files, alloc, path, &mut buffer) {
            Ok(()) => expect(rt, Ok(buffer.as_bytes()), *want),
            Err(answer) => expect(rt, Err(answer), *want),
        }
    }
    expect(rt, Ok(buffer.into_blob().as_bytes()), Ok(b"some bytes\n"));
}

#[test]
fn a_buffer_holds_the_file_that_was_read_last(rt: HostRuntime) {
    let alloc = rt.alloc();
    let mut files = MemFiles::new(alloc);
    put(&rt, alloc, &mut files, b"long", b"some bytes\n");
    put(&rt, alloc, &mut files, b"short", b"few");
    reread(&rt, &mut files, alloc);
    fs::write(&rt, "long", b"some bytes\n").expect(&rt, "written");
    fs::write(&rt, "short", b"few").expect(&rt, "written");
    reread(&rt, &mut DiskFiles::new(rt), alloc);
}

/// Makes a folder of configuration files and modules, with links.
fn make_tree(rt: &HostRuntime) -> io::Result<()> {
    fs::create_dir_all(rt, "top/deep/deeper")?;
    fs::create_dir(rt, "top/empty")?;
    fs::create_dir(rt, "top/dir.conf")?;
    fs::create_dir(rt, "locked")?;
    fs::write(rt, "top/b.conf", b"b")?;
    fs::write(rt, "top/a.conf", b"a")?;
    fs::write(rt, "top/deep/m.ko", b"m")?;
    fs::write(rt, "top/deep/deeper/n.ko", b"n")?;
    symlink(rt, "b.conf", "top/link.conf")?;
    symlink(rt, "/dev/null", "top/null.conf")?;
    symlink(rt, "nowhere", "top/lost.conf")?;
    symlink(rt, "deep", "top/linked")?;
    symlink(rt, "top", "link")?;
    symlink(rt, "loop", "loop")?;
    symlink(rt, "../loop", "locked/loop.conf")
}

/// Real folders whose names are listed.
static REAL_CONFS: [(&[u8], Wanted); 9] = [
    (b"top", Ok(b"a.conf\nb.conf\nlink.conf\nnull.conf\n")),
    (b"link/", Ok(b"a.conf\nb.conf\nlink.conf\nnull.conf\n")),
    (b"top/empty", Ok(b"")),
    (b"top/none", Err(FileAnswer::Absent)),
    (b"top/a.conf", Err(FileAnswer::Absent)),
    (b"top/a.conf/x", Err(FileAnswer::Absent)),
    (b"loop", Err(FileAnswer::Failed)),
    (b"not UTF-8 \xff", Err(FileAnswer::Failed)),
    (b"locked", Err(FileAnswer::Failed)),
];

/// Real folders below which all files are listed.
static REAL_TREES: [(&[u8], Wanted); 7] = [
    (b"top", Ok(b"a.conf\nb.conf\ndeep/deeper/n.ko\ndeep/m.ko\n")),
    (
        b"link",
        Ok(b"a.conf\nb.conf\ndeep/deeper/n.ko\ndeep/m.ko\n"),
    ),
    (b"top/empty/", Ok(b"")),
    (b"top/none", Err(FileAnswer::Absent)),
    (b"top/a.conf", Err(FileAnswer::Absent)),
    (b"loop", Err(FileAnswer::Failed)),
    (b"locked", Ok(b"")),
];

#[test]
fn real_folders_are_listed(rt: HostRuntime) {
    make_tree(&rt).expect(&rt, "made");
    let alloc = rt.alloc();
    let mut files = DiskFiles::new(rt);
    expect_confs(&rt, alloc, &mut files, &REAL_CONFS);
    expect_trees(&rt, alloc, &mut files, &REAL_TREES);
}

/// Real files that are replaced. A file that another run left beside the second is neither taken
/// nor touched, and a link is replaced itself. The last ones can't be: a folder is at the path, or
/// a folder of the path is missing.
static REAL_REPLACED: [(&[u8], &[u8], Result<(), ReplaceAnswer>); 9] = [
    (b"d/old", b"new", Ok(())),
    (b"d/made", b"", Ok(())),
    (b"d/old", b"newer", Ok(())),
    (b"d/link", b"instead", Ok(())),
    (b"d/taken", b"new", Err(ReplaceAnswer::Failed)),
    (b"none/old", b"new", Err(ReplaceAnswer::Failed)),
    (b"d/old/x", b"new", Err(ReplaceAnswer::Failed)),
    (b"d/\xff", b"new", Err(ReplaceAnswer::Failed)),
    (b"d/a NUL\0", b"new", Err(ReplaceAnswer::Failed)),
];

/// What is there after the link was replaced.
static REAL_NEW: [(&[u8], Wanted); 3] = [
    (b"d/link", Ok(b"instead")),
    (b"d/old", Ok(b"newer")),
    (b"d/old.0.new", Ok(b"left")),
];

/// Nothing is left of what failed.
static REAL_LEFT: [(&[u8], Wanted); 1] = [(b"d", Ok(b"link\nmade\nold\nold.0.new\n"))];

/// Returns whether a link was replaced by a file, and the bits of a new file's mode that must be
/// off.
fn kinds(rt: &HostRuntime) -> io::Result<(bool, u32)> {
    let is_file = fs::symlink_metadata(rt, "d/link")?.is_file();
    let mode = fs::metadata(rt, "d/made")?.permissions().mode();
    Ok((is_file, mode & 0o7133))
}

/// Makes a folder of a file that is replaced, and a folder that can't be.
fn make_files(rt: &HostRuntime) -> io::Result<()> {
    fs::create_dir_all(rt, "d/taken/full")?;
    fs::write(rt, "d/old", b"old")
}

#[test]
fn real_files_are_replaced_whole_or_not_at_all(rt: HostRuntime) {
    let alloc = rt.alloc();
    let mut files = DiskFiles::new(rt);
    make_files(&rt).expect(&rt, "made");
    expect_replaced(&rt, alloc, &mut files, &REAL_REPLACED[..2]);
    fs::write(&rt, "d/old.0.new", b"left").expect(&rt, "written");
    expect_replaced(&rt, alloc, &mut files, &REAL_REPLACED[2..3]);
    expect_reads(&rt, alloc, &mut files, &REAL_NEW[1..]);
    symlink(&rt, "old", "d/link").expect(&rt, "a link");
    expect_replaced(&rt, alloc, &mut files, &REAL_REPLACED[3..4]);
    expect_reads(&rt, alloc, &mut files, &REAL_NEW[..2]);
    let (is_file, bits) = kinds(&rt).expect(&rt, "kinds");
    holds(&rt, is_file);
    holds(&rt, bits == 0);
    expect_replaced(&rt, alloc, &mut files, &REAL_REPLACED[4..]);
    expect_trees(&rt, alloc, &mut files, &REAL_LEFT);
    expect_reads(&rt, alloc, &mut files, &REAL_NEW[1..2]);
}

#[test]
fn standard_outputs_take_a_text(rt: HostRuntime) {
    holds(&rt, write(&mut StdOut::new(rt.stdout()), b"out\n").is_ok());
    holds(&rt, write(&mut StdErr::new(rt.stderr()), b"err\n").is_ok());
}
