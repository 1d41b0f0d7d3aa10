// A folder of the machine, listed.

ghost use Rattle.std.specs.Prelude.{◌≡◌, ◌+◌, ◌<◌, ◌≤◌, All, IfErr, IfOk, OnOk, length};
ghost use Rattle.std.specs.Prelude.{string_bytes, true, vec_len};
ghost use Rattle.std.specs.List.Sorted.{IsStrictlySortedBy};
ghost use Rattle.outside_calls.specs.Contents.{by_bytes};
ghost use Rattle.km_outside.specs.DiskSeen.{IsPast};
ghost use Rattle.km_outside.specs.WalkSeen.{IsSoundWalk, walk_left};
ghost use Rattle.outside_calls.specs.FilesSeen.{list_limit};
ghost use Rattle.outside_calls.specs.Listing.{test_of};

use crate::disk_read::answer_to;
use km_names::{Bytes, List, PathText, join};
use outside_calls::{FileAnswer, LIST_LIMIT, Listing, rising_list};
use std::alloc::{AllocError, Global};
use std::fs::{DirEntry, ReadDir};
use std::io::ErrorKind;
use std::{fs, io, rt};

/// Lists the folder: each name or path once, rising by bytes, if no more entries than the limit are
/// met.
pub(crate) fn list_folder<R: rt::Files + AllocGlobal + Clone + Drop, K>(
    rt: &R,
    alloc: Global,
    listing: Listing,
    dir: &PathText,
) -> Result<List<Bytes<K>>, FileAnswer>
    ensures rising { IfOk result (λ names. IsStrictlySortedBy by_bytes names) }
    ensures fits { IfOk result (λ names. All (λ name. test_of listing name ≡ true) names) }
    ensures limit { IfOk result (λ names. length names ≤ list_limit) }
    ensures past { IfErr result (IsPast list_limit) }
{
    let folder = join(alloc, dir, b"")?;
    let Ok(folder) = str::from_utf8(folder.as_bytes()) else {
        return Err(FileAnswer::Failed);
    };
    let found = find(rt, alloc, listing, folder)?;
    rising_list(alloc, found)
}

/// Returns what is found below the folder, in no order.
fn find<R: rt::Files + AllocGlobal + Clone + Drop>(
    rt: &R,
    alloc: Global,
    listing: Listing,
    folder: &str,
) -> Result<Vec<Vec<u8>>, FileAnswer>
    ensures fits { IfOk result
        (λ found. All (λ path. test_of listing path.items ≡ true) found.items) }
    ensures limit { IfOk result (λ found. vec_len found ≤ list_limit) }
    ensures past { IfErr result (IsPast list_limit) }
{
    let mut walk = Walk {
        listing,
        pending: Vec::new(alloc),
        found: Vec::new(alloc),
        met: 0,
    };
    match fs::read_dir(rt, folder) {
        Ok(entries) => walk.read_entries(rt, alloc, "", entries)?,
        Err(error) => return Err(answer_to(error.kind())),
    }
    walk.read_pending(rt, alloc, folder)?;
    Ok(walk.found)
}

/// A walk through a folder and, if all files are listed, the folders below it.
#[derive(Drop)]
struct Walk {
    listing: Listing,
    /// The folders still to be read: each relative to the walk's, with a slash at its end.
    pending: Vec<String>,
    /// The files found, in no order.
    found: Vec<Vec<u8>>,
    /// The number of entries met.
    met: usize,
}

impl Walk {
    /// Reads the folders still to be read, and those found meanwhile.
    fn read_pending<R: rt::Files + AllocGlobal + Clone + Drop>(
        &mut self,
        rt: &R,
        alloc: Global,
        top: &str,
    ) -> Result<(), FileAnswer>
        requires { IsSoundWalk self.old }
        ensures sound { OnOk result (IsSoundWalk self.new) }
        ensures listing { self.new.listing ≡ self.old.listing }
        ensures past { IfErr result (IsPast list_limit) }
    {
        while let Some(folder) = self.pending.pop() {
            let entries = open_below(rt, alloc, top, folder.as_str())?;
            self.read_entries(rt, alloc, folder.as_str(), entries)?;
        }
        Ok(())
    }

    /// Reads the entries of one folder.
    fn read_entries<R: rt::Files + AllocGlobal + Clone + Drop>(
        &mut self,
        rt: &R,
        alloc: Global,
        folder: &str,
        entries: ReadDir<R>,
    ) -> Result<(), FileAnswer>
        requires { IsSoundWalk self.old }
        ensures sound { OnOk result (IsSoundWalk self.new) }
        ensures left { OnOk result (walk_left self.new ≤ walk_left self.old) }
        ensures listing { self.new.listing ≡ self.old.listing }
        ensures past { IfErr result (IsPast list_limit) }
    {
        for entry in entries {
            match entry {
                Ok(entry) => self.take(rt, alloc, folder, &entry)?,
                Err(error) => return Err(answer_below(error)),
            }
        }
        Ok(())
    }

    /// Takes one entry of a folder.
    fn take<R: rt::Files + AllocGlobal + Clone + Drop>(
        &mut self,
        rt: &R,
        alloc: Global,
        folder: &str,
        entry: &DirEntry<R>,
    ) -> Result<(), FileAnswer>
        requires { IsSoundWalk self.old }
        ensures sound { OnOk result (IsSoundWalk self.new) }
        ensures left { OnOk result (walk_left self.new ≤ walk_left self.old) }
        ensures listing { self.new.listing ≡ self.old.listing }
        ensures past { IfErr result (IsPast list_limit) }
    {
        self.meet()?;
        let path = joined(alloc, folder, entry.file_name())?;
        if !self.listing.lists(path.as_bytes()) {
            return Ok(());
        }
        let kind = kind_of_entry(rt, self.listing, entry)?;
        self.keep(kind, path)
    }

    /// Counts one more entry that is met, if it is within the limit.
    fn meet(&mut self) -> Result<(), FileAnswer>
        requires { IsSoundWalk self.old }
        ensures sound { OnOk result (IsSoundWalk self.new) }
        ensures room { OnOk result (vec_len self.new.found < self.new.met) }
        ensures left { OnOk result (walk_left self.new + 2 ≤ walk_left self.old) }
        ensures listing { self.new.listing ≡ self.old.listing }
        ensures past { IfErr result (IsPast list_limit) }
    {
        if self.met >= LIST_LIMIT {
            let length = LIST_LIMIT as u64 + 1;
            return Err(FileAnswer::TooLarge { length });
        }
        self.met += 1;
        Ok(())
    }

    /// Keeps the path of an entry that was met: as found, or as a folder that is still to be read.
    fn keep(&mut self, kind: EntryKind, mut path: String) -> Result<(), FileAnswer>
        requires sound { IsSoundWalk self.old }
        requires room { vec_len self.old.found < self.old.met }
        requires fits { test_of self.old.listing (string_bytes path) ≡ true }
        ensures sound { OnOk result (IsSoundWalk self.new) }
        ensures left { OnOk result (walk_left self.new ≤ walk_left self.old + 1) }
        ensures listing { self.new.listing ≡ self.old.listing }
        ensures past { IfErr result (IsPast list_limit) }
    {
        match kind {
            EntryKind::File => self.found.push(path.into_bytes())?,
            EntryKind::Folder => {
                path.push('/')?;
                self.pending.push(path)?;
            }
            EntryKind::Other => {}
        }
        Ok(())
    }
}

/// Opens a folder below the one that is listed.
fn open_below<R: rt::Files + AllocGlobal + Clone + Drop>(
    rt: &R,
    alloc: Global,
    top: &str,
    folder: &str,
) -> Result<ReadDir<R>, FileAnswer>
    ensures { IfErr result (IsPast list_limit) }
{
    let path = joined(alloc, top, folder)?;
    match fs::read_dir(rt, path.as_str()) {
        Ok(entries) => Ok(entries),
        Err(error) => Err(answer_below(error)),
    }
}

/// Returns the path of a name in a folder, which has a slash at its end. It has room for a slash of
/// its own.
fn joined(alloc: Global, folder: &str, name: &str) -> Result<String, AllocError> {
    let length = folder.len().saturating_add(name.len()).saturating_add(1);
    let mut path = String::with_capacity(alloc, length)?;
    path.push_str(folder)?;
    path.push_str(name)?;
    Ok(path)
}

/// Returns the answer to an error of the system below the folder that is listed, when the folder
/// itself exists.
fn answer_below(error: io::Error) -> FileAnswer
    ensures { IsPast list_limit result }
{
    match error.kind() {
        ErrorKind::OutOfMemory => FileAnswer::Memory,
        _ => FileAnswer::Failed,
    }
}

/// Returns the kind of the entry. A listing of configuration files follows links; a listing of all
/// files doesn't.
fn kind_of_entry<R: rt::Files>(
    rt: &R,
    listing: Listing,
    entry: &DirEntry<R>,
) -> Result<EntryKind, FileAnswer>
    ensures { IfErr result (IsPast list_limit) }
{
    let answer = match listing {
        Listing::Conf => fs::metadata(rt, entry.path()),
        Listing::Tree => entry.metadata(),
    };
    match answer {
        Ok(metadata) => Ok(kind_of_type(listing, metadata.is_dir(), metadata.is_file())),
        Err(error) if listing == Listing::Conf && error.kind() == ErrorKind::NotFound => {
            Ok(EntryKind::Other)
        }
        Err(error) => Err(answer_below(error)),
    }
}

/// Returns the kind of an entry by its type: whether it is a folder or a regular file.
fn kind_of_type(listing: Listing, is_dir: bool, is_file: bool) -> EntryKind {
    match listing {
        Listing::Conf if is_dir => EntryKind::Other,
        Listing::Conf => EntryKind::File,
        Listing::Tree if is_dir => EntryKind::Folder,
        Listing::Tree if is_file => EntryKind::File,
        Listing::Tree => EntryKind::Other,
    }
}

/// The kind of an entry of a folder, as a listing sees it.
#[derive(Clone, Copy)]
enum EntryKind {
    /// A file that is listed if its name passes the test.
    File,
    /// A folder whose files are listed too.
    Folder,
    /// Neither: a link, a device and the like, or an entry that has gone since.
    Other,
}
