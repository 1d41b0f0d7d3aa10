ghost use Rattle.std.specs.Prelude.{◌≡◌};
ghost use Rattle.outside_calls.specs.CallCounts.{answered, replied};
ghost use Rattle.outside_calls.specs.Contents.{is_conf_name, is_path};
ghost use Rattle.outside_calls.specs.Counted.{none_counted, one_counted};
ghost use Rattle.km_outside.specs.DiskSeen.{disk_seen};
ghost use Rattle.outside_calls.specs.FilesSeen.{ListAnswers, ReadAnswers, ReplaceAnswers, buffered};
ghost use Rattle.outside_calls.specs.Listing.{test_of};

use crate::disk_listing::list_folder;
use crate::disk_read::read_file;
use crate::disk_replace::replace_file;
use km_names::{Blob, Bytes, List, Names, PathText, Paths};
use outside_calls::{Counts, FileAnswer, FileBuffer, Files, Listing, Reads, ReplaceAnswer, Writes};
use std::alloc::Global;
use std::marker::Model;
use std::rt;

/// The files of the machine that the program runs on, reached through the runtime `R`. Their
/// contents aren't known, and calls may fail.
#[derive(Drop)]
pub struct DiskFiles<R> {
    rt: R,
    counts: Counts,
}

impl<R> Model for DiskFiles<R> {
    ghost use Rattle.outside_calls.specs.Counted.{Counted};

    ghost Value = { Counted };

    ghost use Rattle.outside_calls.specs.Codes.{counted_code};

    ghost coded = { counted_code };

    ghost view = { λ d. d.counts };
}

impl<R: rt::Files + AllocGlobal + Clone + Drop> DiskFiles<R> {
    /// Returns the files that the runtime reaches, with nothing counted.
    pub fn new(rt: R) -> Self
        ensures { result ≡ none_counted }
    {
        DiskFiles {
            rt,
            counts: Counts::new(),
        }
    }

    /// Lists the folder.
    fn list<K>(
        &mut self,
        alloc: Global,
        listing: Listing,
        dir: &PathText,
    ) -> Result<List<Bytes<K>>, FileAnswer>
        ensures answers { ListAnswers (test_of listing) dir.now (disk_seen self.old)
            (disk_seen self.new) result }
        ensures after { self.new ≡ one_counted self.old (answered self.old.counts result) }
    {
        self.counts.make();
        match list_folder(&self.rt, alloc, listing, dir) {
            Ok(names) => Ok(names),
            Err(answer) => Err(self.counts.refuse(answer)),
        }
    }
}

impl<R: rt::Files + AllocGlobal + Clone + Drop> Reads for DiskFiles<R> {
    ghost seen = { disk_seen };

    /// Reads the file at the path. The answer is `Absent` if nothing is there, if a part of the
    /// path is no folder, and if a folder is there. A path that isn't UTF-8 and every other error
    /// of the system are `Failed`. A regular file that is longer than the limit isn't read.
    fn read(&mut self, alloc: Global, path: &PathText) -> Result<Blob, FileAnswer>
        ensures answers { ReadAnswers path.now (disk_seen self.old) (disk_seen self.new) result }
        ensures after { self.new ≡ one_counted self.old (answered self.old.counts result) }
    {
        let mut buffer = FileBuffer::new(alloc);
        self.read_into(alloc, path, &mut buffer)?;
        Ok(buffer.into_blob())
    }

    fn read_into(
        &mut self,
        _alloc: Global,
        path: &PathText,
        buffer: &mut FileBuffer,
    ) -> Result<(), FileAnswer>
        ensures answers { ReadAnswers path.now (disk_seen self.old) (disk_seen self.new)
            (buffered buffer.new result) }
        ensures after { self.new ≡ one_counted self.old (answered self.old.counts result) }
    {
        self.counts.make();
        match read_file(&self.rt, path, buffer) {
            Ok(()) => Ok(()),
            Err(answer) => Err(self.counts.refuse(answer)),
        }
    }

    /// Lists what ends in `.conf` in the folder and is no folder itself, after links are followed.
    /// A link to nowhere isn't listed. The answer is `Absent` if nothing is there, if a part of the
    /// path is no folder, and if a file is there. A name that isn't UTF-8 and every other error of
    /// the system are `Failed`.
    fn list_conf(&mut self, alloc: Global, dir: &PathText) -> Result<Names, FileAnswer>
        ensures answers { ListAnswers is_conf_name dir.now (disk_seen self.old) (disk_seen self.new)
            result }
        ensures after { self.new ≡ one_counted self.old (answered self.old.counts result) }
    {
        self.list(alloc, Listing::Conf, dir)
    }
}

impl<R: rt::Files + AllocGlobal + Clone + Drop> Writes for DiskFiles<R> {
    /// Writes a new file beside the old one, flushes it to the disk and gives it the old one's
    /// name. On any failure the new file is removed again. A link at the path is replaced itself,
    /// and its target stays as it was.
    fn replace(&mut self, alloc: Global, path: &PathText, bytes: &[u8]) -> Result<(), ReplaceAnswer>
        ensures answers { ReplaceAnswers path.now bytes.now (disk_seen self.old)
            (disk_seen self.new) result }
        ensures after { self.new ≡ one_counted self.old (replied self.old.counts result) }
    {
        self.counts.make();
        let answer = replace_file(&self.rt, alloc, path, bytes);
        if answer == Err(ReplaceAnswer::Failed) {
            self.counts.refuse(FileAnswer::Failed);
        }
        answer
    }
}

impl<R: rt::Files + AllocGlobal + Clone + Drop> Files for DiskFiles<R> {
    /// Lists the regular files below the folder at every depth. Links below it are neither followed
    /// nor listed. The refusals are the same as for a listing of configuration files.
    fn list_tree(&mut self, alloc: Global, dir: &PathText) -> Result<Paths, FileAnswer>
        ensures answers { ListAnswers is_path dir.now (disk_seen self.old) (disk_seen self.new)
            result }
        ensures after { self.new ≡ one_counted self.old (answered self.old.counts result) }
    {
        self.list(alloc, Listing::Tree, dir)
    }
}
