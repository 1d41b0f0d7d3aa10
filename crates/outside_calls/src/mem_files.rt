// Files in memory, and the calls on them that can be made to fail.
ghost use Rattle.std.specs.Prelude.{◌≡◌, ◌<◌, ◌⊎◌, ◌↔◌, OnOk, OnErr, IsOk, IsTrue};
ghost use Rattle.std.specs.Option.{option_map};
ghost use Rattle.std.specs.FinMap as map;
ghost use Rattle.outside_calls.specs.Contents.{is_conf_name, is_path};
ghost use Rattle.outside_calls.specs.Counts.{count_end};
ghost use Rattle.outside_calls.specs.Listing.{kind_of, test_of};
ghost use Rattle.outside_calls.specs.FilesSeen.{ListAnswers, ReadAnswers, ReplaceAnswers};
ghost use Rattle.outside_calls.specs.MemFilesSeen.{mem_files_seen, no_files, with_file};
ghost use Rattle.outside_calls.specs.MemFilesSeen.{with_failing_call, kind_fails, mem_read};
ghost use Rattle.outside_calls.specs.MemFilesSeen.{mem_list, after_call, after_replace};
ghost use Rattle.outside_calls.specs.declared.files.FileAnswer.TheVariants.{Memory};
ghost use Rattle.outside_calls.specs.declared.files.ReplaceAnswer.TheVariants.{Failed};
ghost use Rattle.outside_calls.specs.declared.mem_files.CallKind.TheVariants.{Read, ListConf};
ghost use Rattle.outside_calls.specs.declared.mem_files.CallKind.TheVariants.{ListTree, Replace};

use crate::counts::Counts;
use crate::kinds::Kinds;
use crate::listing::Listing;
use crate::mem_listing::{collect_listed, count_listed};
use crate::{FileAnswer, Files, LIST_LIMIT, Reads, ReplaceAnswer, Writes};
use km_names::{Blob, Bytes, FILE_LIMIT, List, Names, PathText, Paths, join};
use std::alloc::{AllocError, Global};
use std::collections::BTreeMap;
use std::marker::Model;

/// The calls of files that can be made to fail.
#[derive(Clone, Copy, Debug, PartialEq, Eq)]
pub enum CallKind {
    /// [`Reads::read`].
    Read,
    /// [`Reads::list_conf`].
    ListConf,
    /// [`Files::list_tree`].
    ListTree,
    /// [`Writes::replace`].
    Replace,
}

/// Files that are kept in memory. Their contents are known, and no call fails unless it is listed
/// to fail. A folder exists if some path lies below it.
#[derive(Drop)]
pub struct MemFiles {
    alloc: Global,
    files: BTreeMap<Vec<u8>, Blob>,
    kinds: Kinds,
    counts: Counts,
}

impl Model for MemFiles {
    ghost use Rattle.outside_calls.specs.MemFilesSeen.{MemFilesSeen};
    ghost use Rattle.outside_calls.specs.Entries.{files_of};

    ghost Value = { MemFilesSeen };

    ghost use Rattle.outside_calls.specs.Codes.{mem_files_code};

    ghost coded = { mem_files_code };

    ghost view = { λ f. record {
      contents = files_of f.files.entries;
      kinds = f.kinds;
      calls = f.counts.calls;
      counts = f.counts.counts;
    } };
}

impl MemFiles {
    /// Returns the empty set of files. It takes no memory.
    pub fn new(alloc: Global) -> MemFiles
        ensures { result ≡ no_files }
    {
        MemFiles {
            alloc,
            files: BTreeMap::new(alloc),
            kinds: Kinds::new(alloc),
            counts: Counts::new(),
        }
    }

    /// Puts a file with these bytes at the path, in place of what was there. After a refusal all is
    /// as before.
    pub fn put(&mut self, path: &PathText, bytes: &[u8]) -> Result<(), AllocError>
        ensures ok { OnOk result (self.new ≡ with_file self.old path.now bytes.now) }
        ensures err { OnErr result (self.new ≡ self.old) }
    {
        let path = Vec::from_slice(self.alloc, path.as_bytes())?;
        let bytes = Blob::from_slice(self.alloc, bytes)?;
        self.files.insert(path, bytes)?;
        Ok(())
    }

    /// Returns the bytes of the file at the path.
    pub fn get(&self, path: &PathText) -> Option<&[u8]>
        ensures { option_map (λ bytes. bytes.now) result ≡ map.get self.now.contents path.now }
    {
        self.files
            .get(path.as_bytes())
            .map(|bytes| bytes.as_bytes())
    }

    /// Makes the call of this kind with number `n`, counted from 0, fail. After a refusal all is as
    /// before.
    pub fn fail_call(&mut self, kind: CallKind, n: u64) -> Result<(), AllocError>
        requires { n < count_end }
        ensures ok { OnOk result (self.new ≡ with_failing_call self.old kind n) }
        ensures err { OnErr result (self.new ≡ self.old) }
    {
        self.kinds.fail(kind, n)
    }

    /// Lists the folder, unless this call is listed to fail.
    fn list<K>(
        &mut self,
        alloc: Global,
        listing: Listing,
        dir: &PathText,
    ) -> Result<List<Bytes<K>>, FileAnswer>
        ensures exact { (result ≡ mem_list self.old (kind_of listing) (test_of listing) dir.now)
            ⊎ (result ≡ Err Memory) }
        ensures after { self.new ≡ after_call self.old (kind_of listing) result }
    {
        self.counts.make();
        if self.kinds.make(listing.kind()) {
            return Err(self.counts.refuse(FileAnswer::Failed));
        }
        let folder = join(alloc, dir, b"")?;
        let prefix = folder.as_bytes();
        if count_listed(&self.files, Listing::Tree, prefix) == 0 {
            return Err(self.counts.refuse(FileAnswer::Absent));
        }
        let count = count_listed(&self.files, listing, prefix);
        if count > LIST_LIMIT {
            let length = count as u64;
            return Err(self.counts.refuse(FileAnswer::TooLarge { length }));
        }
        Ok(collect_listed(alloc, &self.files, listing, prefix)?)
    }
}

impl Reads for MemFiles {
    ghost seen = { mem_files_seen };

    /// Returns the bytes at the path, unless this read is listed to fail.
    fn read(&mut self, alloc: Global, path: &PathText) -> Result<Blob, FileAnswer>
        ensures answers { ReadAnswers path.now (mem_files_seen self.old) (mem_files_seen self.new)
            result }
        ensures exact { (result ≡ mem_read self.old path.now) ⊎ (result ≡ Err Memory) }
        ensures memory { result ≡ Err Memory → IsOk (mem_read self.old path.now) }
        ensures after { self.new ≡ after_call self.old Read result }
    {
        self.counts.make();
        if self.kinds.make(CallKind::Read) {
            return Err(self.counts.refuse(FileAnswer::Failed));
        }
        let Some(bytes) = self.get(path) else {
            return Err(self.counts.refuse(FileAnswer::Absent));
        };
        if bytes.len() > FILE_LIMIT {
            let length = bytes.len() as u64;
            return Err(self.counts.refuse(FileAnswer::TooLarge { length }));
        }
        Ok(Blob::from_slice(alloc, bytes)?)
    }

    /// Returns the names of the configuration files in the folder, unless this call is listed to
    /// fail.
    fn list_conf(&mut self, alloc: Global, dir: &PathText) -> Result<Names, FileAnswer>
        ensures answers { ListAnswers is_conf_name dir.now (mem_files_seen self.old)
            (mem_files_seen self.new) result }
        ensures exact { (result ≡ mem_list self.old ListConf is_conf_name dir.now)
            ⊎ (result ≡ Err Memory) }
        ensures after { self.new ≡ after_call self.old ListConf result }
    {
        self.list(alloc, Listing::Conf, dir)
    }
}

impl Writes for MemFiles {
    /// Puts the file in place of what was at the path, unless this call is listed to fail.
    fn replace(
        &mut self,
        _alloc: Global,
        path: &PathText,
        bytes: &[u8],
    ) -> Result<(), ReplaceAnswer>
        ensures answers { ReplaceAnswers path.now bytes.now (mem_files_seen self.old)
            (mem_files_seen self.new) result }
        ensures fails { result ≡ Err Failed ↔ IsTrue (kind_fails self.old Replace) }
        ensures after { self.new ≡ after_replace self.old path.now bytes.now result }
    {
        self.counts.make();
        if self.kinds.make(CallKind::Replace) {
            self.counts.refuse(FileAnswer::Failed);
            return Err(ReplaceAnswer::Failed);
        }
        Ok(self.put(path, bytes)?)
    }
}

impl Files for MemFiles {
    /// Returns the paths of the files below the folder, unless this call is listed to fail.
    fn list_tree(&mut self, alloc: Global, dir: &PathText) -> Result<Paths, FileAnswer>
        ensures answers { ListAnswers is_path dir.now (mem_files_seen self.old)
            (mem_files_seen self.new) result }
        ensures exact { (result ≡ mem_list self.old ListTree is_path dir.now)
            ⊎ (result ≡ Err Memory) }
        ensures after { self.new ≡ after_call self.old ListTree result }
    {
        self.list(alloc, Listing::Tree, dir)
    }
}
