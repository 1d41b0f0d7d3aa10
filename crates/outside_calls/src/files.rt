// The traits of files, and why a call on a file fails.
ghost use Rattle.std.specs.Prelude.{◌≡◌};
ghost use Rattle.outside_calls.specs.Contents.{is_conf_name, is_path};
ghost use Rattle.outside_calls.specs.FilesSeen.{FilesSeen, ListAnswers, ReadAnswers};
ghost use Rattle.outside_calls.specs.FilesSeen.{ReplaceAnswers, buffered};

use crate::FileBuffer;
use km_names::{Blob, Names, PathText, Paths};
use std::alloc::{AllocError, AllocFailed, Global};

/// The greatest number of names that a folder may have to be listed.
pub const LIST_LIMIT: usize = 1_000_000;

/// Why a file wasn't read or a folder wasn't listed.
#[derive(Clone, Copy, Debug, PartialEq, Eq)]
pub enum FileAnswer {
    /// Nothing is there.
    Absent,
    /// The call failed.
    Failed,
    /// There is more than the limit. `length` is the number of bytes, or of the folder's entries
    /// that were met.
    TooLarge { length: u64 },
    /// Out of memory.
    Memory,
}

impl From<AllocError> for FileAnswer {
    ghost use Rattle.outside_calls.specs.declared.files.FileAnswer.TheVariants.{Memory};

    ghost from_gives = { λ _ answer. answer ≡ Memory };

    fn from(_: AllocError) -> Self {
        FileAnswer::Memory
    }
}

impl<T: Drop> From<AllocFailed<T>> for FileAnswer {
    ghost use Rattle.outside_calls.specs.declared.files.FileAnswer.TheVariants.{Memory};

    ghost from_gives = { λ _ answer. answer ≡ Memory };

    fn from(_: AllocFailed<T>) -> Self {
        FileAnswer::Memory
    }
}

/// Why a file wasn't replaced.
#[derive(Clone, Copy, Debug, PartialEq, Eq)]
pub enum ReplaceAnswer {
    /// The call failed.
    Failed,
    /// Out of memory.
    Memory,
}

impl From<AllocError> for ReplaceAnswer {
    ghost use Rattle.outside_calls.specs.declared.files.ReplaceAnswer.TheVariants.{Memory};

    ghost from_gives = { λ _ answer. answer ≡ Memory };

    fn from(_: AllocError) -> Self {
        ReplaceAnswer::Memory
    }
}

impl<T: Drop> From<AllocFailed<T>> for ReplaceAnswer {
    ghost use Rattle.outside_calls.specs.declared.files.ReplaceAnswer.TheVariants.{Memory};

    ghost from_gives = { λ _ answer. answer ≡ Memory };

    fn from(_: AllocFailed<T>) -> Self {
        ReplaceAnswer::Memory
    }
}

/// Files that can be read, and folders of configuration that can be listed.
pub trait Reads {
    /// What a contract sees of the files.
    ghost seen: { Self → FilesSeen };

    /// Returns the bytes of the file at the path, if they are no more than
    /// [`km_names::FILE_LIMIT`].
    fn read(&mut self, alloc: Global, path: &PathText) -> Result<Blob, FileAnswer>
        ensures answers { ReadAnswers path.now (seen self.old) (seen self.new) result };

    /// Reads the file at the path as [`read`](Reads::read) does, into a buffer in place of what was
    /// there. After a refusal the buffer may hold any bytes. Implementations that can use its
    /// memory again have a body of their own.
    fn read_into(
        &mut self,
        alloc: Global,
        path: &PathText,
        buffer: &mut FileBuffer,
    ) -> Result<(), FileAnswer>
        ensures answers { ReadAnswers path.now (seen self.old) (seen self.new)
            (buffered buffer.new result) }
    {
        *buffer = FileBuffer::from_blob(alloc, self.read(alloc, path)?);
        Ok(())
    }

    /// Returns the names of the files in the folder that end in `.conf`, each once and rising by
    /// bytes, if they are no more than [`LIST_LIMIT`].
    fn list_conf(&mut self, alloc: Global, dir: &PathText) -> Result<Names, FileAnswer>
        ensures answers { ListAnswers is_conf_name dir.now (seen self.old) (seen self.new) result };
}

/// Files that can also be replaced.
pub trait Writes: Reads {
    /// Puts a file of these bytes at the path, in place of what was there: whole, or not at all.
    fn replace(&mut self, alloc: Global, path: &PathText, bytes: &[u8]) -> Result<(), ReplaceAnswer>
        ensures answers { ReplaceAnswers path.now bytes.now
            (Self.seen self.old) (Self.seen self.new) result };
}

/// Everything that the program does with files.
pub trait Files: Writes {
    /// Returns the paths of the files below the folder at every depth, relative to it, each once
    /// and rising by bytes, if they are no more than [`LIST_LIMIT`].
    fn list_tree(&mut self, alloc: Global, dir: &PathText) -> Result<Paths, FileAnswer>
        ensures answers { ListAnswers is_path dir.now
            (Self.seen self.old) (Self.seen self.new) result };
}
