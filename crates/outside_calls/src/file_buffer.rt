ghost use Rattle.std.specs.Prelude.{◌≡◌, ◌+◌, ◌≤◌, [], length, take, IfSome, OnOk};
ghost use Rattle.km_names.specs.Limit.{file_limit};

use crate::reading::read_limited;
use km_names::Blob;
use std::alloc::Global;
use std::io;
use std::io::Read;
use std::marker::Model;

/// How many bytes of memory are kept for the next read at most. Few modules have more.
const KEPT: usize = 8 << 20;

/// The bytes of the file that was read last, in memory that the next read uses again, up to 8
/// megabytes of it. A contract sees it as those bytes.
#[derive(Drop)]
pub struct FileBuffer {
    // What was read whole by somebody else, and not into the room.
    given: Blob,
    room: Vec<u8>,
    filled: usize,
}

impl Model for FileBuffer {
    ghost use Rattle.std.specs.Prelude.{ℕ, ◌≡◌, ◌+◌, ◌≤◌, ◌⊎◌, ◌++◌, [], List, length, take, vec_len};
    ghost use Rattle.km_names.specs.Limit.{file_limit};

    ghost Value = { List ℕ };

    ghost view = { λ b. b.given ++ take b.filled b.room.items };

    ghost invariant = { λ b. (b.filled ≤ vec_len b.room) × (vec_len b.room ≤ file_limit + 1)
        × ((b.given ≡ []) ⊎ (b.filled ≡ 0)) };
}

impl FileBuffer {
    /// Returns the empty buffer. It takes no memory.
    pub fn new(alloc: Global) -> Self
        ensures { result ≡ [] }
    {
        FileBuffer::from_blob(alloc, Blob::new(alloc))
    }

    /// Returns the bytes as a slice.
    pub fn as_bytes(&self) -> &[u8]
        ensures { result.now ≡ self.now }
    {
        if self.filled > 0 {
            &self.room[..self.filled]
        } else {
            self.given.as_bytes()
        }
    }

    /// Returns the bytes as an owned value, in the memory of the buffer.
    pub fn into_blob(self) -> Blob
        ensures { result ≡ self }
    {
        let FileBuffer {
            given,
            mut room,
            filled,
        } = self;
        if filled == 0 {
            return given;
        }
        room.truncate(filled);
        Blob::from_vec(room)
    }

    /// Returns a buffer with the bytes of a file that was read, in their own memory.
    pub(crate) fn from_blob(alloc: Global, bytes: Blob) -> Self
        ensures { result ≡ bytes }
    {
        FileBuffer {
            given: bytes,
            room: Vec::new(alloc),
            filled: 0,
        }
    }

    /// Reads to the end, and at most to one byte past [`FILE_LIMIT`](km_names::FILE_LIMIT), in
    /// place of what was there. If about `expected` bytes are to come, memory for them is reserved
    /// once. After an error, which is the reader's or out of memory, the buffer may hold any bytes.
    pub fn read_from<R: Read>(&mut self, reader: &mut R, expected: usize) -> io::Result<()>
        ensures limit { OnOk result (length self.new ≤ file_limit + 1) }
        ensures bytes { OnOk result
            (IfSome (R.remaining reader.old) (λ left. self.new ≡ take (file_limit + 1) left)) }
    {
        self.clear();
        self.filled = read_limited(reader, &mut self.room, expected)?;
        Ok(())
    }

    /// Forgets the bytes, and gives back what isn't kept of their memory.
    fn clear(&mut self)
        ensures { self.new ≡ [] }
    {
        self.given = Blob::new(*self.room.allocator());
        self.filled = 0;
        if self.room.len() > KEPT {
            self.room.truncate(KEPT);
            self.room.shrink_to_fit();
        }
    }
}
