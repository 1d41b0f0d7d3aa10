use km_names::FILE_LIMIT;
use std::alloc::AllocError;

/// How many bytes the list that a lookup in all keys answers may take. It is four times the
/// greatest file.
const ROOM: usize = 4 * FILE_LIMIT;

/// How many bytes may still be taken. Nodes may overlap, and the keys of a chain of nodes begin
/// alike, so that a small file may have a map of any size. So what is kept is counted.
#[derive(Clone, Copy)]
pub(crate) struct Room {
    left: usize,
}

impl Room {
    /// Makes the room for a lookup in all keys.
    pub(crate) fn new() -> Room {
        Room { left: ROOM }
    }

    /// Makes the room for the values of one key. There are no more of these than the file has.
    pub(crate) fn of_one_key() -> Room {
        Room { left: usize::MAX }
    }

    /// Takes this many bytes.
    ///
    /// # Errors
    ///
    /// Out of memory if fewer are left.
    pub(crate) fn take(&mut self, bytes: usize) -> Result<(), AllocError> {
        self.left = self.left.checked_sub(bytes).ok_or(AllocError)?;
        Ok(())
    }
}
