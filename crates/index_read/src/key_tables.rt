ghost use Rattle.std.specs.Prelude.{ℕ, List, OnOk};
ghost use Rattle.glob_match.specs.Progress.{IsWhole};
ghost use Rattle.index_read.specs.Searches.{AreKnown, IsReady};

use glob_match::{Ends, Progress, Runs};
use std::alloc::{AllocError, Global};

/// The bytes of a prefix that is long. Hardly a module has such an alias.
const LONG: usize = 128;

/// What is known of a file before its keys are read, so that bytes that many prefixes share aren't
/// read again for each of them.
#[derive(Drop)]
pub(crate) struct KeyTables {
    pub(crate) runs: Runs,
    pub(crate) ends: Ends,
    /// How many bytes of prefixes were read.
    pub(crate) read: usize,
}

impl KeyTables {
    /// Makes one that knows nothing, for any file and any text.
    pub(crate) fn new(alloc: Global) -> KeyTables
        ensures { (bytes text : List ℕ) → AreKnown bytes text result }
    {
        KeyTables {
            runs: Runs::new(alloc),
            ends: Ends::new(alloc),
            read: 0,
        }
    }

    /// Finds the runs of the file before a prefix of this many bytes, if that is long and as many
    /// bytes were read as the file has. Finds the ends that match too, if the node has no children.
    pub(crate) fn find(
        &mut self,
        file: &[u8],
        progress: &Progress,
        count: usize,
        is_leaf: bool,
    ) -> Result<(), AllocError>
        requires whole { IsWhole progress.now }
        requires ready { IsReady file.now progress.now self.old }
        ensures { OnOk result (IsReady file.now progress.now self.new) }
    {
        if count <= LONG || self.read < file.len() {
            return Ok(());
        }
        self.runs.find(file)?;
        if is_leaf {
            self.ends.find(file, progress)?;
        }
        Ok(())
    }
}
