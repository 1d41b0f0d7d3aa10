ghost use Rattle.std.specs.Prelude.{◌≡◌, ◌≢◌, ◌+◌, ◌≤◌, ◌<◌, ℕ, length, drop, slice_index};
ghost use Rattle.std.specs.Prelude.{MatchOption, IfOk};
ghost use Rattle.index_format.specs.Check.{whole_values};
ghost use Rattle.index_nodes.specs.ValueStarts.{AreValueStarts};

use memchr::memrchr;
use std::alloc::{AllocError, Global};

/// The bytes of a value before its text: its priority.
const TEXT_PLACE: usize = 4;

/// For each number of values, the last place of a file from which that many are whole. They are
/// whole from every place before it too, so that one comparison decides, however many values share
/// their bytes. The places are found as they are asked for, from the end of the file on, so that
/// all of them together take one pass.
#[derive(Drop)]
pub(crate) struct ValueStarts {
    pub(crate) last: Vec<usize>,
}

/// Finds the last place from which a value ends before `limit`, or `None` if there is none.
fn last_start(bytes: &[u8], limit: usize) -> Option<usize>
    requires { limit ≤ length bytes.now }
    ensures { MatchOption result ((k : ℕ) → 4 ≤ k → k < limit → slice_index bytes.now k ≢ 0)
        (λ start. (start + 4 < limit) × (slice_index bytes.now (start + 4) ≡ 0)
        × ((k : ℕ) → start + 4 < k → k < limit → slice_index bytes.now k ≢ 0)) }
{
    let nul = memrchr(0, &bytes[..limit])?;
    nul.checked_sub(TEXT_PLACE)
}

impl ValueStarts {
    /// Begins with the place for no values, which is the only one that is known.
    pub(crate) fn new(alloc: Global, bytes: &[u8]) -> Result<ValueStarts, AllocError>
        ensures { IfOk result (AreValueStarts bytes.now) }
    {
        let mut last = Vec::new(alloc);
        last.push(bytes.len())?;
        Ok(ValueStarts { last })
    }

    /// Returns whether this many values are whole from a place on.
    pub(crate) fn are_whole(
        &mut self,
        bytes: &[u8],
        count: u32,
        start: usize,
    ) -> Result<bool, AllocError>
        requires starts { AreValueStarts bytes.now self.old }
        requires within { start ≤ length bytes.now }
        ensures whole { IfOk result (λ whole. whole ≡ whole_values count (drop start bytes.now)) }
        ensures starts { AreValueStarts bytes.now self.new }
    {
        let count = count as usize;
        while self.last.len() <= count {
            let limit = self.last[self.last.len() - 1];
            let Some(next) = last_start(bytes, limit) else {
                return Ok(false);
            };
            self.last.push(next)?;
        }
        Ok(start <= self.last[count])
    }
}
