ghost use Rattle.std.specs.Prelude.{◌≡◌, ◌<◌, IfOk, OnOk, OnErr, is_err};
ghost use Rattle.outside_calls.specs.Counts.{count_end};
ghost use Rattle.outside_calls.specs.MemOutSeen.{mem_out_seen, empty_with_room, write_fails};
ghost use Rattle.outside_calls.specs.MemOutSeen.{after_write, with_failing_write};
ghost use Rattle.outside_calls.specs.OutSeen.{WriteAnswers};

use crate::calls::Calls;
use crate::{Out, OutFailed};
use std::alloc::{AllocError, Global};
use std::marker::Model;

/// An output that keeps the bytes in memory, up to a capacity that is fixed when it is made. Its
/// bytes are known. Its capacity is known as long as no write is listed to fail.
#[derive(Drop)]
pub struct MemOut {
    bytes: Vec<u8>,
    left: usize,
    writes: Calls,
    faults: u64,
}

impl Model for MemOut {
    ghost use Rattle.std.specs.Prelude.{◌+◌, ◌≤◌, length, vec_capacity};
    ghost use Rattle.outside_calls.specs.MemOutSeen.{MemOutSeen};

    ghost Value = { MemOutSeen };

    ghost view = { λ o. record
        { bytes = o.bytes.items; left = o.left; writes = o.writes; faults = o.faults } };

    ghost invariant = { λ o. length o.bytes.items + o.left ≤ vec_capacity o.bytes };
}

impl MemOut {
    /// Returns an empty output with room for this many bytes, which is reserved here.
    pub fn with_room(alloc: Global, room: usize) -> Result<MemOut, AllocError>
        ensures { IfOk result (λ out. out ≡ empty_with_room room) }
    {
        Ok(MemOut {
            bytes: Vec::with_capacity(alloc, room)?,
            left: room,
            writes: Calls::new(alloc),
            faults: 0,
        })
    }

    /// Makes the write of number `n`, counted from 0, fail. After a refusal the output is as
    /// before.
    pub fn fail_write(&mut self, n: u64) -> Result<(), AllocError>
        requires { n < count_end }
        ensures ok { OnOk result (self.new ≡ with_failing_write self.old n) }
        ensures err { OnErr result (self.new ≡ self.old) }
    {
        self.writes.fail(n)
    }

    /// Returns the bytes written so far.
    pub fn bytes(&self) -> &[u8]
        ensures { result.now ≡ self.now.bytes }
    {
        self.bytes.as_slice()
    }
}

impl Out for MemOut {
    ghost use Rattle.outside_calls.specs.MemOutSeen.{mem_out-within};

    ghost seen = { mem_out_seen };

    ghost within = { mem_out-within };

    /// Appends the piece, unless this write is listed to fail or the piece is longer than the room
    /// left.
    fn write(&mut self, bytes: &[u8]) -> Result<(), OutFailed>
        ensures answers { WriteAnswers bytes.now (mem_out_seen self.old) (mem_out_seen self.new)
            result }
        ensures fails { is_err result ≡ write_fails self.old bytes.now }
        ensures after { self.new ≡ after_write self.old bytes.now }
    {
        if self.writes.make() || bytes.len() > self.left {
            self.faults = self.faults.saturating_add(1);
            return Err(OutFailed);
        }
        self.bytes.extend_from_slice(bytes).unwrap();
        self.left -= bytes.len();
        Ok(())
    }
}
