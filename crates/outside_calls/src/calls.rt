ghost use Rattle.std.specs.Prelude.{◌≡◌, ◌<◌, OnOk, OnErr};
ghost use Rattle.outside_calls.specs.CallsSeen.{no_calls, next_fails, called, with_failing};
ghost use Rattle.outside_calls.specs.Counts.{count_end};

use std::alloc::{AllocError, Global};
use std::marker::Model;

/// The calls of one kind, numbered from 0, with a list of those that are to fail.
#[derive(Drop)]
pub(crate) struct Calls {
    next: u64,
    failing: Vec<u64>,
}

impl Model for Calls {
    ghost use Rattle.outside_calls.specs.CallsSeen.{CallsSeen};

    ghost Value = { CallsSeen };

    ghost view = { λ c. record { next = c.next; failing = c.failing.items } };
}

impl Calls {
    /// Returns the state of no call made and none listed to fail. It takes no memory.
    pub(crate) fn new(alloc: Global) -> Self
        ensures { result ≡ no_calls }
    {
        Calls {
            next: 0,
            failing: Vec::new(alloc),
        }
    }

    /// Counts the next call, and returns whether it is to fail.
    pub(crate) fn make(&mut self) -> bool
        ensures fails { result ≡ next_fails self.old }
        ensures after { self.new ≡ called self.old }
    {
        let fails = self.failing.contains(&self.next);
        self.next = self.next.saturating_add(1);
        fails
    }

    /// Lists the call of number `n` to fail. After a refusal the list is as before.
    pub(crate) fn fail(&mut self, n: u64) -> Result<(), AllocError>
        requires { n < count_end }
        ensures ok { OnOk result (self.new ≡ with_failing self.old n) }
        ensures err { OnErr result (self.new ≡ self.old) }
    {
        self.failing.push(n)?;
        Ok(())
    }
}
