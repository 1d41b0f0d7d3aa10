ghost use Rattle.std.specs.Prelude.{◌≡◌, ◌<◌, OnOk, OnErr};
ghost use Rattle.outside_calls.specs.CallsSeen.{next_fails, with_failing};
ghost use Rattle.outside_calls.specs.Counts.{count_end};
ghost use Rattle.outside_calls.specs.MemFilesSeen.{no_kinds, calls_of, kind_called, with_calls};

use crate::CallKind;
use crate::calls::Calls;
use std::alloc::{AllocError, Global};
use std::marker::Model;

/// The calls of each kind, each numbered on its own.
#[derive(Drop)]
pub(crate) struct Kinds {
    reads: Calls,
    conf_lists: Calls,
    tree_lists: Calls,
    replaces: Calls,
}

impl Model for Kinds {
    ghost use Rattle.outside_calls.specs.MemFilesSeen.{KindsSeen};

    ghost Value = { KindsSeen };

    ghost use Rattle.outside_calls.specs.Codes.{kinds_code};

    ghost coded = { kinds_code };

    ghost view = { λ k. record {
      reads = k.reads;
      conf_lists = k.conf_lists;
      tree_lists = k.tree_lists;
      replaces = k.replaces;
    } };
}

impl Kinds {
    /// Returns the state of no call made and none listed to fail. It takes no memory.
    pub(crate) fn new(alloc: Global) -> Self
        ensures { result ≡ no_kinds }
    {
        Kinds {
            reads: Calls::new(alloc),
            conf_lists: Calls::new(alloc),
            tree_lists: Calls::new(alloc),
            replaces: Calls::new(alloc),
        }
    }

    /// Counts the next call of this kind, and returns whether it is to fail.
    pub(crate) fn make(&mut self, kind: CallKind) -> bool
        ensures fails { result ≡ next_fails (calls_of self.old kind) }
        ensures after { self.new ≡ kind_called self.old kind }
    {
        match kind {
            CallKind::Read => self.reads.make(),
            CallKind::ListConf => self.conf_lists.make(),
            CallKind::ListTree => self.tree_lists.make(),
            CallKind::Replace => self.replaces.make(),
        }
    }

    /// Lists the call of this kind and number `n` to fail. After a refusal the calls are as before.
    pub(crate) fn fail(&mut self, kind: CallKind, n: u64) -> Result<(), AllocError>
        requires { n < count_end }
        ensures ok { OnOk result
            (self.new ≡ with_calls self.old kind (with_failing (calls_of self.old kind) n)) }
        ensures err { OnErr result (self.new ≡ self.old) }
    {
        match kind {
            CallKind::Read => self.reads.fail(n),
            CallKind::ListConf => self.conf_lists.fail(n),
            CallKind::ListTree => self.tree_lists.fail(n),
            CallKind::Replace => self.replaces.fail(n),
        }
    }
}
