ghost use Rattle.std.specs.Prelude.{◌≡◌};
ghost use Rattle.outside_calls.specs.CallCounts.{refused};
ghost use Rattle.outside_calls.specs.Counted.{none_counted, one_counted};

use crate::{FileAnswer, ReplaceAnswer};
use std::marker::Model;

/// The number of calls of files, and of their refusals by cause, as a type that implements
/// [`Reads`](crate::Reads) keeps them. A count stays at its type's end.
#[derive(Drop)]
pub struct Counts {
    calls: u64,
    faults: u64,
    absences: u64,
    excesses: u64,
}

impl Model for Counts {
    ghost use Rattle.outside_calls.specs.Counted.{Counted};

    ghost Value = { Counted };

    ghost use Rattle.outside_calls.specs.Codes.{counted_code};

    ghost coded = { counted_code };

    ghost view = { λ c. record {
      calls = c.calls;
      counts = record { faults = c.faults; absences = c.absences; excesses = c.excesses };
    } };
}

impl Counts {
    /// Returns counts of zero.
    pub fn new() -> Self
        ensures { result ≡ none_counted }
    {
        Counts {
            calls: 0,
            faults: 0,
            absences: 0,
            excesses: 0,
        }
    }

    /// Counts one more call.
    pub fn make(&mut self)
        ensures { self.new ≡ one_counted self.old self.old.counts }
    {
        self.calls = self.calls.saturating_add(1);
    }

    /// Counts the cause of a refusal, and returns the refusal. Out of memory isn't counted.
    pub fn refuse(&mut self, refusal: FileAnswer) -> FileAnswer
        ensures same { result ≡ refusal }
        ensures after { self.new ≡ record self.old { counts = refused self.old.counts refusal } }
    {
        match refusal {
            FileAnswer::Absent => self.absences = self.absences.saturating_add(1),
            FileAnswer::Failed => self.faults = self.faults.saturating_add(1),
            FileAnswer::TooLarge { .. } => self.excesses = self.excesses.saturating_add(1),
            FileAnswer::Memory => {}
        }
        refusal
    }
}
