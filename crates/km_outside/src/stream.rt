// Outputs over the library's writers: the standard output and the standard error output.
ghost use Rattle.std.specs.Prelude.{◌≡◌};
ghost use Rattle.outside_calls.specs.OutSeen.{WriteAnswers};
ghost use Rattle.km_outside.specs.StreamSeen.{stream_seen, StreamWrites};

use crate::writing::write_whole;
use outside_calls::{Out, OutFailed};
use std::io::Write;
use std::marker::Model;
use std::rt::{Stderr, Stdout};

/// An output over a writer of the library. Neither its bytes nor its capacity is known.
#[derive(Drop)]
pub struct Stream<W: Write> {
    writer: W,
    faults: u64,
}

/// The standard output.
pub type StdOut = Stream<Stdout>;

/// The standard error output.
pub type StdErr = Stream<Stderr>;

impl<W: Write> Model for Stream<W> {
    ghost use Rattle.km_outside.specs.StreamSeen.{StreamSeen};

    ghost Value = { StreamSeen };

    ghost view = { λ s. record { faults = s.faults; contents = W.contents s.writer } };
}

impl<W: Write> Stream<W> {
    /// Returns an output over the writer, with no fault counted.
    pub fn new(writer: W) -> Self
        ensures { result ≡ record { faults = 0; contents = W.contents writer } }
    {
        Stream { writer, faults: 0 }
    }
}

impl<W: Write> Out for Stream<W> {
    ghost seen = { stream_seen };

    ghost within = { λ _. tt };

    /// Writes the piece in as many turns as the writer needs. Each turn takes at least one byte.
    fn write(&mut self, bytes: &[u8]) -> Result<(), OutFailed>
        ensures answers { WriteAnswers bytes.now (stream_seen self.old) (stream_seen self.new)
            result }
        ensures writes { StreamWrites bytes.now self.old self.new result }
    {
        let answer = write_whole(&mut self.writer, bytes);
        if answer.is_err() {
            self.faults = self.faults.saturating_add(1);
        }
        answer
    }
}
