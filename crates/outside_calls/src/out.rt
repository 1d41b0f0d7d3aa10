// The trait of outputs, and the failure of a write.
ghost use Rattle.outside_calls.specs.OutSeen.{OutSeen, Within, WriteAnswers};

/// A write failed.
#[derive(Clone, Copy, Debug, PartialEq, Eq)]
pub struct OutFailed;

/// An output that bytes are written to.
pub trait Out {
    /// What a contract sees of the output.
    ghost seen: { Self → OutSeen };

    /// Writes the piece after all that was written before. It takes no memory.
    fn write(&mut self, bytes: &[u8]) -> Result<(), OutFailed>
        ensures answers { WriteAnswers bytes.now (seen self.old) (seen self.new) result };

    /// The bytes written never exceed the capacity, if both are known.
    ghost within: { (out : Self) → Within (seen out) };
}
