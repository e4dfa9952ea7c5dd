//! An output that takes pieces of bytes.

ghost use Rattle.std.specs.Prelude.{ℕ, ◌≤◌, List, OnErr, Option};
ghost use Rattle.outside.specs.Count.{Rose};
ghost use Rattle.outside.specs.Sink.{Puts};

use crate::shelf::Failed;

/// An output that takes pieces of bytes, one after the other.
pub trait Sink {
    /// The pieces put so far, where they are known. What was written is these pieces, joined.
    ghost pieces: { Self → Option (List (List ℕ)) };

    /// How often puts have failed, up to the last 64-bit count.
    ghost faults: { Self → ℕ };

    /// Puts a piece.
    ///
    /// At `Ok` all of it is put. At an error a prefix of the piece may be, and the failure is counted.
    fn put(&mut self, bytes: &[u8]) -> Result<(), Failed>
        ensures pieces { Puts (pieces self.old) (pieces self.new) result bytes.now }
        ensures count { faults self.old ≤ faults self.new }
        ensures cause { OnErr result (Rose (faults self.old) (faults self.new)) };
}
