//! Names whose bytes are read from an offset on.

ghost use Rattle.std.specs.Prelude.{◌≡◌, ◌≢◌, ℕ, ◌≤◌, List, length, drop, IfOk, OnErr};
ghost use Rattle.outside.specs.Count.{Rose};
ghost use Rattle.outside.specs.Shelf.{Known, has_bytes, Reads, reach_after};

use thiserror::Error;

/// A read or a put failed: the one error of shelves and sinks.
#[derive(Clone, Copy, Debug, PartialEq, Eq, Error)]
#[error("a read or a put failed")]
pub struct Failed;

/// Names whose bytes are read from an offset on.
pub trait Shelf {
    /// What is known of a name: nothing, that it has no bytes, or its bytes.
    ghost known: { Self → List ℕ → Known };

    /// The greatest offset up to which reads of a name gave bytes, where its bytes are known.
    ghost reach: { Self → List ℕ → ℕ };

    /// How often reads of a name have failed, up to the last 64-bit count.
    ghost faults: { Self → List ℕ → ℕ };

    /// Reads the bytes of a name from the offset `at` on, and gives their count.
    ///
    /// They are a prefix of `into`, and the rest of `into` is unchanged. No bytes for an `into` that has room mean that
    /// `at` is at the end or after it. At an error `into` may have any bytes.
    fn read_at(&mut self, name: &str, at: u64, into: &mut [u8]) -> Result<usize, Failed>
        ensures within { IfOk result (λ count. count ≤ length into.new) }
        ensures rest { IfOk result (λ count. drop count into.new ≡ drop count into.old) }
        ensures content { Reads (known self.old name.now) at result into.new }

        // A read changes no bytes of the shelf.
        ensures known { (n : List ℕ) → known self.new n ≡ known self.old n }

        // The reach of this name moves by what came, and that of no other.
        ensures reach { (bytes : List ℕ) → known self.old name.now ≡ has_bytes bytes
            → reach self.new name.now ≡ reach_after (reach self.old name.now) at result }
        ensures others { (n : List ℕ) → n ≢ name.now → reach self.new n ≡ reach self.old n }

        // A failure is counted.
        ensures count { (n : List ℕ) → faults self.old n ≤ faults self.new n }
        ensures cause { OnErr result (Rose (faults self.old name.now) (faults self.new name.now)) };

    /// Reads give only bytes that are there.
    ghost reach_within: { (shelf : Self) (n bytes : List ℕ) → known shelf n ≡ has_bytes bytes
        → reach shelf n ≤ length bytes };
}
