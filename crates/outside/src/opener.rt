//! Files that are opened by name, and read at offsets.

use crate::shelf::Failed;

/// Files that are opened by name, and read at offsets.
pub trait Opener {
    ghost use Rattle.std.specs.Prelude.{◌≡◌, ◌≢◌, ◌≤◌, ℕ, Bool, IsTrue, List, length, IfOk};
    ghost use Rattle.outside.specs.Shelf.{Known, has_bytes, Reads, reach_after};

    /// An open file.
    type File: Drop;

    /// What is known of the file of a name: nothing, that there is none, or its bytes.
    ghost known: { Self → List ℕ → Known };

    /// The greatest offset up to which reads of the file of a name gave bytes, where its bytes are known.
    ghost reach: { Self → List ℕ → ℕ };

    /// Whether an open file is the one of a name.
    ghost is_named: { Self.File → List ℕ → Bool };

    /// Opens the file of a name.
    fn open(&self, name: &str) -> Result<Self::File, Failed>
        ensures { IfOk result (λ file. IsTrue (is_named file name.now)) };

    /// Reads bytes of a file from the offset `at` on, and gives their count.
    ///
    /// They are a prefix of `into`, and after them `into` may have any bytes. No bytes for an `into` that has room mean
    /// that `at` is at the end or after it.
    fn read_at(&mut self, file: &Self::File, at: u64, into: &mut [u8]) -> Result<usize, Failed>
        ensures within { IfOk result (λ count. count ≤ length into.new) }
        ensures content { (n : List ℕ) → IsTrue (is_named file.now n)
            → Reads (known self.old n) at result into.new }

        // What a read changes: the reach of the file's name.
        ensures known { (n : List ℕ) → known self.new n ≡ known self.old n }
        ensures reach { (n bytes : List ℕ) → IsTrue (is_named file.now n)
            → known self.old n ≡ has_bytes bytes
            → reach self.new n ≡ reach_after (reach self.old n) at result }
        ensures others { (n other : List ℕ) → IsTrue (is_named file.now n) → other ≢ n
            → reach self.new other ≡ reach self.old other };

    /// Reads give only bytes that are there.
    ghost reach_within: { (opener : Self) (n bytes : List ℕ) → known opener n ≡ has_bytes bytes
        → reach opener n ≤ length bytes };
}
