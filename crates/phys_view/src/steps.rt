//! The counter of the reads of memory.

ghost use Rattle.std.specs.Prelude.{◌≡◌, ◌+◌};

use std::marker::Model;

/// What a counter counts in.
pub trait Ledger {
    ghost use Rattle.std.specs.Prelude.{ℕ};

    /// The steps so far.
    ghost count: { Self → ℕ };

    /// Counts one step more.
    fn add_one(&mut self)
        ensures { count self.new ≡ count self.old + 1 };
}

/// How many steps were taken. A step is one read of a slot, eight bytes at a multiple of 8, and only `tick` adds one.
///
/// Code that is generic over its ledger has no value of it, so it makes no counter of its own: it reads a view only by
/// the counter that it was handed.
#[derive(Drop)]
pub struct Steps<L: Ledger> {
    ledger: L,
}

impl<L: Ledger> Model for Steps<L> {
    ghost use Rattle.std.specs.Prelude.{ℕ};

    ghost Value = { ℕ };

    ghost view = { λ steps. L.count steps.ledger };
}

impl<L: Ledger> Steps<L> {
    /// A counter that goes on from what its ledger has counted.
    pub fn new(ledger: L) -> Steps<L>
        ensures { result ≡ L.count ledger }
    {
        Steps { ledger }
    }

    /// One step more.
    pub fn tick(&mut self)
        ensures { self.new ≡ self.old + 1 }
    {
        self.ledger.add_one();
    }
}
