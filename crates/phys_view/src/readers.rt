//! Code that reads by a counter, and the counters that callers make for it.

ghost use Rattle.std.specs.Prelude.{◌≡◌, ◌<◌};

use crate::ledgers::{Counted, Uncounted};
use crate::steps::{Ledger, Steps};
use std::marker::Brand;
use std::sync::ledger::{Blank, Ledger as Books};

/// Code that reads memory by a counter, once, and gives an answer.
///
/// It is what a closure would be that takes a counter of every ledger.
pub trait Reader {
    /// What it gives.
    type Answer;

    /// Which answers it may give.
    ghost gives: { Self → Self.Answer → Type 0 };

    /// Reads by a counter.
    fn read<L: Ledger>(self, steps: &mut Steps<L>) -> Self::Answer
        ensures { gives self result };
}

/// The answer of a reader whose steps nobody counts.
pub fn answer_of<R: Reader>(reader: R) -> R::Answer
    ensures { R.gives reader result }
{
    answer_with::<R, Brand>(reader, Blank::new(1))
}

/// The answer of a reader by books of the caller's.
fn answer_with<R: Reader, B: Books>(reader: R, blank: Blank) -> R::Answer
    requires name { blank.name ≡ B.name }
    requires parts { blank.parts ≡ B.parts }
    requires some { 0 < B.parts }
    ensures { R.gives reader result }
{
    let mut steps = Steps::new(Uncounted::<B>::new(blank));
    reader.read(&mut steps)
}

/// The answer of a reader, and its steps modulo 2 to the 64, as a ledger counts them that really counts: for tests.
pub fn answer_and_steps<R: Reader>(reader: R) -> (R::Answer, u64)
    ensures { R.gives reader result.0 }
{
    answer_and_steps_with::<R, Brand>(reader, Blank::new(1))
}

/// The answer and the steps of a reader by books of the caller's.
fn answer_and_steps_with<R: Reader, B: Books>(reader: R, blank: Blank) -> (R::Answer, u64)
    requires name { blank.name ≡ B.name }
    requires parts { blank.parts ≡ B.parts }
    requires some { 0 < B.parts }
    ensures { R.gives reader result.0 }
{
    let mut number = 0;
    let mut steps = Steps::new(Counted::<B>::new(&mut number, blank));
    let answer = reader.read(&mut steps);
    drop(steps);
    (answer, number)
}
