//! The ledgers that callers count in.

ghost use Rattle.std.specs.Prelude.{◌≡◌, ℕ, ◌+◌, ◌<◌, ◌%◌, ◌^◌};

use crate::steps::Ledger;
use std::sync::ledger::{Blank, Book, Ledger as Books, Share};

/// A ledger for callers that count nothing: it takes no bytes, and its count stands in proofs alone.
///
/// Code that reads by a counter gets one of this ledger from [`answer_of`](crate::answer_of).
#[derive(Drop)]
pub struct Uncounted<B: Books> {
    book: Book<B>,
    share: Share<B>,
    ghost some: { 0 < share.parts },
}

impl<B: Books> Uncounted<B> {
    /// A ledger with no step counted.
    pub fn new(blank: Blank) -> Uncounted<B>
        requires name { blank.name ≡ B.name }
        requires parts { blank.parts ≡ B.parts }
        requires some { 0 < B.parts }
        ensures { ⟦<Uncounted<B> as Ledger>⟧.count result ≡ 0 }
    {
        let (book, share) = blank.open::<B>();
        Uncounted { book, share }
    }
}

impl<B: Books> Ledger for Uncounted<B> {
    ghost count = { λ ledger. ledger.book.total };

    fn add_one(&mut self) {
        self.book.add(&mut self.share, 1);
    }
}

/// A ledger for tests: it counts in a number of the caller too, modulo 2 to the 64, which is read once the counter has
/// ended.
#[derive(Drop)]
pub struct Counted<'a, B: Books> {
    ledger: Uncounted<B>,
    number: &'a mut u64,
}

impl<'a, B: Books> Counted<'a, B> {
    /// A ledger with no step counted. The number goes on from what it is.
    pub fn new(number: &'a mut u64, blank: Blank) -> Counted<'a, B>
        requires name { blank.name ≡ B.name }
        requires parts { blank.parts ≡ B.parts }
        requires some { 0 < B.parts }
        ensures { ⟦<Counted<'a, B> as Ledger>⟧.count result ≡ 0 }
    {
        Counted {
            ledger: Uncounted::new(blank),
            number,
        }
    }
}

impl<'a, B: Books> Ledger for Counted<'a, B> {
    ghost count = { λ ledger. ledger.ledger.book.total };

    fn add_one(&mut self)
        ensures count { self.new.ledger.book.total ≡ self.old.ledger.book.total + 1 }
        ensures number { self.new.number.now ≡ (self.old.number.now + 1) % 2 ^ 64 }
    {
        self.ledger.add_one();
        *self.number = self.number.wrapping_add(1);
    }
}
