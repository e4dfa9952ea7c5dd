//! Entries that stand one after another.

ghost use Rattle.std.specs.Prelude.{◌≡◌, ◌+◌, ◌*◌, ◌%◌, ◌<◌, ◌≤◌};
ghost use Rattle.paging_model.specs.Memory.{entry_at};
ghost use Rattle.phys_view.specs.Seen.{memory_of};
ghost use Rattle.phys_view.specs.Ranges.{IsTogether, StandAt};

use crate::steps::{Ledger, Steps};
use crate::view::View;
use byteorder::{ByteOrder, LittleEndian};
use std::marker::Model;

/// Entries of one page that stand one after another, read by their places among them. Their steps are taken.
#[derive(Drop)]
pub struct Entries<'v, 'a, L: Ledger> {
    view: &'v View<'a, L>,
    at: u64,
    count: usize,
    /// Their bytes, where they stand together in what the view keeps.
    bytes: Option<&'v [u8]>,
}

impl<'v, 'a, L: Ledger> Model for Entries<'v, 'a, L> {
    ghost use Rattle.phys_view.specs.Ranges.{SeenEntries, AreBytesOf};

    ghost Value = { SeenEntries };

    ghost view = { λ e. record { seen = e.view.now; at = e.at; count = e.count } };

    ghost invariant = { λ e. AreBytesOf e.view.now e.at e.count e.bytes };
}

impl<'a, L: Ledger> View<'a, L> {
    /// So many entries from a multiple of 8 on, in one page. A step is taken for each.
    pub fn entries(&self, at: u64, count: usize, steps: &mut Steps<L>) -> Entries<'_, 'a, L>
        requires aligned { at % 8 ≡ 0 }
        requires within { at % 4096 + 8 * count ≤ 4096 }
        ensures value { result ≡ record { seen = self.now; at = at; count = count } }
        ensures cost { steps.new ≡ steps.old + count }
    {
        for _ in 0..count {
            steps.tick();
        }
        let bytes = if count > 0 {
            self.together(at, 8 * count)
        } else {
            None
        };
        Entries {
            view: self,
            at,
            count,
            bytes,
        }
    }
}

impl<'v, 'a, L: Ledger> Entries<'v, 'a, L> {
    /// The entry at a place, where its bytes are known.
    #[inline]
    pub fn get(&self, place: usize) -> Option<u64>
        requires { place < self.now.count }
        ensures { result ≡ entry_at (memory_of self.now.seen) (self.now.at + 8 * place) }
    {
        match self.bytes {
            Some(bytes) => Some(LittleEndian::read_u64(&bytes[8 * place..])),
            None => self.view.known_entry(self.at + 8 * place as u64),
        }
    }
}
