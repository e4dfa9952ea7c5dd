//! Records that are removed.

ghost use Rattle.std.specs.Prelude.{◌≡◌, ◌≢◌, ℕ, ◌<◌, ◌≤◌, None, Some, IfSome, IfNone};
ghost use Rattle.std.specs.BTreeMap.{get};
ghost use Rattle.slab.specs.Slab.{Updates, slab_len};
ghost use Rattle.frame_index.specs.CountedUses.{AreRemoved};
ghost use Rattle.frame_index.specs.Records.{AreRemovedOf, place_cmp, record_in, records_in};
ghost use Rattle.frame_index.specs.WholeRecords.{IsFlagged, IsInOrder};

use crate::filing::{Place, frame_place_of, place_of};
use crate::records::Records;
use std::collections::BTreeMap;

impl Records {
    /// Removes the records of lower levels whose prefixes lie in a range.
    pub(crate) fn remove_under(&mut self, first: u64, last: u64, level: u8)
        requires filed { IsInOrder self.old }
        requires flags { IsFlagged self.old }
        ensures filed { IsInOrder self.new }
        ensures flags { IsFlagged self.new }
        ensures removed { AreRemoved first last level (records_in self.old.slab.slots)
            (records_in self.new.slab.slots) }
    {
        for lower in 0..level {
            self.remove_level(first, last, lower);
        }
    }

    /// Removes the records of a level whose prefixes lie in a range.
    fn remove_level(&mut self, first: u64, last: u64, level: u8)
        requires filed { IsInOrder self.old }
        requires flags { IsFlagged self.old }
        ensures filed { IsInOrder self.new }
        ensures flags { IsFlagged self.new }
        ensures removed { AreRemovedOf first last level (records_in self.old.slab.slots)
            (records_in self.new.slab.slots) }
    {
        while let Some(slot) = first_between(&self.places, first, last, level) {
            self.remove(slot);
        }
    }

    /// Removes the record in a slot.
    fn remove(&mut self, slot: usize)
        requires filed { IsInOrder self.old }
        requires flags { IsFlagged self.old }
        ensures filed { IsInOrder self.new }
        ensures flags { IsFlagged self.new }
        ensures updates { Updates self.old.slab self.new.slab slot None }
        ensures fewer { record_in self.old.slab.slots slot ≢ None
            → slab_len self.new.slab < slab_len self.old.slab }
    {
        if let Some(one) = self.slab.try_remove(slot) {
            self.places.remove(&place_of(&one));
            self.frames.remove(&frame_place_of(&one));
            self.pages -= u64::from(one.pages);
        }
    }
}

/// The first slot that is filed under a level and a prefix in a range.
fn first_between(places: &BTreeMap<Place, usize>, first: u64, last: u64, level: u8) -> Option<usize>
    ensures some { IfSome result (λ slot. (prefix : ℕ) × (first ≤ prefix) × (prefix ≤ last)
        × (get place_cmp places.now (level, prefix) ≡ Some slot)) }
    ensures none { IfNone result ((prefix : ℕ) → first ≤ prefix → prefix ≤ last
        → get place_cmp places.now (level, prefix) ≡ None) }
{
    if first > last {
        return None;
    }
    match places.range((level, first)..=(level, last)).next() {
        Some((_, slot)) => Some(*slot),
        None => None,
    }
}
