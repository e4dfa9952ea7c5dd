//! Which slots of a frame changed.

ghost use Rattle.std.specs.Prelude.{◌≡◌, ℕ, ◌<◌, ◌≤◌, false, true, length, slice_index_or, slice_set};

use crate::change::SLOTS_PER_FRAME;
use std::marker::Model;

/// How many slots stand in a group.
const GROUP_LEN: usize = 16;

/// How many groups there are.
const GROUPS: usize = SLOTS_PER_FRAME / GROUP_LEN;

/// Which slots of a frame changed, one after another. They stand in groups, so that the next one that changed is found
/// without a look at each between, and none is looked at after the last.
#[derive(Debug, Drop)]
pub struct ChangedSlots {
    slots: [bool; SLOTS_PER_FRAME],
    /// Whether a slot of a group changed.
    groups: [bool; GROUPS],
    /// The place after the last one that changed, 0 where none did.
    end: usize,
}

impl Model for ChangedSlots {
    ghost use Rattle.std.specs.Prelude.{Bool, List};
    ghost use Rattle.version_store.specs.Groups.{AreGrouped};

    ghost Value = { List Bool };

    ghost view = { λ changed. changed.slots };

    ghost invariant = { λ changed. AreGrouped changed.slots changed.groups changed.end };
}

impl ChangedSlots {
    /// None.
    pub(crate) fn none() -> ChangedSlots
        ensures value { (i : ℕ) → i < 512 → slice_index_or result i false ≡ false }
        ensures len { length result ≡ 512 }
    {
        ChangedSlots {
            slots: [false; SLOTS_PER_FRAME],
            groups: [false; GROUPS],
            end: 0,
        }
    }

    /// Adds a slot by its place.
    pub(crate) fn add(&mut self, slot: usize)
        requires { slot < 512 }
        ensures value { self.new ≡ slice_set self.old slot true }
        ensures len { length self.new ≡ 512 }
    {
        self.slots[slot] = true;
        self.groups[slot / GROUP_LEN] = true;
        self.end = self.end.max(slot + 1);
    }

    /// Whether the slot at a place changed.
    pub fn has(&self, place: usize) -> bool
        requires { place < 512 }
        ensures { result ≡ slice_index_or self.now place false }
    {
        self.slots[place]
    }

    /// The place of the first slot, from one on, that changed; 512 where none did.
    pub fn next(&self, from: usize) -> usize
        requires { from ≤ 512 }
        ensures least { from ≤ result }
        ensures most { result ≤ 512 }
        ensures before { (k : ℕ) → from ≤ k → k < result → slice_index_or self.now k false ≡ false }
        ensures found { result < 512 → slice_index_or self.now result false ≡ true }
    {
        let mut i = from;
        while i < self.end {
            if !self.groups[i / GROUP_LEN] {
                i += GROUP_LEN - i % GROUP_LEN;
            } else if self.slots[i] {
                return i;
            } else {
                i += 1;
            }
        }
        SLOTS_PER_FRAME
    }
}
