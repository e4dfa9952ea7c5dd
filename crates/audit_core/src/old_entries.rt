//! What slots of memory held before a write.

ghost use Rattle.std.specs.Prelude.{◌≡◌, ◌+◌, ◌*◌, ◌%◌, ◌≤◌, [], length, take};
ghost use Rattle.history_model.specs.KeptSpaces.{slots_written};
ghost use Rattle.phys_view.specs.Seen.{memory_of};
ghost use Rattle.version_store.specs.WrittenChanges.{entries_from, first_slot};

use phys_view::{Ledger, Steps, View};
use std::marker::Model;

/// The length of a page in bytes.
const PAGE_LEN: u64 = 4096;

/// The length of a slot in bytes.
pub(crate) const SLOT_LEN: u64 = 8;

/// How many slots a page has.
const SLOTS_PER_PAGE: usize = 512;

/// What slots of one page held, one after another: `None` for one whose eight bytes weren't all known.
///
/// There is room for all slots of a page, so that it takes no memory, and it is kept from write to write, so that no
/// write has to clear it.
#[derive(Drop)]
pub struct OldEntries {
    entries: [Option<u64>; SLOTS_PER_PAGE],
    len: usize,
}

impl Model for OldEntries {
    ghost use Rattle.std.specs.Prelude.{◌≡◌, ℕ, ◌≤◌, List, Option, length, take};

    ghost Value = { List (Option ℕ) };

    ghost view = { λ olds. take olds.len olds.entries };

    ghost invariant = { λ olds. (length olds.entries ≡ 512) × (olds.len ≤ 512) };
}

impl OldEntries {
    /// Of no slots.
    pub fn new() -> OldEntries
        ensures { result ≡ [] }
    {
        OldEntries {
            entries: [None; SLOTS_PER_PAGE],
            len: 0,
        }
    }

    /// What the slots hold that so many bytes from an address on touch, as far as they are of its page.
    pub fn read<L: Ledger>(
        &mut self,
        view: &View<'_, L>,
        at: u64,
        count: usize,
        steps: &mut Steps<L>,
    )
        requires some { 1 ≤ count }
        requires few { count ≤ 4096 }
        ensures value { self.new
            ≡ entries_from (memory_of view.now) (first_slot at) (length self.new) }
        ensures all { at % 4096 + count ≤ 4096 → length self.new ≡ slots_written at count }
        ensures within { first_slot at % 4096 + 8 * length self.new ≤ 4096 }
        ensures cost { steps.new ≡ steps.old + length self.new }
    {
        let first = at - at % SLOT_LEN;
        let touched = ((at % SLOT_LEN) as usize + count).div_ceil(SLOT_LEN as usize);
        let left = ((PAGE_LEN - first % PAGE_LEN) / SLOT_LEN) as usize;
        self.len = touched.min(left);
        read_entries(&mut self.entries, view, first, self.len, steps);
    }

    /// Borrows them.
    pub fn as_slice(&self) -> &[Option<u64>]
        ensures { result.now ≡ self.now }
    {
        &self.entries[..self.len]
    }
}

/// Reads so many entries of one page from a slot on.
fn read_entries<L: Ledger>(
    entries: &mut [Option<u64>],
    view: &View<'_, L>,
    first: u64,
    count: usize,
    steps: &mut Steps<L>,
)
    requires slot { first % 8 ≡ 0 }
    requires page { first % 4096 + 8 * count ≤ 4096 }
    requires room { count ≤ length entries.old }
    ensures value { take count entries.new ≡ entries_from (memory_of view.now) first count }
    ensures len { length entries.new ≡ length entries.old }
    ensures cost { steps.new ≡ steps.old + count }
{
    let read = view.entries(first, count, steps);
    for i in 0..count {
        entries[i] = read.get(i);
    }
}
