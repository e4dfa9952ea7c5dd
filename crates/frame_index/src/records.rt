//! The records of uses, and the maps that lead to them.

ghost use Rattle.std.specs.Prelude.{◌≡◌, ◌+◌, ◌^◌, ◌<◌, [], None, OnOk, OnErr};
ghost use Rattle.frame_index.specs.CountedUses.{HasOneMore, IsRecounted, NoneAt, pages_counted};
ghost use Rattle.frame_index.specs.Records.{records_in};
ghost use Rattle.frame_index.specs.WholeRecords.{IsFlagged, IsInOrder};

use crate::counted_use::CountedUse;
use crate::filing::{FramePlace, Place, file};
use crate::frame_filter::FrameFilter;
use slab::Slab;
use std::alloc::{AllocError, Global};
use std::collections::BTreeMap;

/// Records of uses in slots, with two maps that lead to the slots.
#[derive(Debug, Drop)]
pub(crate) struct Records {
    pub slab: Slab<CountedUse>,
    /// The slots by places.
    pub places: BTreeMap<Place, usize>,
    /// The slots by frames.
    pub frames: BTreeMap<FramePlace, usize>,
    /// Which frames may have a record.
    pub seen: FrameFilter,
    /// How many pages the tables map, all together.
    pub pages: u64,
}

impl Records {
    /// No records.
    pub(crate) fn new(alloc: Global) -> Records
        ensures filed { IsInOrder result }
        ensures flags { IsFlagged result }
        ensures none { records_in result.slab.slots ≡ [] }
    {
        Records {
            slab: Slab::new(alloc),
            places: BTreeMap::new(alloc),
            frames: BTreeMap::new(alloc),
            seen: FrameFilter::new(alloc),
            pages: 0,
        }
    }

    /// Adds a record. Out of memory, each slot has what it had.
    pub(crate) fn add(&mut self, item: CountedUse) -> Result<(), AllocError>
        requires filed { IsInOrder self.old }
        requires flags { IsFlagged self.old }
        requires free { NoneAt item.table.level item.table.prefix (records_in self.old.slab.slots) }
        requires room { pages_counted (records_in self.old.slab.slots) + item.pages < 2 ^ 64 }
        ensures filed { IsInOrder self.new }
        ensures flags { IsFlagged self.new }
        ensures added { OnOk result
            (HasOneMore item (records_in self.old.slab.slots) (records_in self.new.slab.slots)) }
        ensures err { OnErr result (self.new.slab.slots ≡ self.old.slab.slots) }
    {
        self.slab.reserve(1)?;
        self.seen.set(item.table.frame)?;
        let slot = self.slab.vacant_key();
        file(&mut self.places, &mut self.frames, &item, slot)?;
        self.slab.insert_reserved(item);
        self.pages += u64::from(item.pages);
        Ok(())
    }

    /// Changes how many entries of the table at a place map a page.
    pub(crate) fn recount(&mut self, level: u8, prefix: u64, pages: u16)
        requires filed { IsInOrder self.old }
        requires flags { IsFlagged self.old }
        requires room { pages_counted (records_in self.old.slab.slots) + pages < 2 ^ 64 }
        ensures filed { IsInOrder self.new }
        ensures flags { IsFlagged self.new }
        ensures with_pages { IsRecounted level prefix pages (records_in self.old.slab.slots)
            (records_in self.new.slab.slots) }
    {
        if let Some(slot) = self.places.get(&(level, prefix)) {
            if let Some(one) = self.slab.get_mut(*slot) {
                self.pages = self.pages + u64::from(pages) - u64::from(one.pages);
                one.pages = pages;
            }
        }
    }
}
