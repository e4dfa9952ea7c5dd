//! Records that are found by their places or by their frames.

ghost use Rattle.std.specs.Prelude.{◌≡◌, ◌++◌, ◌≤◌, [], IfOk, OnOk};
ghost use Rattle.std.specs.BTreeMap.{IsOrdered};
ghost use Rattle.std.specs.BTreeMap.Range.{entries_between};
ghost use Rattle.std.specs.declared.ops.Bound.TheVariants.{Included};
ghost use Rattle.frame_index.specs.CountedUses.{AreThose, IsFound, IsUnder};
ghost use Rattle.frame_index.specs.Records.{frame_cmp, place_cmp, record_in, records_in, tables_of, with_table};
ghost use Rattle.frame_index.specs.WholeRecords.{IsFlagged, IsInOrder};

use crate::counted_use::CountedUse;
use crate::records::Records;
use paging_model::spaces::TableUse;
use slab::Slab;
use std::alloc::{AllocError, Global};

impl Records {
    /// The record at a place.
    pub(crate) fn find(&self, level: u8, prefix: u64) -> Option<CountedUse>
        requires { IsInOrder self.now }
        ensures { IsFound level prefix (records_in self.now.slab.slots) result }
    {
        let slot = self.places.get(&(level, prefix))?;
        self.slab.get(*slot).copied()
    }

    /// The tables of the records of a frame, of higher levels first, and of one level by ascending prefixes.
    pub(crate) fn of_frame(&self, alloc: Global, frame: u64) -> Result<Vec<TableUse>, AllocError>
        requires filed { IsInOrder self.now }
        requires flags { IsFlagged self.now }
        ensures { IfOk result (λ tables. AreThose (λ table. table.frame ≡ frame)
            (records_in self.now.slab.slots) tables.items) }
    {
        let mut tables = Vec::new(alloc);
        if !self.seen.has(frame) {
            return Ok(tables);
        }
        self.push_frame(frame, &mut tables)?;
        Ok(tables)
    }

    /// Pushes the tables of the records of a frame.
    fn push_frame(&self, frame: u64, tables: &mut Vec<TableUse>) -> Result<(), AllocError>
        ensures ordered { IsOrdered frame_cmp self.now.frames }
        ensures tables { OnOk result (tables.new.items ≡ tables.old.items
            ++ tables_of self.now.slab.slots (entries_between frame_cmp
            (Included (frame, (0, 0))) (Included (frame, (255, u64.MAX)))
            self.now.frames.entries)) }
    {
        let first = (frame, (0, 0));
        let last = (frame, (u8::MAX, u64::MAX));
        for (_, slot) in self.frames.range(first..=last) {
            push_table(&self.slab, *slot, tables)?;
        }
        Ok(())
    }

    /// The tables of the records of lower levels whose prefixes lie in a range, in the same order.
    pub(crate) fn under(
        &self,
        alloc: Global,
        first: u64,
        last: u64,
        level: u8,
    ) -> Result<Vec<TableUse>, AllocError>
        requires { IsInOrder self.now }
        ensures { IfOk result (λ tables. AreThose (IsUnder first last level)
            (records_in self.now.slab.slots) tables.items) }
    {
        let mut tables = Vec::new(alloc);
        let mut next = level;
        while next > 0 && first <= last {
            next -= 1;
            self.push_level(first, last, next, &mut tables)?;
        }
        Ok(tables)
    }

    /// Pushes the tables of the records of a level whose prefixes lie in a range.
    fn push_level(
        &self,
        first: u64,
        last: u64,
        level: u8,
        tables: &mut Vec<TableUse>,
    ) -> Result<(), AllocError>
        requires { first ≤ last }
        ensures ordered { IsOrdered place_cmp self.now.places }
        ensures tables { OnOk result (tables.new.items ≡ tables.old.items
            ++ tables_of self.now.slab.slots (entries_between place_cmp
            (Included (level, first)) (Included (level, last)) self.now.places.entries)) }
    {
        for (_, slot) in self.places.range((level, first)..=(level, last)) {
            push_table(&self.slab, *slot, tables)?;
        }
        Ok(())
    }
}

/// Pushes the table of the record in a slot.
fn push_table(
    slab: &Slab<CountedUse>,
    slot: usize,
    tables: &mut Vec<TableUse>,
) -> Result<(), AllocError>
    ensures { OnOk result (tables.new.items
        ≡ tables.old.items ++ with_table (record_in slab.now.slots slot) []) }
{
    if let Some(one) = slab.get(slot) {
        tables.push(one.table)?;
    }
    Ok(())
}
