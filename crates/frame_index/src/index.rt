//! The uses of a space's tables.

ghost use Rattle.std.specs.Prelude.{◌≡◌, ◌+◌, ◌^◌, ◌<◌, [], length, IfOk, OnOk, OnErr};
ghost use Rattle.frame_index.specs.CountedUses.{AreRemoved, AreThose, HaveOwnPlaces, HasOneMore, IsFound, IsRecounted, IsUnder, NoneAt, pages_counted};
ghost use Rattle.paging_model.specs.Counting.{AreDistinct};

use crate::counted_use::CountedUse;
use crate::records::Records;
use crate::uses::Uses;
use std::alloc::{AllocError, Global};
use std::marker::Model;

/// The uses of a space's tables, by place and by frame.
#[derive(Debug, Drop)]
pub struct Index {
    alloc: Global,
    records: Records,
}

impl Model for Index {
    ghost use Rattle.std.specs.Prelude.{List};
    ghost use Rattle.frame_index.specs.Records.{records_in};
    ghost use Rattle.frame_index.specs.WholeRecords.{IsFlagged, IsInOrder};
    ghost use Rattle.frame_index.specs.declared.counted_use.CountedUse.{CountedUse};

    ghost Value = { List CountedUse };

    ghost view = { λ index. records_in index.records.slab.slots };

    ghost invariant = { λ index. IsInOrder index.records
        × IsFlagged index.records };
}

impl Index {
    /// No uses. It takes no memory.
    pub fn new(alloc: Global) -> Index
        ensures { result ≡ [] }
    {
        Index {
            alloc,
            records: Records::new(alloc),
        }
    }

    /// How many uses.
    pub fn len(&self) -> u64
        ensures { result ≡ length self.now }
    {
        self.records.slab.len() as u64
    }

    /// How many pages their tables map, all together.
    pub fn pages(&self) -> u64
        ensures { result ≡ pages_counted self.now }
    {
        self.records.pages
    }

    /// Each has a level and a prefix of its own. It costs nothing; whoever calls it may use the fact.
    pub fn form(&self)
        ensures places { HaveOwnPlaces self.now }
        ensures distinct { AreDistinct self.now }
    {
        let _records = &self.records;
    }

    /// Adds a use. It takes logarithmic time.
    ///
    /// # Errors
    ///
    /// Out of memory, nothing has changed.
    pub fn add(&mut self, item: CountedUse) -> Result<(), AllocError>
        requires free { NoneAt item.table.level item.table.prefix self.old }
        requires room { pages_counted self.old + item.pages < 2 ^ 64 }
        ensures added { OnOk result (HasOneMore item self.old self.new) }
        ensures err { OnErr result (self.new ≡ self.old) }
    {
        self.records.add(item)
    }

    /// Removes the uses of lower levels whose prefixes lie in a range. It takes no memory.
    pub fn remove_under(&mut self, first: u64, last: u64, level: u8)
        ensures { AreRemoved first last level self.old self.new }
    {
        self.records.remove_under(first, last, level);
    }

    /// The use at a level and a prefix. It takes logarithmic time and no memory.
    pub fn find(&self, level: u8, prefix: u64) -> Option<CountedUse>
        ensures { IsFound level prefix self.now result }
    {
        self.records.find(level, prefix)
    }

    /// Changes how many entries of the table at a place map a page. Where there is no use, nothing changes. It takes no
    /// memory.
    pub fn recount(&mut self, level: u8, prefix: u64, pages: u16)
        requires room { pages_counted self.old + pages < 2 ^ 64 }
        ensures { IsRecounted level prefix pages self.old self.new }
    {
        self.records.recount(level, prefix, pages);
    }

    /// The uses of a frame.
    ///
    /// # Errors
    ///
    /// Out of memory.
    pub fn of_frame(&self, frame: u64) -> Result<Uses, AllocError>
        ensures { IfOk result (λ uses. AreThose (λ table. table.frame ≡ frame) self.now uses) }
    {
        let tables = self.records.of_frame(self.alloc, frame)?;
        Ok(Uses::from_vec(tables))
    }

    /// The uses that `remove_under` would remove.
    ///
    /// # Errors
    ///
    /// Out of memory.
    pub fn under(&self, first: u64, last: u64, level: u8) -> Result<Uses, AllocError>
        ensures { IfOk result (λ uses. AreThose (IsUnder first last level) self.now uses) }
    {
        let tables = self.records.under(self.alloc, first, last, level)?;
        Ok(Uses::from_vec(tables))
    }
}
