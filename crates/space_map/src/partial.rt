//! A space as far as it was walked.

ghost use Rattle.std.specs.Prelude.{◌≡◌, ◌+◌, ◌≤◌, [], length, IfErr, OnOk, OnErr};
ghost use Rattle.frame_index.specs.CountedUses.{pages_counted};

use crate::faults::SpaceFault;
use frame_index::{CountedUse, Index};
use paging_model::spaces::{Region, TableUse};
use region_map::Regions;
use std::alloc::Global;

/// How many uses of tables a space may have.
const USE_LIMIT: u64 = 262_144;
/// How many mapped pages, of any size, a space may have.
const LEAF_LIMIT: u64 = 2_097_152;

/// What was found so far of a space within the limits: its regions, the tables of which all entries were walked, and
/// how many tables and pages.
#[derive(Drop)]
pub(crate) struct PartialSpace {
    pub regions: Regions,
    pub index: Index,
    /// The uses of tables. A table that is found twice counts twice.
    pub uses: u64,
    /// The mapped pages, of any size.
    pub leaves: u64,
    ghost few_uses: { uses ≤ 262144 },
    ghost few_leaves: { leaves ≤ 2097152 },
    // The index may still count pages that were mapped before a write.
    ghost within: { pages_counted index ≤ leaves + 2097152 },
}

impl PartialSpace {
    ghost use Rattle.paging_model.specs.Listings.{stretch_of_region};
    ghost use Rattle.frame_index.specs.CountedUses.{HasOneMore, NoneAt};
    ghost use Rattle.region_map.specs.Coalesced.{IsPageRange, IsUnmapped, target_at};
    ghost use Rattle.space_map.specs.PartialSpaces.{AddsPage, AddsUse};

    /// Nothing yet but the top table.
    pub fn new(alloc: Global) -> PartialSpace
        ensures regions { result.regions ≡ [] }
        ensures index { result.index ≡ [] }
        ensures uses { result.uses ≡ 1 }
        ensures leaves { result.leaves ≡ 0 }
    {
        PartialSpace {
            regions: Regions::new(alloc),
            index: Index::new(alloc),
            uses: 1,
            leaves: 0,
        }
    }

    /// What is left of a space: these tables, and so many pages.
    pub fn rest(alloc: Global, index: Index, leaves: u64) -> PartialSpace
        requires few_uses { length index ≤ 262144 }
        requires few_leaves { leaves ≤ 2097152 }
        requires within { pages_counted index ≤ leaves + 2097152 }
        ensures regions { result.regions ≡ [] }
        ensures index { result.index ≡ index }
        ensures uses { result.uses ≡ length index }
        ensures leaves { result.leaves ≡ leaves }
    {
        let uses = index.len();
        PartialSpace {
            regions: Regions::new(alloc),
            index,
            uses,
            leaves,
        }
    }

    /// Counts one use of a table more.
    #[inline(always)]
    pub fn add_use(&mut self) -> Result<(), SpaceFault>
        ensures added { AddsUse result self.old self.new }
        ensures least { self.old.uses ≤ self.new.uses }
        ensures same { OnErr result (self.new.uses ≡ self.old.uses) }
    {
        if self.uses == USE_LIMIT {
            return Err(SpaceFault::TooLarge);
        }
        self.uses += 1;
        Ok(())
    }

    /// Maps a page of any size, and counts it.
    #[inline(always)]
    pub fn add_page(&mut self, page: Region) -> Result<(), SpaceFault>
        requires range { IsPageRange (stretch_of_region page) }
        requires unmapped { IsUnmapped (stretch_of_region page) (target_at self.old.regions) }
        ensures added { AddsPage page result self.old self.new }
        ensures uses { self.new.uses ≡ self.old.uses }
    {
        if self.leaves == LEAF_LIMIT {
            return Err(SpaceFault::TooLarge);
        }
        match self.regions.fill(page) {
            Ok(()) => {}
            Err(_) => return Err(SpaceFault::Memory),
        }
        self.leaves += 1;
        Ok(())
    }

    /// Puts the use of a table into the index, of whose entries so many map a page. It was counted before.
    pub fn index_table(&mut self, table: TableUse, pages: u16) -> Result<(), SpaceFault>
        requires free { NoneAt table.level table.prefix self.old.index }
        requires counted { pages_counted self.old.index + pages ≤ self.old.leaves + 2097152 }
        ensures added { OnOk result
            (HasOneMore (record { table = table; pages = pages }) self.old.index self.new.index) }
        ensures regions { self.new.regions ≡ self.old.regions }
        ensures uses { self.new.uses ≡ self.old.uses }
        ensures leaves { self.new.leaves ≡ self.old.leaves }
        ensures fault { IfErr result (λ fault. fault ≡ SpaceFault.Memory) }
    {
        match self.index.add(CountedUse { table, pages }) {
            Ok(()) => Ok(()),
            Err(_) => Err(SpaceFault::Memory),
        }
    }
}
