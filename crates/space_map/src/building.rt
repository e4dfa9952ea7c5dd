//! A space is built by one walk of all its tables.

ghost use Rattle.std.specs.Prelude.{◌≡◌, ◌+◌, ◌-◌, ◌*◌, ◌%◌, ◌^◌, ◌<◌, ◌≤◌, IfOk, IfErr};
ghost use Rattle.paging_model.specs.LinearAddress.{span as span_of};
ghost use Rattle.paging_model.specs.Walking.{top_level as top_level_of};
ghost use Rattle.phys_view.specs.Seen.{memory_of};
ghost use Rattle.space_map.specs.TrueSpaces.{BuildTakes, IsSpaceOf, IsTooLargeAt};

use crate::faults::SpaceFault;
use crate::partial::PartialSpace;
use crate::ranges::span;
use crate::space::Space;
use crate::walking::{ENTRIES, walk_slots};
use frame_index::Index;
use paging_model::entries::Bits;
use paging_model::registers::Settings;
use paging_model::spaces::{SpaceKey, TableUse};
use phys_view::{Ledger, Steps, View};
use region_map::Regions;
use std::alloc::Global;

impl Space {
    /// The space of a key, as memory has its tables.
    ///
    /// Each table is read once for each use of it, in as many steps as it has entries, and no table is read after the
    /// first that is one too many.
    ///
    /// # Errors
    ///
    /// The space is too large, or out of memory.
    pub fn build<L: Ledger>(
        alloc: Global,
        view: &View<'_, L>,
        key: SpaceKey,
        steps: &mut Steps<L>,
    ) -> Result<Space, SpaceFault>
        requires aligned { key.root % 4096 ≡ 0 }
        requires below { key.root < 2 ^ 52 }
        ensures ok { IfOk result (IsSpaceOf (memory_of view.now) key) }
        ensures too_large { IfErr result (IsTooLargeAt (memory_of view.now) key) }
        ensures cost { BuildTakes (memory_of view.now) key steps.old steps.new }
    {
        let top = TableUse {
            level: top_level(&key.settings),
            prefix: 0,
            frame: key.root,
            bits: ROOT_BITS,
        };
        let upper = TableUse {
            prefix: upper_prefix(top.level),
            ..top
        };
        let mut space = PartialSpace::new(alloc);
        let lower_pages = walk_slots(view, &key.settings, top, 0, HALF, &mut space, steps)?;
        let upper_pages = walk_slots(view, &key.settings, upper, HALF, HALF, &mut space, steps)?;
        space.index_table(top, lower_pages + upper_pages)?;
        // These show that the regions are coalesced and the uses distinct, and cost nothing.
        let _coalesced = space.regions.list();
        space.index.form();
        Ok(Space {
            alloc,
            key,
            regions: space.regions,
            index: space.index,
        })
    }

    /// The regions.
    pub fn regions(&self) -> &Regions
        ensures { result.now ≡ self.now.regions }
    {
        &self.regions
    }

    /// The tables that it uses, each with the number of its entries that map a page.
    pub fn index(&self) -> &Index
        ensures { result.now ≡ self.now.index }
    {
        &self.index
    }

    /// What the space is determined by, besides memory.
    pub fn key(&self) -> &SpaceKey
        ensures { result.now ≡ self.now.key }
    {
        &self.key
    }
}

/// How many entries of the top table serve each half of the canonical addresses.
const HALF: usize = ENTRIES / 2;

/// Above the top table nothing is refused.
const ROOT_BITS: Bits = Bits {
    write: true,
    user: true,
    xd: false,
};

/// The level of the root's table.
pub(crate) fn top_level(settings: &Settings) -> u8
    ensures value { result ≡ top_level_of settings.now }
    ensures least { 4 ≤ result }
    ensures most { result ≤ 5 }
{
    if settings.la57 { 5 } else { 4 }
}

/// The address from which on entry 0 of the top table would serve, where entry 511 serves the last addresses.
pub(crate) fn upper_prefix(level: u8) -> u64
    requires least { 4 ≤ level }
    requires most { level ≤ 5 }
    ensures value { result ≡ 2 ^ 64 - 512 * span_of level }
    ensures whole { result % (512 * span_of level) ≡ 0 }
    ensures ends { result + 512 * span_of level ≤ 2 ^ 64 }
{
    u64::MAX - (512 * span(level) - 1)
}
