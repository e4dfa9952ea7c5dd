//! The regions of a space.

ghost use Rattle.std.specs.Prelude.{◌≡◌, [], OnOk, OnErr, option_map};
ghost use Rattle.paging_model.specs.Listings.{stretch_of_region};
ghost use Rattle.region_map.specs.Coalesced.{AreCoalesced, IsFilled, IsPageRange, IsUnmapped, region_at, stretches, target_at, range_target};

use crate::adding::{add, add_last};
use crate::places::{all_end_before, region_of};
use paging_model::spaces::Region;
use std::alloc::{AllocError, Global};
use std::marker::Model;

/// The mapped ranges of a space, by ascending addresses. No two neighbours make one.
#[derive(Debug, Drop)]
pub struct Regions {
    pub(crate) items: Vec<Region>,
}

impl Model for Regions {
    ghost use Rattle.std.specs.Prelude.{List};
    ghost use Rattle.paging_model.specs.declared.spaces.Region.{Region};
    ghost use Rattle.region_map.specs.Coalesced.{AreCoalesced, stretches};

    ghost Value = { List Region };

    ghost view = { λ regions. regions.items.items };

    ghost invariant = { λ regions. AreCoalesced (stretches regions.items.items) };
}

impl Regions {
    /// No regions. It takes no memory.
    pub fn new(alloc: Global) -> Regions
        ensures { result ≡ [] }
    {
        Regions {
            items: Vec::new(alloc),
        }
    }

    /// Borrows the regions.
    pub fn list(&self) -> &[Region]
        ensures value { result.now ≡ self.now }
        ensures coalesced { AreCoalesced (stretches self.now) }
    {
        self.items.as_slice()
    }

    /// The region that holds an address, found in logarithmic time.
    pub fn find(&self, address: u64) -> Option<Region>
        ensures region { result ≡ region_at self.now address }
        ensures target { option_map (λ one. range_target (stretch_of_region one) address) result
            ≡ target_at self.now address }
    {
        region_of(&self.items, address)
    }

    /// Maps a range that no region meets. It becomes one with its neighbours where they can be.
    ///
    /// A range after all others is added in constant time, as a vector grows; the place of any other is found in
    /// logarithmic time.
    ///
    /// # Errors
    ///
    /// Out of memory, nothing has changed.
    #[inline(always)]
    pub fn fill(&mut self, region: Region) -> Result<(), AllocError>
        requires range { IsPageRange (stretch_of_region region) }
        requires unmapped { IsUnmapped (stretch_of_region region) (target_at self.old) }
        ensures ok { OnOk result
            (IsFilled (stretch_of_region region) (target_at self.old) (target_at self.new)) }
        ensures err { OnErr result (self.new ≡ self.old) }
    {
        if all_end_before(&self.items, region.first) {
            add_last(&mut self.items, region)
        } else {
            // A copy, so that the other branch needs no region in memory.
            add(&mut self.items, Region { ..region })
        }
    }
}
