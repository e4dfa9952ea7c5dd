//! One region more in a list.

ghost use Rattle.std.specs.Prelude.{◌≡◌, OnOk, OnErr, length};
ghost use Rattle.paging_model.specs.Listings.{stretch_of_region};
ghost use Rattle.region_map.specs.Coalesced.{AreCoalesced, IsPageRange, IsUnmapped, stretches, target_at};
ghost use Rattle.region_map.specs.Places.{IsAdded, IsPlace};

use crate::places::{count_before, joins_next, joins_previous};
use paging_model::spaces::Region;
use std::alloc::AllocError;

/// Adds a region after all others.
#[inline(always)]
pub(crate) fn add_last(items: &mut Vec<Region>, region: Region) -> Result<(), AllocError>
    requires coalesced { AreCoalesced (stretches items.old.items) }
    requires range { IsPageRange (stretch_of_region region) }
    requires unmapped { IsUnmapped (stretch_of_region region) (target_at items.old.items) }
    requires place { IsPlace items.old.items (length items.old.items) region }
    ensures ok { OnOk result (IsAdded region items.old.items items.new.items) }
    ensures err { OnErr result (items.new.items ≡ items.old.items) }
{
    let len = items.len();
    if joins_previous(items.as_slice(), len, &region) {
        items[len - 1].last = region.last;
        return Ok(());
    }
    items.push(region)?;
    Ok(())
}

/// Adds a region among others.
#[cold]
#[inline(never)]
pub(crate) fn add(items: &mut Vec<Region>, region: Region) -> Result<(), AllocError>
    requires coalesced { AreCoalesced (stretches items.old.items) }
    requires range { IsPageRange (stretch_of_region region) }
    requires unmapped { IsUnmapped (stretch_of_region region) (target_at items.old.items) }
    ensures ok { OnOk result (IsAdded region items.old.items items.new.items) }
    ensures err { OnErr result (items.new.items ≡ items.old.items) }
{
    let place = count_before(items.as_slice(), region.first);
    add_at(items, place, region)
}

/// Adds a region at its place: as one with the region before it, with that after it, with both, or by itself.
fn add_at(items: &mut Vec<Region>, place: usize, region: Region) -> Result<(), AllocError>
    requires coalesced { AreCoalesced (stretches items.old.items) }
    requires range { IsPageRange (stretch_of_region region) }
    requires unmapped { IsUnmapped (stretch_of_region region) (target_at items.old.items) }
    requires place { IsPlace items.old.items place region }
    ensures ok { OnOk result (IsAdded region items.old.items items.new.items) }
    ensures err { OnErr result (items.new.items ≡ items.old.items) }
{
    let previous = joins_previous(items.as_slice(), place, &region);
    let next = joins_next(items.as_slice(), place, &region);
    match (previous, next) {
        (true, true) => {
            items[place - 1].last = items[place].last;
            items.remove(place);
        }
        (true, false) => items[place - 1].last = region.last,
        (false, true) => {
            items[place] = Region {
                last: items[place].last,
                ..region
            };
        }
        (false, false) => items.insert(place, region)?,
    }
    Ok(())
}
