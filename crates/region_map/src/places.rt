//! Where a region stands in a list, and whether it makes one with a neighbour.

ghost use Rattle.std.specs.Prelude.{◌≡◌, ◌↔◌, ◌-◌, ◌<◌, ◌≤◌, IsTrue, length, slice_index_or};
ghost use Rattle.std.specs.List.Sorted.{IsPartitionPoint};
ghost use Rattle.paging_model.specs.Listings.{IsOneWith, stretch_of_region};
ghost use Rattle.paging_model.specs.declared.spaces.Region.{Region};
ghost use Rattle.region_map.specs.Coalesced.{AreCoalesced, IsPageRange, region_at, stretches};
ghost use Rattle.region_map.specs.Places.{IsPlace, JoinsNext, JoinsPrevious};

use paging_model::spaces::Region;

/// How many of a list end before an address.
pub(crate) fn count_before(items: &[Region], address: u64) -> usize
    requires { AreCoalesced (stretches items.now) }
    ensures within { result ≤ length items.now }
    ensures point { IsPartitionPoint
        (λ (one : Region). one.last < address) (λ (one : Region). address ≤ one.last)
        items.now result }
{
    items.partition_point(|one| one.last < address)
}

/// The region that holds an address: it is the first that doesn't end before it.
pub(crate) fn region_of(items: &[Region], address: u64) -> Option<Region>
    requires { AreCoalesced (stretches items.now) }
    ensures { result ≡ region_at items.now address }
{
    let region = items.get(count_before(items, address))?;
    if region.first <= address {
        Some(*region)
    } else {
        None
    }
}

/// Whether all of a list end before an address: the last of them does.
#[inline(always)]
pub(crate) fn all_end_before(items: &[Region], address: u64) -> bool
    ensures { IsTrue result ↔ ((d : Region) → 0 < length items.now
        → (slice_index_or items.now (length items.now - 1) d).last < address) }
{
    items.is_empty() || items[items.len() - 1].last < address
}

/// Whether the second region goes on where the first ends, and is mapped alike.
#[inline(always)]
fn makes_one(one: &Region, other: &Region) -> bool
    requires range { IsPageRange (stretch_of_region one.now) }
    requires order { one.now.last < other.now.first }
    ensures { IsTrue result ↔ IsOneWith (stretch_of_region one.now) (stretch_of_region other.now) }
{
    other.first == one.last + 1
        && other.frame == one.frame + (other.first - one.first)
        && other.bits == one.bits
        && other.key == one.key
}

/// Whether the region before a place makes one with a new one.
#[inline(always)]
pub(crate) fn joins_previous(items: &[Region], place: usize, region: &Region) -> bool
    requires coalesced { AreCoalesced (stretches items.now) }
    requires place { IsPlace items.now place region.now }
    ensures { IsTrue result ↔ JoinsPrevious items.now place region.now }
{
    place > 0 && makes_one(&items[place - 1], region)
}

/// Whether a new region makes one with that at a place.
pub(crate) fn joins_next(items: &[Region], place: usize, region: &Region) -> bool
    requires range { IsPageRange (stretch_of_region region.now) }
    requires place { IsPlace items.now place region.now }
    ensures { IsTrue result ↔ JoinsNext items.now place region.now }
{
    place < items.len() && makes_one(region, &items[place])
}
