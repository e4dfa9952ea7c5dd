//! One area more at the end of a list.

ghost use Rattle.std.specs.Prelude.{◌≡◌, ◌↔◌, ◌<◌, ◌≤◌, ℕ, None, IsTrue, OnOk};
ghost use Rattle.paging_model.specs.Listings.{IsOneWith, stretch_of_area};
ghost use Rattle.region_map.specs.Coalesced.{AreCoalesced, IsPageRange};
ghost use Rattle.area_list.specs.AreaLists.{IsAppended, IsUnmappedFrom, JoinsLast, area_stretches, area_target};

use paging_model::spaces::Area;
use std::alloc::AllocError;

/// Whether the second area goes on where the first ends, and is granted alike.
#[inline(always)]
fn makes_one(one: &Area, other: &Area) -> bool
    requires range { IsPageRange (stretch_of_area one.now) }
    requires order { one.now.last < other.now.first }
    ensures { IsTrue result ↔ IsOneWith (stretch_of_area one.now) (stretch_of_area other.now) }
{
    other.first == one.last + 1
        && other.frame == one.frame + (other.first - one.first)
        && other.rights == one.rights
}

/// Whether the last of a list makes one with an area after it.
#[inline(always)]
fn joins_last(areas: &[Area], area: &Area) -> bool
    requires coalesced { AreCoalesced (area_stretches areas.now) }
    requires after { IsUnmappedFrom area.now.first (area_target areas.now) }
    ensures { IsTrue result ↔ JoinsLast areas.now area.now }
{
    !areas.is_empty() && makes_one(&areas[areas.len() - 1], area)
}

/// Adds an area after all others: in the last of them, where the two make one.
#[inline(always)]
pub(crate) fn append(areas: &mut Vec<Area>, area: Area) -> Result<(), AllocError>
    requires coalesced { AreCoalesced (area_stretches areas.old.items) }
    requires range { IsPageRange (stretch_of_area area) }
    requires after { IsUnmappedFrom area.first (area_target areas.old.items) }
    ensures { OnOk result (IsAppended area areas.old.items areas.new.items) }
{
    if joins_last(areas.as_slice(), &area) {
        let end = areas.len() - 1;
        areas[end].last = area.last;
        return Ok(());
    }
    areas.push(area)?;
    Ok(())
}
