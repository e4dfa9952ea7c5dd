//! What a list maps in a range, in another list.

ghost use Rattle.std.specs.Prelude.{◌≡◌, ℕ, ◌%◌, ◌<◌, ◌≤◌, IfOk, OnOk, None};
ghost use Rattle.paging_model.specs.Listings.{stretch_of_region};
ghost use Rattle.region_map.specs.Coalesced.{AreCoalesced, AreWholePages, IsCopied, IsPageRange, stretches, target_at};
ghost use Rattle.region_map.specs.Parts.{IsPartIn};

use crate::places::count_before;
use crate::regions::Regions;
use paging_model::spaces::Region;
use std::alloc::{AllocError, Global};

/// The part of a region that lies in a range, which it meets.
#[inline(always)]
fn part_in(region: &Region, first: u64, last: u64) -> Region
    requires pages { AreWholePages first last }
    requires range { IsPageRange (stretch_of_region region.now) }
    requires begins { region.now.first ≤ last }
    requires ends { first ≤ region.now.last }
    ensures range { IsPageRange (stretch_of_region result) }
    ensures part { IsPartIn first last (stretch_of_region region.now) (stretch_of_region result) }
{
    let start = region.first.max(first);
    Region {
        first: start,
        last: region.last.min(last),
        frame: region.frame + (start - region.first),
        ..*region
    }
}

/// Maps in a range what a list maps there, up to the list's first region after the range.
pub(crate) fn copy_range(
    regions: &mut Regions,
    list: &[Region],
    first: u64,
    last: u64,
) -> Result<(), AllocError>
    requires pages { AreWholePages first last }
    requires list { AreCoalesced (stretches list.now) }
    requires unmapped { (x : ℕ) → first ≤ x → x ≤ last → target_at regions.old x ≡ None }
    ensures { OnOk result
        (IsCopied first last (target_at list.now) (target_at regions.old) (target_at regions.new)) }
{
    let (_, rest) = list.split_at(count_before(list, first));
    for region in rest {
        if last < region.first {
            return Ok(());
        }
        regions.fill(part_in(region, first, last))?;
    }
    Ok(())
}

/// Maps before a page what a list maps there.
fn copy_before(regions: &mut Regions, list: &[Region], page: u64) -> Result<(), AllocError>
    requires page { page % 4096 ≡ 0 }
    requires list { AreCoalesced (stretches list.now) }
    requires unmapped { (x : ℕ) → x < page → target_at regions.old x ≡ None }
    ensures before { OnOk result
        ((x : ℕ) → x < page → target_at regions.new x ≡ target_at list.now x) }
    ensures from { OnOk result
        ((x : ℕ) → page ≤ x → target_at regions.new x ≡ target_at regions.old x) }
{
    if page == 0 {
        return Ok(());
    }
    copy_range(regions, list, 0, page - 1)
}

/// Maps after the last byte of a page what a list maps there.
fn copy_after(regions: &mut Regions, list: &[Region], last: u64) -> Result<(), AllocError>
    requires last { last % 4096 ≡ 4095 }
    requires list { AreCoalesced (stretches list.now) }
    requires unmapped { (x : ℕ) → last < x → target_at regions.old x ≡ None }
    ensures after { OnOk result
        ((x : ℕ) → last < x → target_at regions.new x ≡ target_at list.now x) }
    ensures to { OnOk result
        ((x : ℕ) → x ≤ last → target_at regions.new x ≡ target_at regions.old x) }
{
    if last == u64::MAX {
        return Ok(());
    }
    copy_range(regions, list, last + 1, u64::MAX)
}

/// A list of what one list maps in a range, and of what another maps outside it.
pub(crate) fn replacement(
    alloc: Global,
    outside: &[Region],
    first: u64,
    last: u64,
    inside: &[Region],
) -> Result<Regions, AllocError>
    requires pages { AreWholePages first last }
    requires outside { AreCoalesced (stretches outside.now) }
    requires inside { AreCoalesced (stretches inside.now) }
    ensures { IfOk result (λ regions.
        IsCopied first last (target_at inside.now) (target_at outside.now) (target_at regions)) }
{
    let mut regions = Regions::new(alloc);
    copy_before(&mut regions, outside, first)?;
    copy_range(&mut regions, inside, first, last)?;
    copy_after(&mut regions, outside, last)?;
    Ok(regions)
}
