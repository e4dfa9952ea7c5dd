//! Regions in the place of others.

ghost use Rattle.std.specs.Prelude.{◌≡◌, ◌+◌, ◌-◌, ◌^◌, ◌<◌, ◌≤◌, OnOk, OnErr, length};
ghost use Rattle.std.specs.List.{splice};
ghost use Rattle.region_map.specs.Coalesced.{AreCoalesced, AreWholePages, stretches};
ghost use Rattle.region_map.specs.Parts.{AreAround, IsMoved};

use crate::places::count_before;
use paging_model::spaces::Region;
use std::alloc::AllocError;

/// From which place on and up to which regions meet a range, with one more on each side where there is one. At the end
/// it may be two.
pub(crate) fn around(items: &[Region], first: u64, last: u64) -> (usize, usize)
    requires pages { AreWholePages first last }
    requires coalesced { AreCoalesced (stretches items.now) }
    ensures { AreAround items.now first last result.0 result.1 }
{
    let from = count_before(items, first).saturating_sub(1);
    let to = (count_before(items, last) + 2).min(items.len());
    (from, to)
}

/// Moves what stands from one place on to a later one, in one move. What comes to stand between is any region.
fn widen(items: &mut Vec<Region>, from: usize, to: usize, any: Region) -> Result<(), AllocError>
    requires within { from ≤ length items.old.items }
    requires order { from ≤ to }
    requires few { length items.old.items + (to - from) < 2 ^ 64 }
    ensures ok { OnOk result (IsMoved from to items.old.items items.new.items) }
    ensures err { OnErr result (items.new.items ≡ items.old.items) }
{
    let len = items.len();
    items.resize(len + (to - from), any)?;
    items.copy_within(from..len, to);
    Ok(())
}

/// Moves what stands from one place on to an earlier one, in one move.
fn narrow(items: &mut Vec<Region>, from: usize, to: usize)
    requires within { from ≤ length items.old.items }
    requires order { to ≤ from }
    ensures { IsMoved from to items.old.items items.new.items }
{
    let len = items.len();
    items.copy_within(from..len, to);
    items.truncate(to + (len - from));
}

/// Puts a list in the place of the regions from one place up to another. What stands after them moves once at most,
/// and not at all where as many take their place.
pub(crate) fn put(
    items: &mut Vec<Region>,
    from: usize,
    to: usize,
    list: &[Region],
) -> Result<(), AllocError>
    requires order { from ≤ to }
    requires within { to ≤ length items.old.items }
    ensures ok { OnOk result (items.new.items ≡ splice items.old.items from to list.now) }
    ensures err { OnErr result (items.new.items ≡ items.old.items) }
{
    let end = from + list.len();
    if to < end {
        widen(items, to, end, list[0])?;
    } else if end < to {
        narrow(items, to, end);
    }
    items[from..end].copy_from_slice(list);
    Ok(())
}
