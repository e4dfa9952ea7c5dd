//! Stale translations by the entries of one slot.

ghost use Rattle.std.specs.Prelude.{◌≡◌, ℕ, ◌+◌, ◌%◌, ◌^◌, ◌<◌, ◌≤◌, true};
ghost use Rattle.audit_laws.specs.Firsts.{IsFirst};
ghost use Rattle.history_model.specs.CachedTranslations.{Held};
ghost use Rattle.paging_model.specs.LinearAddress.{span};
ghost use Rattle.past_entries.specs.Fills.{FitsLevel};
ghost use Rattle.past_entries.specs.PastEntries.{AllFitLevel, WasMade};
ghost use Rattle.phys_view.specs.Seen.{memory_of};
ghost use Rattle.present_pages.specs.PresentRanges.{IsPresentRange, maps};
ghost use Rattle.present_pages.specs.StalePages.{IsStaleIn};
ghost use Rattle.stale_audit.specs.Facts.{IsOfHome};
ghost use Rattle.stale_audit.specs.SlotEntries.{IsLeafOf, IsLeafOfSome, entries_at, held_page};
ghost use Rattle.time_sets.specs.Sets.{has_time};

use crate::firsts::first_of_two;
use crate::made_entries::MadeEntries;
use crate::point::Point;
use audit_laws::stale_pages::StalePage;
use held_times::is_held;
use past_entries::{Fill, PastEntry};
use phys_view::{Ledger, Steps};
use present_pages::{HeldPage, PresentRange, first_stale};
use time_sets::Times;

/// The first stale translation by the entries that a slot made at some times; `range` is that of the slot.
pub(crate) fn first_leaf<L: Ledger>(
    point: &Point<'_, '_, L>,
    range: PresentRange,
    made: &MadeEntries,
    times: &Times,
    steps: &mut Steps<L>,
) -> Option<StalePage>
    requires range { IsPresentRange range }
    requires most { range.level ≤ 5 }
    requires home { IsOfHome point.now range }
    requires fit { AllFitLevel range.level (entries_at made.now times.now) }
    requires times { (t : ℕ) → has_time times.now t ≡ true → t ≤ point.now.end }
    requires until { (held : Held) (t : ℕ) → WasMade (entries_at made.now times.now) held t
        → t ≤ point.now.end }
    ensures { IsFirst (IsLeafOfSome point.now range.level range.first
        (entries_at made.now times.now)) result }
{
    match made {
        MadeEntries::Always(None) => None,
        MadeEntries::Always(Some(fill)) => leaf_of(point, range, fill, times, steps),
        MadeEntries::Past(entries) => first_of_entries(point, range, entries.as_slice(), steps),
    }
}

/// The first stale translation by some entries.
fn first_of_entries<L: Ledger>(
    point: &Point<'_, '_, L>,
    range: PresentRange,
    entries: &[PastEntry],
    steps: &mut Steps<L>,
) -> Option<StalePage>
    requires range { IsPresentRange range }
    requires most { range.level ≤ 5 }
    requires home { IsOfHome point.now range }
    requires fit { AllFitLevel range.level entries.now }
    requires until { (held : Held) (t : ℕ) → WasMade entries.now held t → t ≤ point.now.end }
    ensures { IsFirst (IsLeafOfSome point.now range.level range.first entries.now) result }
{
    let mut first = None;
    for entry in entries {
        let found = leaf_of(point, range, &entry.fill, &entry.times, steps);
        first = first_of_two(first, found);
    }
    first
}

/// The first page of a slot's range at which the translation by an entry is stale, where it is held now.
fn leaf_of<L: Ledger>(
    point: &Point<'_, '_, L>,
    range: PresentRange,
    fill: &Fill,
    times: &Times,
    steps: &mut Steps<L>,
) -> Option<StalePage>
    requires range { IsPresentRange range }
    requires most { range.level ≤ 5 }
    requires home { IsOfHome point.now range }
    requires fits { FitsLevel range.level fill.now }
    requires until { (t : ℕ) → has_time times.now t ≡ true → t ≤ point.now.end }
    ensures { IsFirst (IsLeafOf point.now range.level range.first
        (record { fill = fill.now; times = times.now })) result }
{
    if !fill.leaf {
        return None;
    }
    if point.is_left_out(fill) {
        return None;
    }
    let key = point.key_of(range.level, range.first, fill);
    if range.level == 1 {
        // One page is compared at once, but an entry is put to all later invalidations.
        let found = first_page(point, range, fill, steps)?;
        return if is_held(point.host, &key, times, point.end) {
            Some(found)
        } else {
            None
        };
    }
    if !is_held(point.host, &key, times, point.end) {
        return None;
    }
    first_page(point, range, fill, steps)
}

/// The first page of a slot's range at which the translation by an entry exceeds the present tables.
pub(crate) fn first_page<L: Ledger>(
    point: &Point<'_, '_, L>,
    range: PresentRange,
    fill: &Fill,
    steps: &mut Steps<L>,
) -> Option<StalePage>
    requires range { IsPresentRange range }
    requires most { range.level ≤ 5 }
    requires leaf { fill.now.leaf ≡ true }
    requires fits { FitsLevel range.level fill.now }
    ensures { IsFirst (IsStaleIn point.now.host.regs (held_page range.level fill.now)
        (maps (memory_of point.now.seen) point.now.settings range.level range.first range.there)
        range.first (range.first + span range.level)) result }
{
    let held = HeldPage {
        level: range.level,
        frame: fill.frame,
        bits: fill.bits,
        key: fill.key,
    };
    first_stale(
        point.view,
        point.host.regs(),
        &point.settings,
        &held,
        range,
        range.first,
        steps,
    )
}
