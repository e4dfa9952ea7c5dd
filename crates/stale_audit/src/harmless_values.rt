//! Values of a slot of which it is seen at once that nothing stale comes from them.

ghost use Rattle.std.specs.Prelude.{◌≡◌, ℕ, ◌≤◌, true};
ghost use Rattle.history_model.specs.CachedTranslations.{Held, held_of};
ghost use Rattle.paging_model.specs.Entries.{entry_of};
ghost use Rattle.paging_model.specs.Registers.{pge};
ghost use Rattle.past_entries.specs.ValueSpans.{SpansMake};
ghost use Rattle.present_pages.specs.PresentRanges.{IsPresentRange};
ghost use Rattle.stale_audit.specs.Facts.{IsOfHome, settings_with};
ghost use Rattle.stale_audit.specs.SlotEntries.{AllHarmless, IsHarmless, MakesHarmless, spans_of};

use crate::leaves::first_page;
use crate::point::Point;
use crate::slot_values::SlotValues;
use paging_model::entries::Bits;
use paging_model::registers::Settings;
use past_entries::fill_of;
use phys_view::{Ledger, Steps};
use present_pages::PresentRange;
use time_sets::Times;

/// Whether all that a slot made of its values at some times, with NXE as given, is harmless, whenever it is held. No
/// set of times is built for that. `range` is that of the slot.
pub(crate) fn are_harmless<L: Ledger>(
    point: &Point<'_, '_, L>,
    range: PresentRange,
    above: Bits,
    values: &SlotValues,
    nxe: bool,
    times: &Times,
    steps: &mut Steps<L>,
) -> bool
    requires range { IsPresentRange range }
    requires most { range.level ≤ 5 }
    requires home { IsOfHome point.now range }
    ensures { result ≡ true → (held : Held) (t : ℕ)
        → SpansMake (λ value. held_of (pge point.now.host.regs) above
        (entry_of range.level (settings_with nxe point.now.settings) value)) times.now
        (spans_of values.now point.now.host.horizon point.now.end) held t
        → IsHarmless point.now range.level range.first held }
{
    if times.is_empty() {
        return true;
    }
    let settings = point.settings_with(nxe);
    match values {
        SlotValues::Same(value) => is_harmless(point, range, &settings, above, *value, steps),
        SlotValues::Past(spans) => {
            all_harmless(point, range, &settings, above, spans.as_slice(), steps)
        }
    }
}

/// The same, by the spans of the slot's values.
fn all_harmless<L: Ledger>(
    point: &Point<'_, '_, L>,
    range: PresentRange,
    settings: &Settings,
    above: Bits,
    spans: &[(u32, u32, u64)],
    steps: &mut Steps<L>,
) -> bool
    requires range { IsPresentRange range }
    requires most { range.level ≤ 5 }
    requires home { IsOfHome point.now range }
    ensures { result ≡ true → AllHarmless point.now range.level range.first
        (λ value. held_of (pge point.now.host.regs) above
        (entry_of range.level settings.now value)) spans.now }
{
    for (_, _, value) in spans {
        if !is_harmless(point, range, settings, above, *value, steps) {
            return false;
        }
    }
    true
}

/// Whether what a slot makes of a value, by some settings, is harmless.
fn is_harmless<L: Ledger>(
    point: &Point<'_, '_, L>,
    range: PresentRange,
    settings: &Settings,
    above: Bits,
    value: u64,
    steps: &mut Steps<L>,
) -> bool
    requires range { IsPresentRange range }
    requires most { range.level ≤ 5 }
    requires home { IsOfHome point.now range }
    ensures { result ≡ true → MakesHarmless point.now range.level range.first
        (λ value. held_of (pge point.now.host.regs) above
        (entry_of range.level settings.now value)) value }
{
    let global = point.pages_are_global();
    let Some(fill) = fill_of(range.level, settings, global, above, value) else {
        return true;
    };
    if !fill.leaf {
        return false;
    }
    if point.is_left_out(&fill) {
        return true;
    }
    first_page(point, range, &fill, steps).is_none()
}
