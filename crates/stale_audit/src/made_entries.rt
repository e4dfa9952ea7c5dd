//! The entries that a slot made with NXE as given.

ghost use Rattle.std.specs.Prelude.{◌≡◌, ℕ, ◌+◌, ◌≤◌, ◌↔◌, Some, None, IfOk, true};
ghost use Rattle.history_model.specs.CachedTranslations.{Held};
ghost use Rattle.paging_model.specs.Memory.{entry_at};
ghost use Rattle.past_entries.specs.PastEntries.{AllFitLevel, WasMade};
ghost use Rattle.past_entries.specs.ValueSpans.{AreInOrder};
ghost use Rattle.phys_view.specs.Seen.{memory_of};
ghost use Rattle.stale_audit.specs.SlotEntries.{IsMadeWith, entries_at, spans_of};
ghost use Rattle.time_sets.specs.Sets.{has_time};
ghost use Rattle.version_store.specs.Changes.{value_at};
ghost use Rattle.version_store.specs.Spanning.{AreSpans};

use crate::point::Point;
use crate::slot_values::SlotValues;
use paging_model::entries::Bits;
use past_entries::{Fill, PastEntry, entries_of, fill_of};
use phys_view::Ledger;
use std::alloc::AllocError;
use time_sets::Times;

/// The entries that a slot made at some times.
#[derive(Drop)]
pub(crate) enum MadeEntries {
    /// One entry or none, at all of the times.
    Always(Option<Fill>),
    /// Entries at some of the times each.
    Past(Vec<PastEntry>),
}

/// The entries that a slot made at some times with NXE as given, by its values. No set of times is built where there
/// are no times, or where the slot had one value.
pub(crate) fn made_entries<L: Ledger>(
    point: &Point<'_, '_, L>,
    level: u8,
    above: Bits,
    values: &SlotValues,
    nxe: bool,
    times: &Times,
) -> Result<MadeEntries, AllocError>
    requires least { 1 ≤ level }
    requires most { level ≤ 5 }
    requires order { AreInOrder (spans_of values.now point.now.host.horizon point.now.end) }
    requires since { (t : ℕ) → has_time times.now t ≡ true → point.now.host.horizon ≤ t }
    requires until { (t : ℕ) → has_time times.now t ≡ true → t ≤ point.now.end }
    ensures made { IfOk result (λ made. (address present : ℕ) (held : Held) (t : ℕ)
        → entry_at (memory_of point.now.seen) address ≡ Some present
        → AreSpans (value_at point.now.kept address present) None point.now.host.horizon
        (point.now.end + 1) (spans_of values.now point.now.host.horizon point.now.end)
        → WasMade (entries_at made times.now) held t
        ↔ IsMadeWith point.now nxe times.now level address above held t) }
    ensures fit { IfOk result (λ made. AllFitLevel level (entries_at made times.now)) }
{
    if times.is_empty() {
        return Ok(MadeEntries::Always(None));
    }
    let settings = point.settings_with(nxe);
    let global = point.pages_are_global();
    match values {
        SlotValues::Same(value) => Ok(MadeEntries::Always(fill_of(
            level, &settings, global, above, *value,
        ))),
        SlotValues::Past(spans) => {
            let entries = entries_of(
                point.alloc,
                spans.as_slice(),
                level,
                &settings,
                global,
                above,
                times,
            )?;
            Ok(MadeEntries::Past(entries))
        }
    }
}
