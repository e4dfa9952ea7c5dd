//! The values of a slot since the horizon.

ghost use Rattle.std.specs.Prelude.{◌≡◌, ◌+◌, ◌/◌, ◌%◌, ◌≤◌, None, IfOk};
ghost use Rattle.stale_audit.specs.SlotEntries.{IsTimed, spans_of};
ghost use Rattle.version_store.specs.Changes.{value_at};
ghost use Rattle.version_store.specs.Spanning.{AreSpans};

use crate::point::Point;
use crate::timed_tables::TimedTable;
use phys_view::Ledger;
use std::alloc::AllocError;
use version_store::Spans;

/// The length of a frame in bytes.
const FRAME_LEN: u64 = 4096;

/// The length of a slot in bytes.
const SLOT_LEN: u64 = 8;

/// The values of a slot from a time up to now.
#[derive(Drop)]
pub(crate) enum SlotValues {
    /// One value throughout.
    Same(u64),
    /// Its values one after another.
    Past(Spans),
}

/// The values since the horizon of a slot at an address of a table, by its present value.
pub(crate) fn slot_values<L: Ledger>(
    point: &Point<'_, '_, L>,
    table: &TimedTable,
    address: u64,
    present: u64,
) -> Result<SlotValues, AllocError>
    requires timed { IsTimed point.now table.now }
    requires order { point.now.host.horizon ≤ point.now.end }
    requires inside { address / 4096 ≡ table.now.frame / 4096 }
    requires slot { address % 8 ≡ 0 }
    ensures { IfOk result (λ values. AreSpans
        (value_at point.now.kept address present) None point.now.host.horizon (point.now.end + 1)
        (spans_of values point.now.host.horizon point.now.end)) }
{
    let place = (address % FRAME_LEN / SLOT_LEN) as usize;
    if !table.changed.has(place) {
        return Ok(SlotValues::Same(present));
    }
    let spans = point.store.spans(
        point.alloc,
        address,
        point.host.horizon(),
        point.end,
        present,
    )?;
    Ok(SlotValues::Past(spans))
}
