//! The slots of a table that may lead to something stale.

ghost use Rattle.std.specs.Prelude.{◌≡◌, ℕ, ◌+◌, ◌*◌, ◌<◌, ◌≤◌, true, false, IfOk};
ghost use Rattle.stale_audit.specs.SlotEntries.{IsTimed};
ghost use Rattle.stale_audit.specs.SteadyTables.{AreKnownSteady, IsSteadyBelow, IsSteadyPlace, AreToLookAt, entries_of_table};

use crate::point::Point;
use crate::steady_tables::{ENTRIES, KnownTables, next_unsteady};
use crate::timed_tables::TimedTable;
use phys_view::{Entries, Ledger, Steps};
use std::alloc::AllocError;

/// The entries of a table of a level, where they have to be looked at to find the slots to audit. They needn't be where
/// the present tables don't lead to the table, since each slot is audited then; nor where nothing below can have
/// changed.
pub(crate) fn entries_to_look_at<'a, 'b, L: Ledger>(
    point: &Point<'a, 'b, L>,
    table: &TimedTable,
    level: u8,
    steps: &mut Steps<L>,
) -> Option<Entries<'a, 'b, L>>
    requires timed { IsTimed point.now table.now }
    requires least { 1 ≤ level }
    ensures { AreToLookAt point.now level table.now result }
{
    if !table.present || are_unchanged_below(point, level) {
        return None;
    }
    Some(point.view.entries(table.frame, ENTRIES, steps))
}

/// Whether it is known at once that nothing below the slots of a table of a level has changed since the horizon:
/// nothing is below them, or nothing at all has changed.
fn are_unchanged_below<L: Ledger>(point: &Point<'_, '_, L>, level: u8) -> bool
    requires { 1 ≤ level }
    ensures unchanged { result ≡ true → (slot : ℕ) → IsSteadyBelow point.now level slot }
    ensures level { result ≡ false → 2 ≤ level }
{
    level == 1 || point.store.last_time() <= point.host.horizon()
}

/// The next slot of a table of a level to audit, from one on: 512 where there is none. A slot is passed by where the
/// present tables lead to the table too, and neither the slot nor a table below it has changed since the horizon.
pub(crate) fn next_slot_to_audit<L: Ledger>(
    point: &Point<'_, '_, L>,
    table: &TimedTable,
    level: u8,
    entries: &Option<Entries<'_, '_, L>>,
    from: usize,
    known: &mut KnownTables,
    steps: &mut Steps<L>,
) -> Result<usize, AllocError>
    requires timed { IsTimed point.now table.now }
    requires most { level ≤ 5 }
    requires entries { AreToLookAt point.now level table.now entries.now }
    requires from { from ≤ 512 }
    requires known { AreKnownSteady point.now known.old }
    ensures least { IfOk result (λ i. from ≤ i) }
    ensures most { IfOk result (λ i. i ≤ 512) }
    ensures present { IfOk result (λ i. from < i → table.now.present ≡ true) }
    ensures unchanged { IfOk result (λ i. (k : ℕ) → from ≤ k → k < i
        → IsSteadyPlace point.now level (table.now.frame + 8 * k)) }
    ensures known { AreKnownSteady point.now known.new }
{
    if !table.present {
        return Ok(from);
    }
    let changed = table.changed.next(from);
    match entries {
        Some(entries) => next_unsteady(point, level, entries, from, changed, known, steps),
        None => Ok(changed),
    }
}
