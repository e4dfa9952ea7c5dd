//! A table, with the times at which it was in use.

ghost use Rattle.std.specs.Prelude.{◌≡◌, IfOk};
ghost use Rattle.paging_model.specs.Entries.{IsFrame};
ghost use Rattle.stale_audit.specs.SlotEntries.{IsSplit, IsTimed};

use crate::point::Point;
use paging_model::entries::Bits;
use phys_view::Ledger;
use std::alloc::AllocError;
use time_sets::Times;
use version_store::ChangedSlots;

/// A table, and when the processor used it in the PCID.
#[derive(Drop)]
pub(crate) struct TimedTable {
    /// The table's physical address.
    pub frame: u64,
    /// The bits that were joined down to the entry that references it.
    pub bits: Bits,
    /// Whether the present tables lead to it at its place too, under the same joined bits, and NXE was one.
    pub present: bool,
    /// When it was in use with NXE 0.
    pub nxe_clear: Times,
    /// When it was in use with NXE 1.
    pub nxe_set: Times,
    /// Which of its slots changed after the horizon.
    pub changed: ChangedSlots,
}

/// A table that is in use at some times.
pub(crate) fn timed_table<L: Ledger>(
    point: &Point<'_, '_, L>,
    frame: u64,
    bits: Bits,
    in_use: &Times,
    present: bool,
) -> Result<TimedTable, AllocError>
    requires { IsFrame frame }
    ensures frame { IfOk result (λ table. table.frame ≡ frame) }
    ensures bits { IfOk result (λ table. table.bits ≡ bits) }
    ensures present { IfOk result (λ table. table.present ≡ present) }
    ensures split { IfOk result (λ table. IsSplit point.now in_use.now table) }
    ensures timed { IfOk result (λ table. IsTimed point.now table) }
{
    Ok(TimedTable {
        frame,
        bits,
        present,
        nxe_clear: in_use.meet(point.nxe_clear)?,
        nxe_set: in_use.meet(point.nxe_set)?,
        changed: point.store.changed_after(frame, point.host.horizon()),
    })
}
