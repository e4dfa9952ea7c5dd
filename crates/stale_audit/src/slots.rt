//! What the entries of one slot come to.

ghost use Rattle.std.specs.Prelude.{◌≡◌, ℕ, ◌+◌, ◌*◌, ◌/◌, ◌%◌, ◌^◌, ◌<◌, ◌≤◌, Some, None, IfOk, true};
ghost use Rattle.audit_laws.specs.Leads.{IsTimeOf};
ghost use Rattle.history_model.specs.CachedTranslations.{Held};
ghost use Rattle.paging_model.specs.LinearAddress.{span};
ghost use Rattle.paging_model.specs.Memory.{entry_at};
ghost use Rattle.paging_model.specs.Walking.{entry_address as entry_address_of};
ghost use Rattle.phys_view.specs.Seen.{memory_of};
ghost use Rattle.present_pages.specs.PresentRanges.{IsPresentRange};
ghost use Rattle.stale_audit.specs.Facts.{IsOfHome, AreTimely};
ghost use Rattle.stale_audit.specs.Findings.{IsSlot};
ghost use Rattle.stale_audit.specs.SlotEntries.{AreTablesBelow, IsHarmless, IsMadeInUse, IsTimed, is_in_use, spans_of};
ghost use Rattle.version_store.specs.Changes.{value_at};
ghost use Rattle.version_store.specs.Spanning.{AreSpans};

use crate::firsts::first_of_two;
use crate::harmless_values::are_harmless;
use crate::leaves::first_leaf;
use crate::made_entries::made_entries;
use crate::point::Point;
use crate::slot_values::{SlotValues, slot_values};
use crate::tables::{HeldTable, add_tables};
use crate::timed_tables::TimedTable;
use audit_laws::stale_pages::StalePage;
use phys_view::{Ledger, Steps};
use present_pages::PresentRange;
use std::alloc::AllocError;
use walk_levels::entry_address;

/// What the entries of one slot come to.
#[derive(Drop)]
pub(crate) struct SlotFindings {
    /// The first stale translation.
    pub found: Option<StalePage>,
    /// The tables that they reference.
    pub tables: Vec<HeldTable>,
}

/// What the entries of a slot come to; `range` is that of the slot, and its level that of the table.
pub(crate) fn slot_findings<L: Ledger>(
    point: &Point<'_, '_, L>,
    table: &TimedTable,
    range: PresentRange,
    steps: &mut Steps<L>,
) -> Result<SlotFindings, AllocError>
    requires ready { AreTimely point.now }
    requires timed { IsTimed point.now table.now }
    requires range { IsPresentRange range }
    requires most { range.level ≤ 5 }
    requires home { IsOfHome point.now range }
    ensures slot { IfOk result (IsSlot point.now range.first (IsTimeOf
        (is_in_use table.now)) range.level table.now.frame table.now.bits) }
    ensures tables { IfOk result (λ slot. AreTablesBelow range.level slot.tables.items) }
{
    let address = entry_address(range.level, table.frame, range.first);
    match point.view.entry(address, steps) {
        Some(present) => known_slot(point, table, range, address, present, steps),
        None => Ok(SlotFindings {
            found: None,
            tables: Vec::new(point.alloc),
        }),
    }
}

/// The same, where the slot's bytes are known.
fn known_slot<L: Ledger>(
    point: &Point<'_, '_, L>,
    table: &TimedTable,
    range: PresentRange,
    address: u64,
    present: u64,
    steps: &mut Steps<L>,
) -> Result<SlotFindings, AllocError>
    requires ready { AreTimely point.now }
    requires timed { IsTimed point.now table.now }
    requires range { IsPresentRange range }
    requires most { range.level ≤ 5 }
    requires home { IsOfHome point.now range }
    requires address { address ≡ entry_address_of range.level range.first table.now.frame }
    requires present { entry_at (memory_of point.now.seen) address ≡ Some present }
    ensures slot { IfOk result (IsSlot point.now range.first (IsTimeOf
        (is_in_use table.now)) range.level table.now.frame table.now.bits) }
    ensures tables { IfOk result (λ slot. AreTablesBelow range.level slot.tables.items) }
{
    let PresentRange { level, first, .. } = range;
    let values = slot_values(point, table, address, present)?;
    if level == 1 && is_harmless_slot(point, table, range, &values, steps) {
        return Ok(SlotFindings {
            found: None,
            tables: Vec::new(point.alloc),
        });
    }
    let clear = made_entries(point, level, table.bits, &values, false, &table.nxe_clear)?;
    let set = made_entries(point, level, table.bits, &values, true, &table.nxe_set)?;
    let by_clear = first_leaf(point, range, &clear, &table.nxe_clear, steps);
    let by_set = first_leaf(point, range, &set, &table.nxe_set, steps);
    let found = first_of_two(by_clear, by_set);
    let mut tables = Vec::new(point.alloc);
    add_tables(point, level, first, &clear, &table.nxe_clear, &mut tables)?;
    add_tables(point, level, first, &set, &table.nxe_set, &mut tables)?;
    Ok(SlotFindings { found, tables })
}

/// Whether all that a slot made of its values at the times of its table is harmless. That is so of most pages of
/// 4 KBytes that changed, and no list of their entries has to be made.
fn is_harmless_slot<L: Ledger>(
    point: &Point<'_, '_, L>,
    table: &TimedTable,
    range: PresentRange,
    values: &SlotValues,
    steps: &mut Steps<L>,
) -> bool
    requires ready { AreTimely point.now }
    requires timed { IsTimed point.now table.now }
    requires range { IsPresentRange range }
    requires most { range.level ≤ 5 }
    requires home { IsOfHome point.now range }
    ensures { result ≡ true → (address present : ℕ) (held : Held) (t : ℕ)
        → entry_at (memory_of point.now.seen) address ≡ Some present
        → AreSpans (value_at point.now.kept address present) None point.now.host.horizon
        (point.now.end + 1) (spans_of values.now point.now.host.horizon point.now.end)
        → IsMadeInUse point.now table.now range.level address table.now.bits held t
        → IsHarmless point.now range.level range.first held }
{
    are_harmless(
        point,
        range,
        table.bits,
        values,
        false,
        &table.nxe_clear,
        steps,
    ) && are_harmless(
        point,
        range,
        table.bits,
        values,
        true,
        &table.nxe_set,
        steps,
    )
}
