//! The descent of the tables.

ghost use Rattle.std.specs.Prelude.{◌≡◌, ℕ, ◌+◌, ◌-◌, ◌*◌, ◌<◌, ◌≤◌, true, Ok, IfOk};
ghost use Rattle.audit_laws.specs.Firsts.{IsFirst};
ghost use Rattle.audit_laws.specs.Leads.{IsTimeOf};
ghost use Rattle.paging_model.specs.Entries.{IsFrame};
ghost use Rattle.paging_model.specs.LinearAddress.{span};
ghost use Rattle.present_pages.specs.PresentRanges.{IsPresentRange};
ghost use Rattle.stale_audit.specs.Facts.{IsOfHome, AreTimely};
ghost use Rattle.stale_audit.specs.Findings.{IsFoundIn, NothingFound};
ghost use Rattle.stale_audit.specs.SlotEntries.{IsTimed, is_in_use};
ghost use Rattle.stale_audit.specs.SteadyTables.{AreKnownSteady, IsWalkedTo};
ghost use Rattle.time_sets.specs.Sets.{has_time};

use crate::firsts::first_of_two;
use crate::point::Point;
use crate::ranges::slot_range;
use crate::slots::slot_findings;
use crate::slots_to_audit::{entries_to_look_at, next_slot_to_audit};
use crate::steady_tables::{ENTRIES, KnownTables, is_steady};
use crate::timed_tables::{TimedTable, timed_table};
use audit_laws::stale_pages::StalePage;
use paging_model::entries::Bits;
use phys_view::{Ledger, Steps};
use present_pages::{PresentRange, There};
use std::alloc::AllocError;
use time_sets::Times;

/// The first finding under a table; `range` is that of the table, whose level is one less. The slots serve ascending
/// addresses: the first of them that has a finding has the first.
#[cycle(audit)]
fn audit_table<L: Ledger>(
    point: &Point<'_, '_, L>,
    table: &TimedTable,
    range: PresentRange,
    known: &mut KnownTables,
    steps: &mut Steps<L>,
) -> Result<Option<StalePage>, AllocError>
    requires ready { AreTimely point.now }
    requires known { AreKnownSteady point.now known.old }
    requires timed { IsTimed point.now table.now }
    requires range { IsPresentRange range }
    requires least { 2 ≤ range.level }
    requires most { range.level ≤ 5 }
    requires home { IsOfHome point.now range }
    requires walked { table.now.present ≡ true → IsWalkedTo point.now range.first
        (range.first + span range.level) (range.level - 1) table.now.frame table.now.bits }
    ensures known { AreKnownSteady point.now known.new }
    ensures first { IfOk result (IsFirst (IsFoundIn point.now range.first
        (range.first + span range.level) (IsTimeOf (is_in_use table.now))
        (range.level - 1) table.now.frame table.now.bits)) }
{
    let level = range.level - 1;
    let entries = entries_to_look_at(point, table, level, steps);
    let mut i = next_slot_to_audit(point, table, level, &entries, 0, known, steps)?;
    while i < ENTRIES {
        let slot = slot_range(point, range, i as u64, steps);
        let found = audit_slot(point, table, slot, known, steps)?;
        if found.is_some() {
            return Ok(found);
        }
        i = next_slot_to_audit(point, table, level, &entries, i + 1, known, steps)?;
    }
    Ok(None)
}

/// The first finding by the entries of one slot, and under the tables that they reference; `range` is that of the slot.
#[cycle(audit)]
pub(crate) fn audit_slot<L: Ledger>(
    point: &Point<'_, '_, L>,
    table: &TimedTable,
    range: PresentRange,
    known: &mut KnownTables,
    steps: &mut Steps<L>,
) -> Result<Option<StalePage>, AllocError>
    requires ready { AreTimely point.now }
    requires known { AreKnownSteady point.now known.old }
    requires timed { IsTimed point.now table.now }
    requires range { IsPresentRange range }
    requires most { range.level ≤ 5 }
    requires home { IsOfHome point.now range }
    ensures known { AreKnownSteady point.now known.new }
    ensures first { IfOk result (IsFirst (IsFoundIn point.now range.first
        (range.first + span range.level) (IsTimeOf
        (is_in_use table.now)) range.level table.now.frame table.now.bits)) }
{
    let slot = slot_findings(point, table, range, steps)?;
    let mut best = slot.found;
    for lower in &slot.tables {
        let found = audit_below(
            point,
            range,
            lower.frame,
            lower.bits,
            &lower.times,
            known,
            steps,
        )?;
        best = first_of_two(best, found);
    }
    Ok(best)
}

/// The first finding under a table that an entry of a slot references, at some times of its use; `range` is that of the
/// slot.
#[cycle(audit)]
fn audit_below<L: Ledger>(
    point: &Point<'_, '_, L>,
    range: PresentRange,
    table: u64,
    bits: Bits,
    in_use: &Times,
    known: &mut KnownTables,
    steps: &mut Steps<L>,
) -> Result<Option<StalePage>, AllocError>
    requires ready { AreTimely point.now }
    requires known { AreKnownSteady point.now known.old }
    requires frame { IsFrame table }
    requires range { IsPresentRange range }
    requires least { 2 ≤ range.level }
    requires most { range.level ≤ 5 }
    requires home { IsOfHome point.now range }
    ensures known { AreKnownSteady point.now known.new }
    ensures first { IfOk result (IsFirst (IsFoundIn point.now range.first
        (range.first + span range.level) (IsTimeOf (has_time in_use.now))
        (range.level - 1) table bits)) }
{
    if is_settled(point, range, table, bits, known, steps)? {
        return Ok(None);
    }
    let present = range.there == (There::Table { frame: table, bits }) && point.had_one_nxe();
    let timed = timed_table(point, table, bits, in_use, present)?;
    audit_table(point, &timed, range, known, steps)
}

/// Whether nothing stale can be found under a table that an entry of a slot references, whenever it was in use: the
/// present tables lead to it too, under the same joined bits, and since the horizon neither a slot of it or of a table
/// below changed nor NXE.
fn is_settled<L: Ledger>(
    point: &Point<'_, '_, L>,
    range: PresentRange,
    table: u64,
    bits: Bits,
    known: &mut KnownTables,
    steps: &mut Steps<L>,
) -> Result<bool, AllocError>
    requires ready { AreTimely point.now }
    requires known { AreKnownSteady point.now known.old }
    requires frame { IsFrame table }
    requires least { 2 ≤ range.level }
    requires most { range.level ≤ 5 }
    requires home { IsOfHome point.now range }
    ensures settled { result ≡ Ok true
        → NothingFound point.now range.first (range.first + span range.level)
        (range.level - 1) table bits }
    ensures known { AreKnownSteady point.now known.new }
{
    if range.there != (There::Table { frame: table, bits }) {
        return Ok(false);
    }
    if !point.had_one_nxe() {
        return Ok(false);
    }
    if point.store.last_time() <= point.host.horizon() {
        return Ok(true);
    }
    is_steady(point, range.level - 1, table, known, steps)
}
