//! The tables that the entries of one slot reference.

ghost use Rattle.std.specs.Prelude.{◌≡◌, ℕ, ◌%◌, ◌≤◌, ◌↔◌, ◌⊎◌, true, OnOk};
ghost use Rattle.history_model.specs.CachedTranslations.{Held};
ghost use Rattle.paging_model.specs.LinearAddress.{span};
ghost use Rattle.paging_model.specs.declared.entries.Bits.{Bits};
ghost use Rattle.past_entries.specs.Fills.{FitsLevel};
ghost use Rattle.past_entries.specs.PastEntries.{AllFitLevel, WasMade};
ghost use Rattle.stale_audit.specs.Findings.{IsListedAt};
ghost use Rattle.stale_audit.specs.SlotEntries.{AreTablesBelow, IsReferenceOf, IsReferenceOfSome, entries_at};
ghost use Rattle.time_sets.specs.Sets.{has_time};

use crate::made_entries::MadeEntries;
use crate::point::Point;
use held_times::held_times;
use paging_model::entries::Bits;
use past_entries::{Fill, PastEntry};
use phys_view::Ledger;
use std::alloc::AllocError;
use time_sets::Times;

/// A table that a held entry references.
#[derive(Drop)]
pub(crate) struct HeldTable {
    /// The table's physical address.
    pub frame: u64,
    /// The bits that were joined down to the entry.
    pub bits: Bits,
    /// When the entry is held.
    pub times: Times,
}

/// Adds the tables that the entries of a slot reference that it made at some times, each with the times at which the
/// reference is held. The slot serves addresses from `first` on.
pub(crate) fn add_tables<L: Ledger>(
    point: &Point<'_, '_, L>,
    level: u8,
    first: u64,
    made: &MadeEntries,
    times: &Times,
    tables: &mut Vec<HeldTable>,
) -> Result<(), AllocError>
    requires least { 1 ≤ level }
    requires most { level ≤ 5 }
    requires whole { first % span level ≡ 0 }
    requires fit { AllFitLevel level (entries_at made.now times.now) }
    requires times { (t : ℕ) → has_time times.now t ≡ true → t ≤ point.now.end }
    requires until { (held : Held) (t : ℕ) → WasMade (entries_at made.now times.now) held t
        → t ≤ point.now.end }
    ensures listed { OnOk result ((frame : ℕ) (joined : Bits) (u : ℕ)
        → IsListedAt tables.new.items frame joined u ↔ (IsListedAt tables.old.items frame joined u
        ⊎ IsReferenceOfSome point.now level first
        (entries_at made.now times.now) frame joined u)) }
    ensures below { OnOk result (AreTablesBelow level tables.old.items
        → AreTablesBelow level tables.new.items) }
{
    match made {
        MadeEntries::Always(None) => Ok(()),
        MadeEntries::Always(Some(fill)) => add_table(point, level, first, fill, times, tables),
        MadeEntries::Past(entries) => {
            add_tables_of(point, level, first, entries.as_slice(), tables)
        }
    }
}

/// Adds the tables that some entries reference.
fn add_tables_of<L: Ledger>(
    point: &Point<'_, '_, L>,
    level: u8,
    first: u64,
    entries: &[PastEntry],
    tables: &mut Vec<HeldTable>,
) -> Result<(), AllocError>
    requires least { 1 ≤ level }
    requires most { level ≤ 5 }
    requires whole { first % span level ≡ 0 }
    requires fit { AllFitLevel level entries.now }
    requires until { (held : Held) (t : ℕ) → WasMade entries.now held t → t ≤ point.now.end }
    ensures listed { OnOk result ((frame : ℕ) (joined : Bits) (u : ℕ)
        → IsListedAt tables.new.items frame joined u ↔ (IsListedAt tables.old.items frame joined u
        ⊎ IsReferenceOfSome point.now level first entries.now frame joined u)) }
    ensures below { OnOk result (AreTablesBelow level tables.old.items
        → AreTablesBelow level tables.new.items) }
{
    for entry in entries {
        add_table(point, level, first, &entry.fill, &entry.times, tables)?;
    }
    Ok(())
}

/// Adds the table that an entry references, where it references one and is held at some time.
fn add_table<L: Ledger>(
    point: &Point<'_, '_, L>,
    level: u8,
    first: u64,
    fill: &Fill,
    made: &Times,
    tables: &mut Vec<HeldTable>,
) -> Result<(), AllocError>
    requires least { 1 ≤ level }
    requires most { level ≤ 5 }
    requires whole { first % span level ≡ 0 }
    requires fits { FitsLevel level fill.now }
    requires until { (t : ℕ) → has_time made.now t ≡ true → t ≤ point.now.end }
    ensures listed { OnOk result ((frame : ℕ) (joined : Bits) (u : ℕ)
        → IsListedAt tables.new.items frame joined u ↔ (IsListedAt tables.old.items frame joined u
        ⊎ IsReferenceOf point.now level first
        (record { fill = fill.now; times = made.now }) frame joined u)) }
    ensures below { OnOk result (AreTablesBelow level tables.old.items
        → AreTablesBelow level tables.new.items) }
{
    if fill.leaf {
        return Ok(());
    }
    let key = point.key_of(level, first, fill);
    let times = held_times(point.alloc, point.host, &key, made, point.end)?;
    if times.is_empty() {
        return Ok(());
    }
    tables.push(HeldTable {
        frame: fill.frame,
        bits: fill.bits,
        times,
    })?;
    Ok(())
}
