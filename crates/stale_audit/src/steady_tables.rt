//! Tables that serve addresses as they did at each time since the horizon.

ghost use Rattle.std.specs.Prelude.{◌≡◌, ◌≢◌, ℕ, ◌+◌, ◌*◌, ◌^◌, ◌<◌, ◌≤◌, true, false, Ok, Some, IfOk, IfSome, OnOk, OnErr, option_map};
ghost use Rattle.std.specs.BTreeMap.{get};
ghost use Rattle.std.specs.Ordering.{nat_cmp};
ghost use Rattle.paging_model.specs.Entries.{IsFrame, entry_of};
ghost use Rattle.paging_model.specs.Memory.{entry_at};
ghost use Rattle.paging_model.specs.declared.entries.Bits.{Bits};
ghost use Rattle.paging_model.specs.declared.entries.Entry.TheVariants.{Table};
ghost use Rattle.phys_view.specs.Seen.{memory_of};
ghost use Rattle.stale_audit.specs.SteadyTables.{AreKnownSteady, IsAbsent, IsSteadyBelow, IsSteadyTable};

use crate::point::Point;
use entry_decode::decode;
use paging_model::entries::Entry;
use paging_model::registers::Settings;
use phys_view::{Entries, Ledger, Steps};
use proc_regs::bit_ranges::bit;
use std::alloc::AllocError;
use std::collections::BTreeMap;

/// P, the bit of an entry that is present.
const PRESENT: u8 = 0;

/// The number of entries of a table.
pub(crate) const ENTRIES: usize = 512;

/// How many entries are tested together.
const CHUNK: usize = 4;

/// Which tables are steady, of those that were looked through: by the address of each plus its level. The address is a
/// multiple of 4,096.
pub(crate) type KnownTables = BTreeMap<u64, bool>;

/// Whether no slot of a table of a level changed after the horizon, nor one of the tables below. Each table is looked
/// through once, and one of level 1 not at all: its frame tells.
#[cycle(search)]
pub(crate) fn is_steady<L: Ledger>(
    point: &Point<'_, '_, L>,
    level: u8,
    table: u64,
    known: &mut KnownTables,
    steps: &mut Steps<L>,
) -> Result<bool, AllocError>
    requires least { 1 ≤ level }
    requires most { level ≤ 5 }
    requires frame { IsFrame table }
    requires known { AreKnownSteady point.now known.old }
    ensures steady { result ≡ Ok true → IsSteadyTable point.now level table }
    ensures known { AreKnownSteady point.now known.new }
{
    let horizon = point.host.horizon();
    if point.store.last_time_under(table) > horizon {
        return Ok(false);
    }
    if level == 1 {
        return Ok(true);
    }
    let key = table + u64::from(level);
    if let Some(steady) = known.get(&key) {
        return Ok(*steady);
    }
    let entries = point.view.entries(table, ENTRIES, steps);
    let steady = next_unsteady(point, level, &entries, 0, ENTRIES, known, steps)? == ENTRIES;
    remember(known, key, steady)?;
    Ok(steady)
}

/// The first slot of a table of a level, from one on and before `end`, that is above a table that isn't known as
/// steady: `end` where there is none.
#[cycle(search)]
pub(crate) fn next_unsteady<L: Ledger>(
    point: &Point<'_, '_, L>,
    level: u8,
    entries: &Entries<'_, '_, L>,
    from: usize,
    end: usize,
    known: &mut KnownTables,
    steps: &mut Steps<L>,
) -> Result<usize, AllocError>
    requires least { 2 ≤ level }
    requires most { level ≤ 5 }
    requires seen { entries.now.seen ≡ point.now.seen }
    requires count { entries.now.count ≡ 512 }
    requires order { from ≤ end }
    requires end { end ≤ 512 }
    requires known { AreKnownSteady point.now known.old }
    ensures least { IfOk result (λ i. from ≤ i) }
    ensures most { IfOk result (λ i. i ≤ end) }
    ensures steady { IfOk result (λ i. (k : ℕ) → from ≤ k → k < i
        → IsSteadyBelow point.now level (entries.now.at + 8 * k)) }
    ensures known { AreKnownSteady point.now known.new }
{
    let mut i = next_present(entries, from, end);
    while i < end {
        if !is_steady_below(point, level, entries, i, known, steps)? {
            return Ok(i);
        }
        i = next_present(entries, i + 1, end);
    }
    Ok(end)
}

/// Whether the table that an entry of a table of a level references is steady, if it references one.
#[cycle(search)]
fn is_steady_below<L: Ledger>(
    point: &Point<'_, '_, L>,
    level: u8,
    entries: &Entries<'_, '_, L>,
    i: usize,
    known: &mut KnownTables,
    steps: &mut Steps<L>,
) -> Result<bool, AllocError>
    requires least { 2 ≤ level }
    requires most { level ≤ 5 }
    requires seen { entries.now.seen ≡ point.now.seen }
    requires slot { i < entries.now.count }
    requires known { AreKnownSteady point.now known.old }
    ensures steady { result ≡ Ok true
        → IsSteadyBelow point.now level (entries.now.at + 8 * i) }
    ensures known { AreKnownSteady point.now known.new }
{
    match table_of(level, &point.settings, entries.get(i)) {
        Some(lower) => is_steady(point, level - 1, lower, known, steps),
        None => Ok(true),
    }
}

/// The place of the first of some entries, from one on and before `end`, that is present: `end` where there is none.
/// Most are absent, so none is decoded here, and nothing else is done.
fn next_present<L: Ledger>(entries: &Entries<'_, '_, L>, from: usize, end: usize) -> usize
    requires order { from ≤ end }
    requires within { end ≤ entries.now.count }
    ensures least { from ≤ result }
    ensures most { result ≤ end }
    ensures absent { (k : ℕ) → from ≤ k → k < result
        → IsAbsent (entry_at (memory_of entries.now.seen) (entries.now.at + 8 * k)) }
{
    let mut i = from;
    while end - i >= CHUNK && are_absent(entries, i) {
        i += CHUNK;
    }
    for k in i..end {
        if is_present(entries.get(k)) {
            return k;
        }
    }
    end
}

/// Whether four entries from one on are absent. They are tested together: a test less for each of three of them.
#[inline]
fn are_absent<L: Ledger>(entries: &Entries<'_, '_, L>, from: usize) -> bool
    requires within { from + 4 ≤ entries.now.count }
    requires fits { from + 4 < 2 ^ 64 }
    ensures { result ≡ true → (k : ℕ) → from ≤ k → k < from + 4
        → IsAbsent (entry_at (memory_of entries.now.seen) (entries.now.at + 8 * k)) }
{
    let first = is_present(entries.get(from)) | is_present(entries.get(from + 1));
    let last = is_present(entries.get(from + 2)) | is_present(entries.get(from + 3));
    !(first | last)
}

/// Whether an entry is known, and present.
#[inline]
fn is_present(entry: Option<u64>) -> bool
    ensures { result ≡ false → IsAbsent entry }
{
    match entry {
        Some(value) => bit(value, PRESENT),
        None => false,
    }
}

/// The table that an entry of a level references.
#[inline]
fn table_of(level: u8, settings: &Settings, entry: Option<u64>) -> Option<u64>
    requires least { 1 ≤ level }
    requires most { level ≤ 5 }
    ensures value { (table : ℕ) (bits : Bits)
        → option_map (λ value. entry_of level settings.now value) entry ≡ Some (Table table bits)
        → result ≡ Some table }
    ensures frame { IfSome result (λ table. IsFrame table) }
{
    match decode(level, settings, entry?) {
        Entry::Table { frame, .. } => Some(frame),
        _ => None,
    }
}

/// Adds what is known of a table.
fn remember(known: &mut KnownTables, key: u64, steady: bool) -> Result<(), AllocError>
    ensures same { OnOk result (get nat_cmp known.new key ≡ Some steady) }
    ensures others { OnOk result ((other : ℕ) → other ≢ key
        → get nat_cmp known.new other ≡ get nat_cmp known.old other) }
    ensures unchanged { OnErr result ((other : ℕ) →
        get nat_cmp known.new other ≡ get nat_cmp known.old other) }
{
    known.insert(key, steady)?;
    Ok(())
}
