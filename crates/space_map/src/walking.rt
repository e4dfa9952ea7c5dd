//! The walk of all that some entries of a table map.
//!
//! It goes over the entries in the order of their addresses, and below each table before it goes on. So each page comes
//! after all that was found before, and is added to the regions in constant time.

ghost use Rattle.std.specs.Prelude.{◌≡◌, ℕ, ◌+◌, ◌*◌, ◌%◌, ◌^◌, ◌≤◌, length, IfOk};
ghost use Rattle.paging_model.specs.LinearAddress.{span as span_of};
ghost use Rattle.paging_model.specs.Memory.{Memory};
ghost use Rattle.paging_laws.specs.EntryParts.{uses_at};
ghost use Rattle.phys_view.specs.Seen.{memory_of};
ghost use Rattle.region_map.specs.Coalesced.{target_at};
ghost use Rattle.space_map.specs.MappedRanges.{IsClear};
ghost use Rattle.space_map.specs.WalkedIndexes.{IndexesEntry, IndexesSlots, IsFresh};
ghost use Rattle.space_map.specs.Walks.{IsWalkable, WalksEntry, WalksSlots, meaning, slot_first, uses_from};

use crate::faults::SpaceFault;
use crate::partial::PartialSpace;
use crate::ranges::{first_of, page_region};
use entry_decode::{decode, join};
use paging_model::entries::{Bits, Entry};
use paging_model::registers::Settings;
use paging_model::spaces::TableUse;
use phys_view::{Ledger, Steps, View};

/// The size in bytes of an entry.
const ENTRY_SIZE: u64 = 8;
/// How many entries a table has.
pub(crate) const ENTRIES: usize = 512;

/// Maps all that `count` entries of a table map, from entry `from` on, and puts the tables below them into the index.
/// It answers how many of these entries map a page themselves.
///
/// # Errors
///
/// The space is too large, or out of memory.
#[cycle(walk)]
pub(crate) fn walk_slots<L: Ledger>(
    view: &View<'_, L>,
    settings: &Settings,
    table: TableUse,
    from: usize,
    count: usize,
    space: &mut PartialSpace,
    steps: &mut Steps<L>,
) -> Result<u16, SpaceFault>
    requires table { IsWalkable table }
    requires slots { from + count ≤ 512 }
    requires clear { IsClear (slot_first table from) (slot_first table (from + count))
        (target_at space.old.regions) }
    requires fresh { IsFresh table.level (slot_first table from) (slot_first table (from + count))
        space.old.index }
    ensures walk { WalksSlots (memory_of view.now) settings.now table from count
        result space.old space.new }
    ensures index { IfOk result
        (IndexesSlots (memory_of view.now) settings.now table from count space.old space.new) }
    ensures cost { steps.new + 512 * space.old.uses ≤ steps.old + count + 512 * space.new.uses }
    ensures few { space.new.uses ≤ space.old.uses
        + length (uses_from (memory_of view.now) settings.now table from count) }
{
    if table.level == 1 {
        return walk_pages(view, settings, table, from, count, space, steps);
    }
    let entries = view.entries(table.frame + ENTRY_SIZE * from as u64, count, steps);
    let mut pages = 0;
    for k in 0..count {
        let value = entries.get(k);
        let first = first_of(table.level, table.prefix, from + k);
        let own = walk_entry(
            view,
            settings,
            table.level,
            first,
            table.bits,
            value,
            space,
            steps,
        )?;
        pages += own;
    }
    Ok(pages)
}

/// Maps all that an entry of a level above 1 maps, by its value. It answers 1 where it maps a page itself.
#[cycle(walk)]
fn walk_entry<L: Ledger>(
    view: &View<'_, L>,
    settings: &Settings,
    level: u8,
    first: u64,
    above: Bits,
    value: Option<u64>,
    space: &mut PartialSpace,
    steps: &mut Steps<L>,
) -> Result<u16, SpaceFault>
    requires least { 2 ≤ level }
    requires most { level ≤ 5 }
    requires begins { first % span_of level ≡ 0 }
    requires ends { first + span_of level ≤ 2 ^ 64 }
    requires clear { IsClear first (first + span_of level) (target_at space.old.regions) }
    requires fresh { IsFresh level first (first + span_of level) space.old.index }
    ensures walk { WalksEntry (memory_of view.now) settings.now level first above value
        result space.old space.new }
    ensures index { IfOk result (IndexesEntry (memory_of view.now) settings.now level first above
        value space.old space.new) }
    ensures one { IfOk result (λ pages. pages ≤ 1) }
    ensures cost { steps.new + 512 * space.old.uses ≤ steps.old + 512 * space.new.uses }
    ensures few { space.new.uses ≤ space.old.uses
        + length (uses_at (memory_of view.now) settings.now level first above
        (meaning settings.now level value)) }
{
    let Some(value) = value else {
        return Ok(0);
    };
    match decode(level, settings, value) {
        Entry::Absent => Ok(0),
        Entry::Reserved => Ok(0),
        Entry::Table { frame, bits } => {
            space.add_use()?;
            let table = TableUse {
                level: level - 1,
                prefix: first,
                frame,
                bits: join(above, bits),
            };
            let pages = walk_slots(view, settings, table, 0, ENTRIES, space, steps)?;
            space.index_table(table, pages)?;
            Ok(0)
        }
        Entry::Leaf {
            frame,
            bits,
            key,
            ..
        } => {
            space.add_page(page_region(level, first, frame, join(above, bits), key))?;
            Ok(1)
        }
    }
}

/// Maps the pages of some entries of a table of level 1, and answers how many they are.
fn walk_pages<L: Ledger>(
    view: &View<'_, L>,
    settings: &Settings,
    table: TableUse,
    from: usize,
    count: usize,
    space: &mut PartialSpace,
    steps: &mut Steps<L>,
) -> Result<u16, SpaceFault>
    requires table { IsWalkable table }
    requires last { table.level ≡ 1 }
    requires slots { from + count ≤ 512 }
    requires clear { IsClear (slot_first table from) (slot_first table (from + count))
        (target_at space.old.regions) }
    ensures walk { WalksSlots (memory_of view.now) settings.now table from count
        result space.old space.new }
    ensures index { IfOk result
        (IndexesSlots (memory_of view.now) settings.now table from count space.old space.new) }
    ensures uses { space.new.uses ≡ space.old.uses }
    ensures cost { steps.new ≡ steps.old + count }
{
    // A copy, which isn't read anew for each page.
    let settings = *settings;
    let entries = view.entries(table.frame + ENTRY_SIZE * from as u64, count, steps);
    let mut pages = 0;
    for k in 0..count {
        let value = entries.get(k);
        let first = first_of(1, table.prefix, from + k);
        let own = walk_page(&settings, first, table.bits, value, space)?;
        pages += own;
    }
    Ok(pages)
}

/// Maps the page of an entry of level 1, by its value. Its decoding is that of this one level.
#[inline(always)]
fn walk_page(
    settings: &Settings,
    first: u64,
    above: Bits,
    value: Option<u64>,
    space: &mut PartialSpace,
) -> Result<u16, SpaceFault>
    requires begins { first % 4096 ≡ 0 }
    requires ends { first + 4096 ≤ 2 ^ 64 }
    requires clear { IsClear first (first + 4096) (target_at space.old.regions) }
    ensures walk { (memory : Memory) →
        WalksEntry memory settings.now 1 first above value result space.old space.new }
    ensures index { (memory : Memory) → IfOk result
        (IndexesEntry memory settings.now 1 first above value space.old space.new) }
    ensures one { IfOk result (λ pages. pages ≤ 1) }
    ensures uses { space.new.uses ≡ space.old.uses }
{
    let Some(value) = value else {
        return Ok(0);
    };
    match decode(1, settings, value) {
        Entry::Absent => Ok(0),
        Entry::Reserved => Ok(0),
        Entry::Table { .. } => Ok(0),
        Entry::Leaf {
            frame,
            bits,
            key,
            ..
        } => {
            space.add_page(page_region(1, first, frame, join(above, bits), key))?;
            Ok(1)
        }
    }
}
