//! What a processor holds for an address under a PCID: what it held before the last event and that event spares, and
//! what it makes now, from the top level down.

ghost use Rattle.std.specs.Prelude.{◌≡◌, ◌≢◌, ℕ, ◌≤◌, ◌↔◌, ◌⊎◌, not, Some, filter, option_map, IsTrue, IfOk, OnOk};
ghost use Rattle.std.specs.List.{filter_map};
ghost use Rattle.paging_model.specs.Counting.{IsIn};
ghost use Rattle.paging_model.specs.Entries.{IsFrame};
ghost use Rattle.paging_model.specs.Registers.{pcid_of};
ghost use Rattle.history_model.specs.CachedTranslations.{cache_key as key_of, fill_of};
ghost use Rattle.history_model.specs.History.{machine as machine_of, memory as memory_of, regs as regs_of};
ghost use Rattle.history_model.specs.Invalidations.{kills as kills_of};
ghost use Rattle.history_reference.specs.CacheEntries.{HeldEntry, entry_of_level};
ghost use Rattle.history_reference.specs.HeldLists.{AreHeld, AreStillHeld, IsMadeOver, made_at_root as made_at_root_of, made_below as made_below_of};
ghost use Rattle.history_reference.specs.Moments.{history_of};

use crate::cache_entries::CacheEntry;
use crate::invalidations::kills;
use crate::moments::{Moment, machine, regs};
use history_model::events::Event;
use paging_model::entries::Bits;
use paging_model::registers::Regs;
use paging_reference::walking::{ROOT_BITS, entry_read, top_level};
use proc_regs::bit_ranges::bit;
use proc_regs::register_bits::CR4_PGE;
use proc_regs::{pcid as pcid_of, root, settings};
use std::alloc::{AllocError, Global};

/// What a processor may hold for an address under a PCID, at each level.
#[cycle(held)]
pub fn held_entries(
    alloc: Global,
    moment: &Moment,
    cpu: u32,
    pcid: u16,
    address: u64,
) -> Result<Vec<CacheEntry>, AllocError>
    ensures { IfOk result
        (λ list. AreHeld (history_of moment.now) cpu pcid address list.items) }
{
    let mut list = kept_entries(alloc, moment, cpu, pcid, address)?;
    let Some(known) = regs(moment, cpu) else {
        return Ok(list);
    };
    if pcid_of(&known) != pcid {
        return Ok(list);
    }
    make_entries(&mut list, moment, &known, address)?;
    Ok(list)
}

/// What it held before the last event, and that event doesn't remove.
#[cycle(held)]
fn kept_entries(
    alloc: Global,
    moment: &Moment,
    cpu: u32,
    pcid: u16,
    address: u64,
) -> Result<Vec<CacheEntry>, AllocError>
    ensures { IfOk result
        (λ list. AreStillHeld (history_of moment.now) cpu pcid address list.items) }
{
    let Moment::After(before, event) = moment else {
        return Ok(Vec::new(alloc));
    };
    let Some(known) = regs(before, cpu) else {
        return Ok(Vec::new(alloc));
    };
    let earlier = held_entries(alloc, before, cpu, pcid, address)?;
    spared_entries(alloc, &earlier, event, cpu, &known, pcid, address)
}

/// The entries that an event doesn't remove.
fn spared_entries(
    alloc: Global,
    entries: &[CacheEntry],
    event: &Event,
    cpu: u32,
    before: &Regs,
    pcid: u16,
    address: u64,
) -> Result<Vec<CacheEntry>, AllocError>
    ensures { IfOk result (λ list. list.items ≡ filter
        (λ entry. not (kills_of event.now cpu before.now
        (key_of pcid entry.level address entry.held)))
        entries.now) }
{
    entries
        .iter()
        .copied()
        .filter(|entry| !kills(event, cpu, before, &entry.cache_key(pcid, address)))
        .collect(alloc)
}

/// Adds to what was kept all that a processor with these registers makes, from the highest level down.
fn make_entries(
    list: &mut Vec<CacheEntry>,
    moment: &Moment,
    known: &Regs,
    address: u64,
) -> Result<(), AllocError>
    ensures { OnOk result ((cpu pcid : ℕ) →
        regs_of (history_of moment.now) cpu ≡ Some known.now → pcid ≡ pcid_of known.now
        → AreStillHeld (history_of moment.now) cpu pcid address list.old.items
        → AreHeld (history_of moment.now) cpu pcid address list.new.items) }
{
    let mut level = 5;
    while level > 0 {
        make_level(list, moment, known, level, address)?;
        level -= 1;
    }
    Ok(())
}

/// Adds what is made of a level.
fn make_level(
    list: &mut Vec<CacheEntry>,
    moment: &Moment,
    known: &Regs,
    level: u8,
    address: u64,
) -> Result<(), AllocError>
    requires least { 1 ≤ level }
    requires most { level ≤ 5 }
    ensures { OnOk result ((entry : HeldEntry) → IsIn entry list.new.items
        ↔ (IsIn entry list.old.items
        ⊎ IsMadeOver (history_of moment.now) known.now level address list.old.items entry)) }
{
    let alloc = *list.allocator();
    let made = made_entries(alloc, list, moment, known, level, address)?;
    add_entries(list, &made)?;
    let Some(entry) = made_at_root(moment, known, level, address) else {
        return Ok(());
    };
    add_entry(list, entry)
}

/// Adds entries, each where it isn't in the list.
pub(crate) fn add_entries(
    list: &mut Vec<CacheEntry>,
    entries: &[CacheEntry],
) -> Result<(), AllocError>
    ensures { OnOk result ((other : HeldEntry) → IsIn other list.new.items
        ↔ (IsIn other list.old.items ⊎ IsIn other entries.now)) }
{
    for entry in entries {
        add_entry(list, *entry)?;
    }
    Ok(())
}

/// Adds an entry, where it isn't in the list.
fn add_entry(list: &mut Vec<CacheEntry>, entry: CacheEntry) -> Result<(), AllocError>
    ensures { OnOk result ((other : HeldEntry) →
        IsIn other list.new.items ↔ (IsIn other list.old.items ⊎ (other ≡ entry))) }
{
    if has_entry(list, &entry) {
        return Ok(());
    }
    list.push(entry)?;
    Ok(())
}

/// Whether the entry is in a list.
fn has_entry(list: &[CacheEntry], entry: &CacheEntry) -> bool
    ensures { IsTrue result ↔ IsIn entry.now list.now }
{
    for other in list {
        if *other == *entry {
            return true;
        }
    }
    false
}

/// What is made of a level in the tables that entries of a list reference.
fn made_entries(
    alloc: Global,
    list: &[CacheEntry],
    moment: &Moment,
    known: &Regs,
    level: u8,
    address: u64,
) -> Result<Vec<CacheEntry>, AllocError>
    requires least { 1 ≤ level }
    requires most { level ≤ 5 }
    ensures { IfOk result (λ made. made.items
        ≡ filter_map (made_below_of (history_of moment.now) known.now level address) list.now) }
{
    list.iter()
        .filter_map(|above| made_below(moment, known, level, address, above))
        .collect(alloc)
}

/// What is made of a level in the table that an entry references, where it is of the level above.
fn made_below(
    moment: &Moment,
    known: &Regs,
    level: u8,
    address: u64,
    above: &CacheEntry,
) -> Option<CacheEntry>
    requires least { 1 ≤ level }
    requires most { level ≤ 5 }
    ensures { result ≡ made_below_of (history_of moment.now) known.now level address above.now }
{
    if above.level() == level + 1 && !above.is_leaf() {
        made_entry(moment, known, level, address, above.frame(), above.bits())
    } else {
        None
    }
}

/// What is made of a level in the top table, where that is the level.
fn made_at_root(moment: &Moment, known: &Regs, level: u8, address: u64) -> Option<CacheEntry>
    requires least { 1 ≤ level }
    requires most { level ≤ 5 }
    ensures { result ≡ made_at_root_of (history_of moment.now) known.now level address }
{
    let machine = machine(moment);
    if level == top_level(&settings(known, &machine)) {
        let table = root(known, &machine);
        made_entry(moment, known, level, address, table, ROOT_BITS)
    } else {
        None
    }
}

/// What is made of the entry of a level that serves an address, in a table under joined bits.
#[tactic(auto, unfolding(history_model::specs::CachedTranslations::fill_of))]
fn made_entry(
    moment: &Moment,
    known: &Regs,
    level: u8,
    address: u64,
    table: u64,
    above: Bits,
) -> Option<CacheEntry>
    requires least { 1 ≤ level }
    requires most { level ≤ 5 }
    requires frame { IsFrame table }
    ensures { result ≡ option_map (entry_of_level level)
        (fill_of (memory_of (history_of moment.now)) (machine_of (history_of moment.now))
        known.now level address table above) }
{
    let settings = settings(known, &machine(moment));
    let entry = entry_read(moment, &settings, level, address, table)?;
    CacheEntry::of_entry(bit(known.cr4, CR4_PGE), level, above, entry)
}
