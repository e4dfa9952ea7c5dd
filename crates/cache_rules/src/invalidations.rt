//! What an event removes: a row of the table each.

ghost use Rattle.std.specs.Prelude.{◌≡◌, ◌≤◌, ◌<◌, ◌^◌};
ghost use Rattle.cache_rules.specs.Removals.{IsRemovalOf, takes_if};
ghost use Rattle.history_model.specs.Invalidations.{kills, change_kills, cr3_kills, cr4_kills, empties, invlpg_kills, invpcid_kills, loses_all};
ghost use Rattle.history_model.specs.declared.caches.CacheKey.{CacheKey};

use crate::removals::Removal;
use history_model::caches::CacheKey;
use history_model::events::Event;
use paging_model::registers::{RegChange, Regs};
use proc_regs::bit_ranges::{bit, field};
use proc_regs::register_bits::{CR3_KEEP, CR4_LA57, CR4_PCIDE, CR4_PGE, CR4_SMEP};
use proc_regs::{canonical, pcid};

/// Whether an event removes what has a key from processor `cpu`, with these registers before the event. The level of
/// the key is 1 to 5.
pub fn kills(event: &Event, cpu: u32, before: &Regs, key: &CacheKey) -> bool
    requires least { 1 ≤ key.now.level }
    requires most { key.now.level ≤ 5 }
    ensures { result ≡ kills event.now cpu before.now key.now }
{
    // Where it is read, the PCID is known to have 16 bits.
    let _pcid = key.pcid;
    match removal_of(event, cpu, before) {
        Some(removal) => removal.takes(key),
        None => false,
    }
}

/// What an event removes from processor `cpu`, with these registers before it; `None` where it is nothing.
#[tactic(auto, unfolding(history_model::specs::Invalidations::kills))]
pub fn removal_of(event: &Event, cpu: u32, before: &Regs) -> Option<Removal>
    ensures { IsRemovalOf event.now cpu before.now result }
{
    match *event {
        Event::Invlpg { cpu: of, address } if of == cpu => invlpg_removal(address, before),
        Event::Invpcid {
            cpu: of,
            kind,
            pcid,
            address,
        } if of == cpu => invpcid_removal(kind, pcid, address, before),
        Event::Set { cpu: of, change } if of == cpu => change_removal(change, before),
        _ => None,
    }
}

/// INVLPG of a canonical address removes by the current PCID.
fn invlpg_removal(address: u64, before: &Regs) -> Option<Removal>
    ensures { (key : CacheKey) → takes_if result key ≡ invlpg_kills address before.now key }
{
    if !canonical(bit(before.cr4, CR4_LA57), address) {
        return None;
    }
    Some(Removal::Address {
        pcid: pcid(before),
        address,
    })
}

/// INVPCID removes by its type. Nothing is of a PCID that has more than 16 bits.
fn invpcid_removal(kind: u64, pcid: u64, address: u64, before: &Regs) -> Option<Removal>
    ensures { (key : CacheKey) → key.pcid < 2 ^ 16
        → takes_if result key ≡ invpcid_kills kind pcid address before.now key }
{
    match kind {
        0 if canonical(bit(before.cr4, CR4_LA57), address) => {
            let pcid = u16::try_from(pcid).ok()?;
            Some(Removal::AddressOfPcid { pcid, address })
        }
        1 => {
            let pcid = u16::try_from(pcid).ok()?;
            Some(Removal::Pcid { pcid })
        }
        2 => Some(Removal::Everything),
        3 => Some(Removal::AllButGlobal),
        _ => None,
    }
}

/// Of the registers only CR3 and CR4 remove anything.
fn change_removal(change: RegChange, before: &Regs) -> Option<Removal>
    ensures { (key : CacheKey) → takes_if result key ≡ change_kills change before.now key }
{
    match change {
        RegChange::Cr3(value) => cr3_removal(value, before),
        RegChange::Cr4(value) => cr4_removal(value, before),
        _ => None,
    }
}

/// MOV to CR3 removes the PCID that it selects, unless bit 63 is 1. Without PCIDs it is PCID 0, whatever bit 63 is.
fn cr3_removal(value: u64, before: &Regs) -> Option<Removal>
    ensures { (key : CacheKey) → takes_if result key ≡ cr3_kills value before.now key }
{
    if !bit(before.cr4, CR4_PCIDE) {
        return Some(Removal::Pcid { pcid: 0 });
    }
    if bit(value, CR3_KEEP) {
        return None;
    }
    Some(Removal::Pcid {
        pcid: field(value, 11, 0) as u16,
    })
}

/// MOV to CR4 removes everything, or, where it sets SMEP, all of the current PCID.
fn cr4_removal(value: u64, before: &Regs) -> Option<Removal>
    ensures { (key : CacheKey) → takes_if result key ≡ cr4_kills value before.now key }
{
    if empties(value, before) {
        return Some(Removal::Everything);
    }
    if bit(value, CR4_SMEP) && !bit(before.cr4, CR4_SMEP) {
        return Some(Removal::PcidAndGlobal { pcid: pcid(before) });
    }
    None
}

/// Whether processor `cpu` loses everything by an event.
pub(crate) fn loses_all(event: &Event, cpu: u32, before: &Regs) -> bool
    ensures { result ≡ loses_all event.now cpu before.now }
{
    match *event {
        Event::Invpcid { cpu: of, kind, .. } => of == cpu && kind == 2,
        Event::Set {
            cpu: of,
            change: RegChange::Cr4(value),
        } => of == cpu && empties(value, before),
        _ => false,
    }
}

/// MOV to CR4 that changes PGE or clears PCIDE.
fn empties(value: u64, before: &Regs) -> bool
    ensures { result ≡ empties value before.now }
{
    bit(value, CR4_PGE) != bit(before.cr4, CR4_PGE)
        || (bit(before.cr4, CR4_PCIDE) && !bit(value, CR4_PCIDE))
}
