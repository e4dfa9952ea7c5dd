//! What an event removes of what a processor holds.

ghost use Rattle.std.specs.Prelude.{◌≡◌, ◌≤◌};
ghost use Rattle.history_model.specs.Invalidations.{change_kills as change_kills_of, cr3_kills as cr3_kills_of, cr4_kills as cr4_kills_of, empties as empties_of, invlpg_kills as invlpg_kills_of, invpcid_kills as invpcid_kills_of, is_global_leaf as is_global_leaf_of, is_of as is_of_pcid, key_covers as key_covers_of, kills as kills_of};

use history_model::caches::CacheKey;
use history_model::events::Event;
use paging_model::registers::{RegChange, Regs};
use paging_reference::walking::span;
use proc_regs::bit_ranges::{bit, field};
use proc_regs::register_bits::{CR3_KEEP, CR4_LA57, CR4_PCIDE, CR4_PGE, CR4_SMEP};
use proc_regs::{canonical, pcid};

/// Whether an event removes an entry of a processor with these registers before it.
#[tactic(auto, unfolding(history_model::specs::Invalidations::kills))]
pub fn kills(event: &Event, cpu: u32, before: &Regs, key: &CacheKey) -> bool
    requires least { 1 ≤ key.now.level }
    requires most { key.now.level ≤ 5 }
    ensures { result ≡ kills_of event.now cpu before.now key.now }
{
    match *event {
        Event::Invlpg { cpu: of, address } => of == cpu && invlpg_kills(address, before, key),
        Event::Invpcid {
            cpu: of,
            kind,
            pcid,
            address,
        } => of == cpu && invpcid_kills(kind, pcid, address, before, key),
        Event::Set { cpu: of, change } => of == cpu && change_kills(change, before, key),
        _ => false,
    }
}

/// INVLPG: translations of the address, of the current PCID or global, and each paging-structure-cache entry of the
/// current PCID.
fn invlpg_kills(address: u64, before: &Regs, key: &CacheKey) -> bool
    requires least { 1 ≤ key.now.level }
    requires most { key.now.level ≤ 5 }
    ensures { result ≡ invlpg_kills_of address before.now key.now }
{
    let own = key.pcid == pcid(before);
    canonical(bit(before.cr4, CR4_LA57), address)
        && if key.leaf {
            key_covers(key, address) && (own || key.global)
        } else {
            own
        }
}

/// INVPCID, by its type.
fn invpcid_kills(kind: u64, pcid: u64, address: u64, before: &Regs, key: &CacheKey) -> bool
    requires least { 1 ≤ key.now.level }
    requires most { key.now.level ≤ 5 }
    ensures { result ≡ invpcid_kills_of kind pcid address before.now key.now }
{
    match kind {
        0 => {
            canonical(bit(before.cr4, CR4_LA57), address)
                && is_of(pcid, key)
                && key_covers(key, address)
        }
        1 => is_of(pcid, key),
        2 => true,
        3 => !is_global_leaf(key),
        _ => false,
    }
}

/// A change of one register; only CR3 and CR4 remove anything.
fn change_kills(change: RegChange, before: &Regs, key: &CacheKey) -> bool
    ensures { result ≡ change_kills_of change before.now key.now }
{
    match change {
        RegChange::Cr3(value) => cr3_kills(value, before, key),
        RegChange::Cr4(value) => cr4_kills(value, before, key),
        _ => false,
    }
}

/// MOV to CR3: what is of the PCID that it selects, but nothing where it keeps that.
fn cr3_kills(value: u64, before: &Regs, key: &CacheKey) -> bool
    ensures { result ≡ cr3_kills_of value before.now key.now }
{
    if !bit(before.cr4, CR4_PCIDE) {
        is_of(0, key)
    } else if bit(value, CR3_KEEP) {
        false
    } else {
        is_of(field(value, 11, 0), key)
    }
}

/// MOV to CR4: everything, or, where it sets SMEP, everything of the current PCID.
fn cr4_kills(value: u64, before: &Regs, key: &CacheKey) -> bool
    ensures { result ≡ cr4_kills_of value before.now key.now }
{
    let sets_smep = bit(value, CR4_SMEP) && !bit(before.cr4, CR4_SMEP);
    empties(value, before) || (sets_smep && key.pcid == pcid(before))
}

/// MOV to CR4 that changes PGE or clears PCIDE.
fn empties(value: u64, before: &Regs) -> bool
    ensures { result ≡ empties_of value before.now }
{
    bit(value, CR4_PGE) != bit(before.cr4, CR4_PGE)
        || (bit(before.cr4, CR4_PCIDE) && !bit(value, CR4_PCIDE))
}

/// The entry serves the address.
fn key_covers(key: &CacheKey, address: u64) -> bool
    requires least { 1 ≤ key.now.level }
    requires most { key.now.level ≤ 5 }
    ensures { result ≡ key_covers_of key.now address }
{
    key.prefix <= address && address - key.prefix < span(key.level)
}

/// Of a PCID, and no global translation.
fn is_of(pcid: u64, key: &CacheKey) -> bool
    ensures { result ≡ is_of_pcid pcid key.now }
{
    u64::from(key.pcid) == pcid && !is_global_leaf(key)
}

/// A translation that may be used under every PCID.
fn is_global_leaf(key: &CacheKey) -> bool
    ensures { result ≡ is_global_leaf_of key.now }
{
    key.leaf && key.global
}
