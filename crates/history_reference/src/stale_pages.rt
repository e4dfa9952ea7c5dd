//! The translations of a page that a processor may use, and those of them that are stale.

ghost use Rattle.std.specs.Prelude.{◌≡◌, ◌↔◌, ◌⊎◌, ◌&&◌, [], ◌∷◌, filter, option_map, Some, IfOk, OnOk, MatchOption};
ghost use Rattle.paging_model.specs.AccessSets.{minus_of};
ghost use Rattle.paging_model.specs.Counting.{IsIn};
ghost use Rattle.paging_reference.specs.PageTargets.{target_of};
ghost use Rattle.history_model.specs.StaleTranslations.{Exceeds, excess_over, held_target as held_target_of};
ghost use Rattle.history_model.specs.declared.caches.Finding.{Finding};
ghost use Rattle.history_reference.specs.CacheEntries.{HeldEntry};
ghost use Rattle.history_reference.specs.GivenPages.{IsFoundOf, IsGlobalUnder, IsStaleAmong, IsUsable};
ghost use Rattle.history_reference.specs.Moments.{history_of};

use crate::cache_entries::CacheEntry;
use crate::made_entries::{add_entries, held_entries};
use crate::moments::{Moment, machine, regs};
use crate::visits::{last_root, visited_pcids};
use history_model::caches::Finding;
use paging_model::access_sets::Rights;
use paging_model::registers::Regs;
use paging_reference::listings::is_page;
use paging_reference::translations::{PageTarget, permitted_accesses, present_target};
use paging_reference::walking::span;
use proc_regs::bit_ranges::bit;
use proc_regs::register_bits::CR4_LA57;
use std::alloc::{AllocError, Global};

/// The translations of a page that a processor may use under a PCID: those that it holds under it, and global ones that
/// it holds under a PCID that it visited.
pub fn usable_translations(
    alloc: Global,
    moment: &Moment,
    cpu: u32,
    pcid: u16,
    page: u64,
) -> Result<Vec<CacheEntry>, AllocError>
    ensures { IfOk result (λ list. (entry : HeldEntry) → IsIn entry list.items
        ↔ IsUsable (history_of moment.now) cpu pcid page entry) }
{
    let own = held_entries(alloc, moment, cpu, pcid, page)?;
    let mut list = leaves(alloc, &own)?;
    let visited = visited_pcids(alloc, moment, cpu)?;
    for under in &visited {
        add_global(alloc, &mut list, moment, cpu, *under, page)?;
    }
    Ok(list)
}

/// Adds the global translations of a page that are held under a PCID.
fn add_global(
    alloc: Global,
    list: &mut Vec<CacheEntry>,
    moment: &Moment,
    cpu: u32,
    under: u16,
    page: u64,
) -> Result<(), AllocError>
    ensures { OnOk result ((entry : HeldEntry) → IsIn entry list.new.items
        ↔ (IsIn entry list.old.items
        ⊎ IsGlobalUnder (history_of moment.now) cpu under page entry)) }
{
    let held = held_entries(alloc, moment, cpu, under, page)?;
    let global = global_leaves(alloc, &held)?;
    add_entries(list, &global)
}

/// The translations of pages among entries.
fn leaves(alloc: Global, entries: &[CacheEntry]) -> Result<Vec<CacheEntry>, AllocError>
    ensures { IfOk result
        (λ list. list.items ≡ filter (λ entry. entry.held.leaf) entries.now) }
{
    entries
        .iter()
        .copied()
        .filter(|entry| entry.is_leaf())
        .collect(alloc)
}

/// The global translations of pages among entries.
fn global_leaves(alloc: Global, entries: &[CacheEntry]) -> Result<Vec<CacheEntry>, AllocError>
    ensures { IfOk result (λ list. list.items
        ≡ filter (λ entry. entry.held.leaf && entry.held.global) entries.now) }
{
    entries
        .iter()
        .copied()
        .filter(|entry| entry.is_leaf() && entry.is_global())
        .collect(alloc)
}

/// The stale translations of a processor and a PCID at a page.
pub fn stale_translations(
    alloc: Global,
    moment: &Moment,
    cpu: u32,
    pcid: u16,
    page: u64,
) -> Result<Vec<Finding>, AllocError>
    ensures { IfOk result (λ list. (finding : Finding) → IsIn finding list.items
        ↔ IsStaleAmong (history_of moment.now) cpu pcid (page ∷ []) finding) }
{
    let Some(known) = regs(moment, cpu) else {
        return Ok(Vec::new(alloc));
    };
    let Some(root) = last_root(moment, cpu, pcid) else {
        return Ok(Vec::new(alloc));
    };
    if !is_page(bit(known.cr4, CR4_LA57), page) {
        return Ok(Vec::new(alloc));
    }
    let there = present_target(moment, &machine(moment), &known, root, page);
    let usable = usable_translations(alloc, moment, cpu, pcid, page)?;
    found_among(alloc, &usable, &there, &known, cpu, pcid, page)
}

/// What is found of translations that may be used at a page, where the present translation is this.
fn found_among(
    alloc: Global,
    usable: &[CacheEntry],
    there: &Option<PageTarget>,
    known: &Regs,
    cpu: u32,
    pcid: u16,
    page: u64,
) -> Result<Vec<Finding>, AllocError>
    ensures { IfOk result (λ list. (finding : Finding) → IsIn finding list.items
        ↔ ((entry : HeldEntry) × IsIn entry usable.now
        × IsFoundOf (option_map target_of there.now) known.now cpu pcid page entry finding)) }
{
    let mut list = Vec::new(alloc);
    for entry in usable {
        let found = found_of(entry, there, known, cpu, pcid, page);
        add_finding(&mut list, found)?;
    }
    Ok(list)
}

/// Adds a finding, where there is one.
fn add_finding(list: &mut Vec<Finding>, finding: Option<Finding>) -> Result<(), AllocError>
    ensures { OnOk result ((other : Finding) → IsIn other list.new.items
        ↔ (IsIn other list.old.items ⊎ (finding ≡ Some other))) }
{
    let Some(finding) = finding else {
        return Ok(());
    };
    list.push(finding)?;
    Ok(())
}

/// What is found of a translation that may be used at a page.
fn found_of(
    entry: &CacheEntry,
    there: &Option<PageTarget>,
    known: &Regs,
    cpu: u32,
    pcid: u16,
    page: u64,
) -> Option<Finding>
    ensures { (finding : Finding) → (result ≡ Some finding)
        ↔ IsFoundOf (option_map target_of there.now) known.now cpu pcid page entry.now finding }
{
    let granted = held_target(entry, known, page);
    let excess = excess(there, &granted)?;
    Some(Finding {
        cpu,
        pcid,
        page,
        frame: granted.frame,
        excess,
    })
}

/// Where a held translation takes a page, and what it grants there.
fn held_target(entry: &CacheEntry, known: &Regs, page: u64) -> PageTarget
    ensures { target_of result ≡ held_target_of known.now entry.now.level page entry.now.held }
{
    PageTarget {
        frame: entry.frame() + page % span(entry.level()),
        rights: permitted_accesses(known, page, entry.bits(), entry.key()),
    }
}

/// What is granted beyond the present translation, where something is.
fn excess(there: &Option<PageTarget>, granted: &PageTarget) -> Option<Rights>
    ensures { MatchOption result
        (Exceeds (option_map target_of there.now) (target_of granted.now) → ⊥)
        (λ more. Exceeds (option_map target_of there.now) (target_of granted.now)
        × (more ≡ excess_over (option_map target_of there.now) (target_of granted.now))) }
{
    let Some(there) = there else {
        return Some(granted.rights);
    };
    if there.frame != granted.frame {
        return Some(granted.rights);
    }
    let more = difference(&granted.rights, &there.rights);
    if more.number() == 0 {
        return None;
    }
    Some(more)
}

/// The accesses of one set that aren't in another.
fn difference(some: &Rights, other: &Rights) -> Rights
    ensures { result ≡ minus_of some.now other.now }
{
    Rights::of_number(some.minus(other).number())
}
