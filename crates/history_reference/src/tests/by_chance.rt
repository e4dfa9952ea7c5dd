//! Random histories of two processors, with what the manual says of each moment.

use super::*;
use crate::cache_entries::CacheEntry;
use crate::findings::findings_among;
use crate::made_entries::held_entries;
use crate::moments::{machine, regs};
use crate::stale_pages::stale_translations;
use crate::visits::visited_pcids;
use paging_model::walks::{Page, Walk};
use paging_reference::walking::{span, walk};
use proc_regs::{pcid, root, settings};
use std::process::Abort;
use std::test::Fail;

/// The pages that are looked at.
const PAGES: [u64; 5] = [0, 0x1000, 0x2000, 0x20_0000, 0x20_1000];

/// The tables of the first moment: two pages, of which the second is global.
const TABLES: [(usize, u64); 5] = [
    (0x1000, 0x2007),
    (0x2000, 0x3007),
    (0x3000, 0x4007),
    (0x4000, 0x5007),
    (0x4008, 0x6107),
];

/// The next number of a linear congruence.
fn next(random: u64) -> u64 {
    random
        .wrapping_mul(6_364_136_223_846_793_005)
        .wrapping_add(1_442_695_040_888_963_407)
}

/// A random entry of the tables at 0x1000 to 0x4000: absent, of the next table, or of a page, global or large at times.
fn random_entry(random: u64) -> (u64, u64) {
    let table = (random >> 32) % 4;
    let at = 0x1000 + table * 0x1000 + (random >> 36) % 3 * 8;
    let flags = [0, 7, 5, 7, 0x107, 7, 3, 0x87][(random >> 40) as usize % 8];
    let frame = if table == 3 || flags == 0x87 {
        [0x5000, 0x6000, 0x7000, 0][(random >> 44) as usize % 4]
    } else {
        0x2000 + table * 0x1000
    };
    (at, if flags == 0x87 { 0x87 } else { frame | flags })
}

/// A random event that isn't a write.
fn random_event(random: u64) -> Event {
    let cpu = (random >> 32) as u32 % 2;
    let address = PAGES[(random >> 36) as usize % 5];
    let number = (random >> 40) % 3;
    match (random >> 44) % 8 {
        0 | 1 => Event::Invlpg { cpu, address },
        2 => Event::Invpcid {
            cpu,
            kind: 2,
            pcid: 0,
            address: 0,
        },
        3 => Event::Invpcid {
            cpu,
            kind: (random >> 48) % 4,
            pcid: number,
            address,
        },
        4 => Event::Set {
            cpu,
            change: RegChange::Cr4(CR4 ^ ((random >> 48) % 2 * 0x80)),
        },
        5 | 6 => Event::Set {
            cpu,
            change: RegChange::Cr3(0x1000 | number | (random >> 48) % 2 * (1 << 63)),
        },
        _ => Event::Point { all: true },
    }
}

/// Whether a held translation takes an address as this page does.
fn is_of_page(entry: &CacheEntry, page: &Page, address: u64) -> bool {
    entry.level() == page.level
        && entry.frame() + address % span(entry.level()) == page.frame
        && entry.bits() == page.bits
        && entry.key() == page.key
}

/// Asserts that each present translation is among those held, and counts the others.
fn count_others(rt: &impl Abort, alloc: Global, moment: &Moment, cpu: u32) -> Result<u64, Fail> {
    let known = regs(moment, cpu).ok_or("no processor")?;
    let machine = machine(moment);
    let mut others = 0u64;
    for page in PAGES {
        let held = held_entries(alloc, moment, cpu, pcid(&known), page)?;
        let end = walk(
            moment,
            &settings(&known, &machine),
            root(&known, &machine),
            page,
        );
        let mut found = false;
        for entry in &held {
            let mut is_present = false;
            if let Walk::Mapped(mapped) = end {
                is_present = is_of_page(entry, &mapped, page);
            }
            found = found || (entry.is_leaf() && is_present);
            if entry.is_leaf() && !is_present {
                others = others.wrapping_add(1);
            }
        }
        assert_eq!(rt; found, matches!(end, Walk::Mapped(_)), "at {page:#x}");
    }
    Ok(others)
}

/// How many entries a processor holds under PCIDs that aren't its current one.
fn count_elsewhere(alloc: Global, moment: &Moment, cpu: u32) -> Result<u64, Fail> {
    let known = regs(moment, cpu).ok_or("no processor")?;
    let mut elsewhere = 0u64;
    for under in &visited_pcids(alloc, moment, cpu)? {
        for page in PAGES {
            if *under != pcid(&known) {
                let held = held_entries(alloc, moment, cpu, *under, page)?;
                elsewhere = elsewhere.wrapping_add(held.len() as u64);
            }
        }
    }
    Ok(elsewhere)
}

/// Asserts what an event has to leave: INVPCID of type 2 only what is made since, and INVLPG nothing stale of its page.
fn check_after(
    rt: &impl Abort,
    alloc: Global,
    moment: &Moment,
    removal: &Removal,
) -> Result<(), Fail> {
    match *removal {
        Removal::Everything(cpu) => {
            assert_eq!(rt; count_others(rt, alloc, moment, cpu)?, 0);
            assert_eq!(rt; count_elsewhere(alloc, moment, cpu)?, 0);
        }
        Removal::Page(cpu, page) => {
            let known = regs(moment, cpu).ok_or("no processor")?;
            let left = stale_translations(alloc, moment, cpu, pcid(&known), page)?;
            assert!(rt; left.is_empty(), "at {page:#x}");
        }
        Removal::Other => {}
    }
    Ok(())
}

/// Asserts that what a point finds is the first page at which a pair has a stale translation, and counts the findings.
fn count_findings(rt: &impl Abort, alloc: Global, moment: &Moment) -> Result<u64, Fail> {
    let findings = findings_among(alloc, moment, true, &PAGES)?;
    for found in &findings {
        for page in PAGES {
            let here = stale_translations(alloc, moment, found.cpu, found.pcid, page)?;
            assert!(rt; page >= found.page || here.is_empty());
            assert!(rt; page != found.page || !here.is_empty());
        }
    }
    Ok(findings.len() as u64)
}

/// What an event takes at least.
#[derive(Clone, Copy)]
enum Removal {
    Everything(u32),
    Page(u32, u64),
    Other,
}

/// What an event takes at least.
fn removal_of(event: &Event) -> Removal {
    match *event {
        Event::Invpcid { cpu, kind: 2, .. } => Removal::Everything(cpu),
        Event::Invlpg { cpu, address } => Removal::Page(cpu, address),
        _ => Removal::Other,
    }
}

/// The moment after a random event: three of four are writes.
fn after_random(
    rt: &impl Abort,
    alloc: Global,
    moment: Moment,
    random: u64,
) -> Result<Moment, Fail> {
    if random >> 62 != 0 {
        let (at, value) = random_entry(random);
        return Ok(after_write(alloc, moment, at, value)?);
    }
    let event = random_event(random);
    let removal = removal_of(&event);
    let moment = moment_after(alloc, moment, event)?;
    check_after(rt, alloc, &moment, &removal)?;
    Ok(moment)
}

#[test]
fn goes_by_the_manual(rt: HostRuntime) -> Result<(), Fail> {
    let alloc = rt.alloc();
    let mut random = 1;
    let mut stale = 0u64;
    let mut other = 0u64;
    for _ in 0u32..12 {
        let mut moment = first(alloc, Regs { cr4: CR4, ..REGS }, &TABLES)?;
        // Before any event a processor holds what its tables map, and nothing else.
        assert_eq!(rt; count_others(&rt, alloc, &moment, 0)?, 0);
        for _ in 0u32..16 {
            random = next(random);
            moment = after_random(&rt, alloc, moment, random)?;
            other = other.wrapping_add(count_others(&rt, alloc, &moment, 1)?);
        }
        stale = stale.wrapping_add(count_findings(&rt, alloc, &moment)?);
    }
    // Stale translations were met, and held ones that the tables don't map.
    assert!(rt; stale > 20, "{stale}");
    assert!(rt; other > 100, "{other}");
    Ok(())
}
