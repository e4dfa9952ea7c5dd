//! Lists of spaces whose tables have random entries, compared with the definitions' plain reading.

use super::*;
use paging_reference::listings::{are_pages, areas_among};
use paging_reference::physical_memory::{KnownBytes, KnownMemory};
use paging_reference::translations::present_target;
use proc_regs::bit_ranges::bit;
use proc_regs::register_bits::CR4_LA57;
use std::process::Abort;
use test_support::fields::put;

/// A machine without pages of 1 GByte.
const SMALL_MACHINE: Machine = Machine { m: 40, big: false };

/// The slots of a table that have entries.
const SLOTS: [u64; 4] = [0, 1, 2, 511];

/// How many bytes of memory are known. The last entry of the eighth table isn't.
const SIZE: usize = 0x7ff0;

/// CR0.WP; CR4.SMEP, SMAP, PKE with PKS, and LASS.
const WP: u64 = 1 << 16;

const SMEP: u64 = 1 << 20;

const SMAP: u64 = 1 << 21;

const KEYS: u64 = 1 << 22 | 1 << 24;

const LASS: u64 = 1 << 27;

/// The next number of a linear congruence.
fn next(random: u64) -> u64 {
    random
        .wrapping_mul(6_364_136_223_846_793_005)
        .wrapping_add(1_442_695_040_888_963_407)
}

/// A random entry: mostly present, of one of the eight tables or a large page beside them.
fn random_entry(random: u64) -> u64 {
    let present = if random >> 36 & 7 == 0 { 0 } else { 1 };
    let write = if random >> 39 & 3 == 0 { 0 } else { 2 };
    let user = if random >> 41 & 3 == 0 { 0 } else { 4 };
    let xd = if random >> 43 & 7 == 0 { 1 << 63 } else { 0 };
    let key = random >> 46 & 3;
    let frame = if random >> 48 & 15 == 0 {
        0x80 | (random >> 32 & 3) << 21
    } else {
        (random >> 32 & 7) << 12
    };
    frame | present | write | user | xd | key << 59
}

/// Tables from physical address 0 on, with random entries.
fn random_tables(alloc: Global, seed: u64) -> Result<Vec<u8>, AllocError> {
    let mut bytes = vec![in alloc; 0; SIZE]?;
    let mut random = seed;
    for table in 0..8u64 {
        for slot in SLOTS {
            random = next(random);
            let at = table << 12 | slot << 3;
            put(&mut bytes, (at as usize, 8, random_entry(random)));
        }
    }
    Ok(bytes)
}

/// The pages that the entries in these slots may map, by ascending address.
fn candidates(alloc: Global) -> Result<Vec<u64>, AllocError> {
    let mut pages = Vec::new(alloc);
    for top in SLOTS {
        let half = if top < 256 { 0 } else { 0xffff_0000_0000_0000 };
        for third in SLOTS {
            for second in SLOTS {
                for first in 0..512u64 {
                    pages.push(half | top << 39 | third << 30 | second << 21 | first << 12)?;
                }
            }
        }
    }
    Ok(pages)
}

/// The areas of memory by the definitions, over these pages and no others.
fn slow_areas(
    rt: &impl Abort,
    alloc: Global,
    bytes: Vec<u8>,
    regs: &Regs,
    candidates: &[u64],
) -> Result<Vec<Area>, AllocError> {
    let extents = vec![in alloc; KnownBytes { start: 0, bytes }]?;
    let memory = KnownMemory { extents };
    let mut pages = Vec::new(alloc);
    for page in candidates {
        if present_target(&memory, &SMALL_MACHINE, regs, 0x1000, *page).is_some() {
            pages.push(*page)?;
        }
    }
    assert!(rt; are_pages(bit(regs.cr4, CR4_LA57), &pages));
    areas_among(alloc, &memory, &SMALL_MACHINE, regs, &pages)
}

/// Compares one list, and says how many areas it has.
fn compare(
    rt: &impl Abort,
    alloc: Global,
    seed: u64,
    regs: &Regs,
    candidates: &[u64],
) -> Result<usize, AllocError> {
    let bytes = random_tables(alloc, seed)?;
    assert!(rt; !bytes.is_empty() && bytes.len() <= SIZE);
    let segments = Segments::from_vec(vec![in alloc;
        Segment {
            phys: 0,
            bytes: &bytes
        },
    ]?);
    let events = [Event::Machine(SMALL_MACHINE), Event::Cpu(0, *regs), list(0)];
    let (summary, _) = summary_over(alloc, segments, &events)?;
    let areas = slow_areas(rt, alloc, bytes.clone()?, regs, candidates)?;
    let count = areas.len();
    assert!(rt;
        summary.said.last() == Some(&Said::Listed(areas)),
        "seed {seed}"
    );
    Ok(count)
}

#[test]
fn lists_are_those_of_the_definitions(rt: HostRuntime) -> Result<(), Fail> {
    let alloc = rt.alloc();
    let pages = candidates(alloc)?;
    let rows = [
        (REGS.cr0, 0, false),
        (REGS.cr0 - WP, KEYS, false),
        (REGS.cr0, SMEP | SMAP, false),
        (REGS.cr0, SMAP | KEYS, true),
        (REGS.cr0, LASS | SMAP, false),
        (REGS.cr0, LASS | SMEP | KEYS, true),
    ];
    let mut listed = 0u64;
    for seed in 1..13u64 {
        let (cr0, cr4, ac) = rows[(seed % 6) as usize];
        let regs = Regs {
            cr0,
            cr4: REGS.cr4 | cr4,
            ac,
            // Key 1 disables accesses, and key 2 writes; then the other way round.
            pkru: 0x24,
            pkrs: 0x18,
            ..REGS
        };
        listed = listed.wrapping_add(compare(&rt, alloc, next(seed), &regs, &pages)? as u64);
    }
    // Some areas there are.
    assert!(rt; listed > 100, "{listed}");
    Ok(())
}
