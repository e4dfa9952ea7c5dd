//! The small tables of the worked examples, and tables with random entries.

ghost use Rattle.std.specs.Prelude.{◌%◌, ◌^◌, ◌<◌};

use crate::listings::{are_pages, areas_among, is_page};
use crate::physical_memory::{KnownBytes, KnownMemory};
use crate::table_uses::{is_prefix, leaves_among, uses_among};
use crate::translations::present_target;
use crate::walking::walk;
use paging_model::access_sets::Rights;
use paging_model::entries::Bits;
use paging_model::registers::{Machine, Settings};
use paging_model::spaces::{Area, TableUse};
use paging_model::walks::{Page, Walk};
use proc_regs::bit_ranges::bit;
use proc_regs::register_bits::CR4_LA57;
use proc_regs::settings;
use std::alloc::{AllocError, Global};
use std::test::Fail;
use test_support::fields::put;
use test_support::registers::REGS;

/// The machine with a physical width of 40 and 1-GByte pages.
fn machine() -> Machine {
    Machine::new(40, true)
}

/// Everything is allowed.
const ALL: Bits = Bits {
    write: true,
    user: true,
    xd: false,
};

/// A PML4 at 0x1000, a PDPT at 0x2000, a PD at 0x3000 and a PT at 0x4000, of these entries.
fn memory(alloc: Global, entries: &[(usize, u64)]) -> Result<KnownMemory, AllocError> {
    let mut bytes = vec![in alloc; 0; 0x5000]?;
    for &(at, value) in entries {
        put(&mut bytes, (at, 8, value));
    }
    let known = KnownBytes { start: 0, bytes };
    let extents = vec![in alloc; known]?;
    Ok(KnownMemory { extents })
}

/// The entries of the worked examples: the page 0x0 at 0x5000, and the page 0x1000, without writes, at 0x6000.
const ENTRIES: [(usize, u64); 5] = [
    (0x1000, 0x2007),
    (0x2000, 0x3007),
    (0x3000, 0x4007),
    (0x4000, 0x5007),
    (0x4008, 0x6005),
];

/// The rights of the pages of the worked examples: all, and all but the writes.
const RIGHTS: [u8; 2] = [255, 109];

/// An area with these bytes, this frame and the rights of a number.
fn area(first: u64, last: u64, frame: u64, rights: u8) -> Area {
    Area {
        first,
        last,
        frame,
        rights: Rights::of_number(rights),
    }
}

#[test]
fn walks_the_small_tables(rt: HostRuntime) -> Result<(), Fail> {
    let memory = memory(rt.alloc(), &ENTRIES)?;
    let settings = settings(&REGS, &machine());
    let page = Page {
        frame: 0x6000,
        level: 1,
        bits: Bits {
            write: false,
            ..ALL
        },
        key: 0,
        global: false,
    };
    assert_eq!(rt;
        walk(&memory, &settings, 0x1000, 0x1234),
        Walk::Mapped(page)
    );
    assert_eq!(rt; walk(&memory, &settings, 0x1000, 0x2000), Walk::Absent(1));
    assert_eq!(rt; walk(&memory, &settings, 0x7000, 0), Walk::Unknown(4));
    for (page, frame, rights) in [(0, 0x5000, RIGHTS[0]), (0x1000, 0x6000, RIGHTS[1])] {
        let target = present_target(&memory, &machine(), &REGS, 0x1000, page).ok_or("not mapped")?;
        assert_eq!(rt; target.frame, frame);
        assert_eq!(rt; target.rights.number(), rights);
    }
    Ok(())
}

#[test]
fn lists_areas(rt: HostRuntime) -> Result<(), Fail> {
    let pages = [0, 0x1000, 0x2000];
    assert!(rt; are_pages(false, &pages));
    assert!(rt; !are_pages(false, &[0x1000, 0]));
    assert!(rt; !is_page(false, 0x8000_0000_0000));
    assert!(rt; is_page(true, 0x8000_0000_0000));
    // Other rights, other frames, one area, and one page: the number of areas, and the last byte of the first.
    let rows = [
        (0x6005, 2, 0xfff),
        (0x7007, 2, 0xfff),
        (0x6007, 1, 0x1fff),
        (0, 1, 0xfff),
    ];
    for (second, count, last) in rows {
        let mut entries = ENTRIES;
        entries[4] = (0x4008, second);
        let memory = memory(rt.alloc(), &entries)?;
        assert!(rt; are_pages(bit(REGS.cr4, CR4_LA57), &pages));
        let areas = areas_among(rt.alloc(), &memory, &machine(), &REGS, &pages)?;
        assert_eq!(rt; areas.len(), count, "{second:#x}");
        let found = areas.first().ok_or("no area")?;
        assert_eq!(rt; *found, area(0, last, 0x5000, RIGHTS[0]), "{second:#x}");
        if count == 2 {
            let found = areas.last().ok_or("no area")?;
            assert_eq!(rt; found.first, 0x1000);
            assert_eq!(rt; found.frame, second & 0xf000);
        }
    }
    Ok(())
}

#[test]
fn lists_tables_and_leaves(rt: HostRuntime) -> Result<(), Fail> {
    let memory = memory(rt.alloc(), &ENTRIES)?;
    let settings = settings(&REGS, &machine());
    assert!(rt; is_prefix(&settings, 2, 0x20_0000));
    let uses = uses_among(rt.alloc(), &memory, &settings, 0x1000, &[0, 0x1000])?;
    let frames = [(1, 0x4000), (2, 0x3000), (3, 0x2000), (4, 0x1000)];
    assert_eq!(rt; uses.len(), frames.len());
    for (table, (level, frame)) in uses.iter().zip(frames) {
        let want = TableUse {
            level,
            prefix: 0,
            frame,
            bits: ALL,
        };
        assert_eq!(rt; *table, want);
    }
    let leaves = leaves_among(
        rt.alloc(),
        &memory,
        &settings,
        0x1000,
        &[0, 0x800, 0x1000, 0x2000],
    )?;
    assert_eq!(rt; leaves.len(), 2);
    for (leaf, prefix) in leaves.iter().zip([0, 0x1000]) {
        assert_eq!(rt; leaf.level(), 1);
        assert_eq!(rt; leaf.prefix(), prefix);
    }
    Ok(())
}

/// The next number of a linear congruence.
fn next(random: u64) -> u64 {
    random
        .wrapping_mul(6_364_136_223_846_793_005)
        .wrapping_add(1_442_695_040_888_963_407)
}

/// A random entry: mostly present and of a frame near the tables, and seldom without R/W or of a large page.
fn random_entry(random: u64) -> u64 {
    let frame = (random >> 32) % 8 * 0x1000;
    let present = if random >> 40 & 7 == 0 { 0 } else { 5 };
    let write = if random >> 43 & 3 == 0 { 0 } else { 2 };
    let large = if random >> 46 & 7 == 0 { 0x80 } else { 0 };
    frame | present | write | large
}

/// The areas of random tables have a page for each that is mapped, and each leaf is mapped.
#[test]
fn lists_random_tables(rt: HostRuntime) -> Result<(), Fail> {
    let alloc = rt.alloc();
    let settings = settings(&REGS, &machine());
    let mut pages = Vec::new(alloc);
    for i in 0..48u64 {
        pages.push(i * 0x1000)?;
    }
    let mut random = 1;
    let mut joined = 0u64;
    for _ in 0u32..20 {
        let mut bytes = vec![in alloc; 0; 0x9000]?;
        for entry in bytes.chunks_exact_mut(8) {
            random = next(random);
            put(entry, (0, 8, random_entry(random)));
        }
        let extents = vec![in alloc; KnownBytes { start: 0, bytes }]?;
        let memory = KnownMemory { extents };
        assert!(rt; are_pages(bit(REGS.cr4, CR4_LA57), &pages));
        let areas = areas_among(alloc, &memory, &machine(), &REGS, &pages)?;
        let mut listed = 0u64;
        for area in &areas {
            listed = listed
                .wrapping_add(area.last.wrapping_sub(area.first) / 0x1000)
                .wrapping_add(1);
        }
        let mut mapped = 0u64;
        for page in &pages {
            if present_target(&memory, &machine(), &REGS, 0x1000, *page).is_some() {
                mapped = mapped.wrapping_add(1);
            }
        }
        assert_eq!(rt; listed, mapped);
        joined = joined.wrapping_add(mapped.wrapping_sub(areas.len() as u64));
        for leaf in &leaves_among(alloc, &memory, &settings, 0x1000, &pages)? {
            let end = walk(&memory, &settings, 0x1000, leaf.prefix());
            let Walk::Mapped(page) = end else {
                return Err(Fail::new("a leaf isn't mapped"));
            };
            assert_eq!(rt; page.level, leaf.level());
        }
    }
    // Some areas have several pages.
    assert!(rt; joined > 10, "{joined}");
    Ok(())
}
