//! Held pages, and present tables that were built by hand.

ghost use Rattle.std.specs.Prelude.{◌+◌, ◌%◌, ◌^◌, ◌<◌, ◌≤◌, ◌≡◌, IfSome, IsTrue, ⊤};
ghost use Rattle.std.proofs.Props.{props};
ghost use Rattle.paging_model.specs.LinearAddress.{span as span_of};
ghost use Rattle.present_pages.specs.PresentRanges.{IsPresentRange, IsThere, is_there-prop};
ghost use Rattle.present_pages.specs.StalePages.{IsHeldPage, IsPageIn};

use super::*;
use audit_laws::stale_pages::StalePage;
use elf_core::{Segment, Segments};
use paging_model::access_sets::Rights;
use paging_model::entries::Bits;
use paging_model::registers::{Regs, Settings};
use phys_view::{Ledger, Reader, Steps, View, answer_and_steps};
use std::alloc::{AllocError, Global};
use std::process::Abort;
use std::test::Fail;
use test_support::fields::put;
use test_support::registers::REGS;
use walk_levels::span;

/// The bytes of memory, from physical address 0 on.
const SIZE: usize = 0x4000;

/// The physical address of the table of a test.
const TABLE: u64 = 0x1000;

/// CR4.SMAP.
const SMAP: u64 = 1 << 21;

/// CR4.LASS.
const LASS: u64 = 1 << 27;

/// The first address of the upper half under 4-level paging.
const HIGH: u64 = 0xffff_8000_0000_0000;

/// A physical width of 40, with 1-GByte pages, 4 levels and execute-disable.
const SETTINGS: Settings = Settings {
    m: 40,
    big: true,
    la57: false,
    nxe: true,
};

/// Bits that refuse nothing.
const OPEN: Bits = Bits {
    write: true,
    user: true,
    xd: false,
};

/// Bits of a page that the supervisor may write.
const SUPERVISOR: Bits = Bits {
    write: true,
    user: false,
    xd: false,
};

/// Bits of a page that nobody may write while CR0.WP is 1.
const READ_ONLY: Bits = Bits {
    write: false,
    user: true,
    xd: false,
};

/// The registers with these bits of CR4 too.
fn with(cr4: u64) -> Regs {
    Regs {
        cr4: REGS.cr4 | cr4,
        ..REGS
    }
}

/// A held page of a level, of key 0.
fn held_page(level: u8, frame: u64, bits: Bits) -> HeldPage {
    HeldPage {
        level,
        frame,
        bits,
        key: 0,
    }
}

/// A present page of key 0.
fn present(frame: u64, bits: Bits) -> PresentPage {
    PresentPage {
        frame,
        bits,
        key: 0,
    }
}

/// A page at which a held page exceeds the tables.
fn stale(page: u64, frame: u64, excess: u8) -> Option<StalePage> {
    Some(StalePage {
        page,
        frame,
        excess: Rights::of_number(excess),
    })
}

/// Memory that is 0 but for these entries.
fn memory(alloc: Global, entries: &[(usize, u64)]) -> Result<Vec<u8>, AllocError> {
    let mut bytes = vec![in alloc; 0; SIZE]?;
    for &(at, value) in entries {
        put(&mut bytes, (at, 8, value));
    }
    Ok(bytes)
}

/// Bytes of memory from physical address 0 on.
fn segments<'a>(
    rt: &impl Abort,
    alloc: Global,
    bytes: &'a [u8],
) -> Result<Segments<'a>, AllocError> {
    assert!(rt; !bytes.is_empty() && bytes.len() <= SIZE);
    Ok(Segments::from_vec(vec![in alloc; Segment { phys: 0, bytes }]?))
}

/// The reading of an entry of level 2.
struct Slot<'a> {
    alloc: Global,
    segments: Segments<'a>,
    table: u64,
    bits: Bits,
    i: u64,
    ghost aligned: { table % 4096 ≡ 0 },
    ghost below: { table < 2 ^ 52 },
    ghost slot: { i < 512 },
}

impl<'a> Reader for Slot<'a> {
    type Answer = There;

    ghost gives = { λ _ _. ⊤ };

    fn read<L: Ledger>(self, steps: &mut Steps<L>) -> There {
        let Slot {
            alloc,
            segments,
            table,
            bits,
            i,
        } = self;
        let view: View<'_, L> = View::new(alloc, segments);
        slot_there(&view, &SETTINGS, 2, table, bits, i * 0x20_0000, steps)
    }
}

/// What the entry of level 2 makes of its range, and in how many steps.
fn there_and_steps(
    rt: &impl Abort,
    alloc: Global,
    bytes: &[u8],
    slot: (u64, Bits, u64),
) -> Result<(There, u64), AllocError> {
    let (table, bits, i) = slot;
    assert!(rt; table % 4096 == 0 && table < 1 << 52 && i < 512);
    let segments = segments(rt, alloc, bytes)?;
    Ok(answer_and_steps(Slot {
        alloc,
        segments,
        table,
        bits,
        i,
    }))
}

/// The search of a range.
struct Search<'a> {
    alloc: Global,
    segments: Segments<'a>,
    regs: &'a Regs,
    held: HeldPage,
    range: PresentRange,
    from: u64,
    ghost is_held: { IsHeldPage held },
    ghost is_range: { IsPresentRange range } by { Prim.hlevel (props, is_there-prop) },
    ghost within: { range.level ≤ held.level },
    ghost is_from: { IsPageIn range.first (range.first + span_of range.level) from },
}

impl<'a> Reader for Search<'a> {
    type Answer = Option<StalePage>;

    ghost gives = { λ _ _. ⊤ };

    fn read<L: Ledger>(self, steps: &mut Steps<L>) -> Option<StalePage> {
        let Search {
            alloc,
            segments,
            regs,
            held,
            range,
            from,
        } = self;
        let view: View<'_, L> = View::new(alloc, segments);
        first_stale(&view, regs, &SETTINGS, &held, range, from, steps)
    }
}

/// Whether a held page is one.
fn is_held(held: &HeldPage) -> bool
    ensures { IsTrue result → IsHeldPage held.now }
{
    if !(1..=3).contains(&held.level) {
        return false;
    }
    held.frame <= (1 << 52) - span(held.level) && held.key < 16
}

/// Whether tables may make that of a range of a level.
fn is_there(level: u8, there: &There) -> bool
    requires least { 1 ≤ level }
    requires most { level ≤ 3 }
    ensures { IsTrue result → IsThere level there.now }
{
    match *there {
        There::Nothing => true,
        There::Page(page) => page.frame <= (1 << 52) - span(level) && page.key < 16,
        There::Table { frame, .. } => 2 <= level && frame % 4096 == 0 && frame < 1 << 52,
    }
}

/// Whether a range is one, of a level from 1 to 3.
fn is_range(range: &PresentRange) -> bool
    ensures range { IsTrue result → IsPresentRange range.now }
    ensures level { IsTrue result → range.now.level ≤ 3 }
{
    if !(1..=3).contains(&range.level) {
        return false;
    }
    range.first % span(range.level) == 0
        && range.first <= u64::MAX - (span(range.level) - 1)
        && is_there(range.level, &range.there)
}

/// Whether an address is that of a page of a range.
fn is_from(range: &PresentRange, from: u64) -> bool
    requires least { 1 ≤ range.now.level }
    requires most { range.now.level ≤ 3 }
    ensures { IsTrue result
        → IsPageIn range.now.first (range.now.first + span_of range.now.level) from }
{
    range.first <= from && from - range.first < span(range.level) && from % 4096 == 0
}

/// Whether the key of a page is one, if there is a page.
fn is_key(present: &Option<PresentPage>) -> bool
    ensures { IsTrue result → IfSome present.now (λ page. page.key < 16) }
{
    match *present {
        Some(page) => page.key < 16,
        None => true,
    }
}

/// The excess of a held page at one page.
fn excess(
    rt: &impl Abort,
    held: HeldPage,
    present: Option<PresentPage>,
    page: u64,
) -> Option<StalePage> {
    assert!(rt; is_held(&held) && is_key(&present));
    excess_at(&REGS, &held, present, page)
}

/// The first page of a range at which a held page exceeds the tables, and in how many steps it is found.
fn found_and_steps(
    rt: &impl Abort,
    alloc: Global,
    bytes: &[u8],
    regs: &Regs,
    held: HeldPage,
    range: PresentRange,
    from: u64,
) -> Result<(Option<StalePage>, u64), AllocError> {
    assert!(rt; is_held(&held));
    assert!(rt; is_range(&range));
    assert!(rt; is_from(&range, from) && range.level <= held.level);
    let segments = segments(rt, alloc, bytes)?;
    Ok(answer_and_steps(Search {
        alloc,
        segments,
        regs,
        held,
        range,
        from,
    }))
}

#[test]
fn an_entry_makes_nothing_or_a_page_or_a_table_of_its_range(rt: HostRuntime) -> Result<(), Fail> {
    let alloc = rt.alloc();
    let entries = [
        (0x1008, 1 << 45 | 0x7),
        (0x1010, 5 << 59 | 0x20_00e5),
        (0x1018, 0x3007),
    ];
    let bytes = memory(alloc, &entries)?;
    let page = PresentPage {
        key: 5,
        ..present(0x20_0000, READ_ONLY)
    };
    let table = There::Table {
        frame: 0x3000,
        bits: SUPERVISOR,
    };
    let rows = [
        ((TABLE, OPEN, 0), There::Nothing),
        ((TABLE, OPEN, 1), There::Nothing),
        ((TABLE, OPEN, 2), There::Page(page)),
        ((TABLE, SUPERVISOR, 3), table),
        // Its bytes aren't known.
        ((SIZE as u64, OPEN, 2), There::Nothing),
    ];
    for (slot, there) in rows {
        let found = there_and_steps(&rt, alloc, &bytes, slot)?;
        assert_eq!(&rt; found, (there, 1));
    }
    Ok(())
}

#[test]
fn a_page_grants_what_its_bits_permit_and_the_address_lets_through(rt: HostRuntime) {
    let rows = [
        (REGS, OPEN, 0x4000, 0xff),
        (REGS, SUPERVISOR, 0x4000, 0xf8),
        (REGS, READ_ONLY, 0x4000, 0x6d),
        (with(LASS), OPEN, 0x4000, 0xdf),
        (with(LASS), OPEN, HIGH, 0xf8),
        (with(LASS | SMAP), SUPERVISOR, 0x4000, 0),
    ];
    for (regs, bits, address, number) in rows {
        let found = rights_at(&regs, bits, 0, address);
        assert_eq!(&rt; found.number(), number, "{address:#x}");
    }
}

#[test]
fn the_excess_at_a_page_is_what_the_present_page_lacks(rt: HostRuntime) {
    let large = held_page(2, 0x20_0000, OPEN);
    let rows = [
        (None, stale(0x40_3000, 0x20_3000, 0xff)),
        (
            Some(present(0x20_0000, OPEN)),
            stale(0x40_3000, 0x20_3000, 0xff),
        ),
        (
            Some(present(0x20_3000, READ_ONLY)),
            stale(0x40_3000, 0x20_3000, 0x92),
        ),
        (Some(present(0x20_3000, OPEN)), None),
    ];
    for (page, found) in rows {
        assert_eq!(&rt; excess(&rt, large, page, 0x40_3000), found);
    }
}

/// A page table at `TABLE` that maps its range to 2 MBytes from a frame on, but for these entries.
fn page_table(alloc: Global, frame: u64, others: &[(usize, u64)]) -> Result<Vec<u8>, AllocError>
    requires { frame < 2 ^ 52 }
{
    let mut bytes = memory(alloc, &[])?;
    for i in 0..512 {
        put(
            &mut bytes,
            (0x1000 + 8 * i, 8, (frame + 4096 * i as u64) | 0x7),
        );
    }
    for &(i, value) in others {
        put(&mut bytes, (0x1000 + 8 * (i % 512), 8, value));
    }
    Ok(bytes)
}

#[test]
fn a_large_page_is_stale_where_an_entry_of_the_table_differs(rt: HostRuntime) -> Result<(), Fail> {
    let alloc = rt.alloc();
    let large = held_page(2, 0x20_0000, OPEN);
    let range = PresentRange {
        level: 2,
        first: 0x40_0000,
        there: There::Table {
            frame: TABLE,
            bits: OPEN,
        },
    };
    // Entry 300 is read-only, and entry 400 maps another frame.
    let others = [(300, 0x32_c005), (400, 0x20_0007)];
    let bytes = page_table(alloc, 0x20_0000, &others)?;
    let rows = [
        (0x40_0000, stale(0x52_c000, 0x32_c000, 0x92), 301),
        (0x52_c000, stale(0x52_c000, 0x32_c000, 0x92), 1),
        (0x52_d000, stale(0x59_0000, 0x39_0000, 0xff), 100),
        (0x59_1000, None, 111),
    ];
    for (from, found, steps) in rows {
        let searched = found_and_steps(&rt, alloc, &bytes, &REGS, large, range, from)?;
        assert_eq!(&rt; searched, (found, steps), "{from:#x}");
    }
    Ok(())
}

#[test]
fn a_1_gbyte_page_is_compared_through_two_levels_of_tables(rt: HostRuntime) -> Result<(), Fail> {
    let alloc = rt.alloc();
    let large = held_page(3, 0x4000_0000, OPEN);
    let range = PresentRange {
        level: 3,
        first: 0x8000_0000,
        there: There::Table {
            frame: 0x2000,
            bits: OPEN,
        },
    };
    // The page directory maps its first 2 MBytes by a page, and the next by a table without its first entry.
    let mut bytes = page_table(alloc, 0x4020_0000, &[(0, 0)])?;
    put(&mut bytes, (0x2000, 8, 0x4000_0087));
    put(&mut bytes, (0x2008, 8, 0x1007));
    let rows = [
        (0x8000_0000, stale(0x8020_0000, 0x4020_0000, 0xff), 3),
        (0x8020_1000, stale(0x8040_0000, 0x4040_0000, 0xff), 513),
    ];
    for (from, found, steps) in rows {
        let searched = found_and_steps(&rt, alloc, &bytes, &REGS, large, range, from)?;
        assert_eq!(&rt; searched, (found, steps), "{from:#x}");
    }
    Ok(())
}

#[test]
fn no_table_is_read_below_a_present_page(rt: HostRuntime) -> Result<(), Fail> {
    let alloc = rt.alloc();
    let bytes = memory(alloc, &[])?;
    // The third 4-KByte page of a present 1-GByte page, and another one.
    let rows = [
        (There::Page(present(0x4000_2000, OPEN)), None),
        (
            There::Page(present(0x4000_3000, OPEN)),
            stale(0x8000_2000, 0x4000_2000, 0xff),
        ),
        (There::Nothing, stale(0x8000_2000, 0x4000_2000, 0xff)),
    ];
    for (there, found) in rows {
        let range = PresentRange {
            level: 1,
            first: 0x8000_2000,
            there,
        };
        let small = held_page(1, 0x4000_2000, OPEN);
        let searched = found_and_steps(&rt, alloc, &bytes, &REGS, small, range, range.first)?;
        assert_eq!(&rt; searched, (found, 0));
    }
    Ok(())
}

#[test]
fn accesses_that_lass_keeps_from_a_page_are_in_no_excess(rt: HostRuntime) -> Result<(), Fail> {
    let alloc = rt.alloc();
    let bytes = memory(alloc, &[])?;
    let user = held_page(1, 0x5000, OPEN);
    let supervisor = held_page(1, 0x5000, SUPERVISOR);
    let there = There::Page(present(0x5000, SUPERVISOR));
    let rows = [
        (REGS, user, HIGH, there, stale(HIGH, 0x5000, 0x7)),
        (with(LASS), user, HIGH, there, None),
        (with(LASS), user, 0x4000, there, stale(0x4000, 0x5000, 0x7)),
        // A page that isn't mapped exceeds the tables even where it grants nothing.
        (
            with(LASS | SMAP),
            supervisor,
            0x4000,
            There::Nothing,
            stale(0x4000, 0x5000, 0),
        ),
    ];
    for (regs, page, first, there, found) in rows {
        let range = PresentRange {
            level: 1,
            first,
            there,
        };
        let searched = found_and_steps(&rt, alloc, &bytes, &regs, page, range, first)?;
        assert_eq!(&rt; searched, (found, 0));
    }
    Ok(())
}
