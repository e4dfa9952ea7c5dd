//! Regions that were worked out by hand.

use super::*;
use std::test::Fail;
use test_support::fields::put;

/// A PML4 at 0x1000, a PDPT at 0x2000, a PD at 0x3000 and a PT at 0x4000, which maps two pages. A PML5 at 0x7000.
const TABLES: [(usize, u64); 6] = [
    (0x1000, 0x2007),
    (0x2000, 0x3007),
    (0x3000, 0x4007),
    (0x4000, 0x5007),
    (0x4008, 0x6005),
    (0x7000, 0x1007),
];

const ALL: Bits = Bits {
    write: true,
    user: true,
    xd: false,
};

const READ: Bits = Bits {
    write: false,
    user: true,
    xd: false,
};

/// The regions of these tables.
const TWO: [Region; 2] = [
    Region {
        first: 0,
        last: 0xfff,
        frame: 0x5000,
        bits: ALL,
        key: 0,
    },
    Region {
        first: 0x1000,
        last: 0x1fff,
        frame: 0x6000,
        bits: READ,
        key: 0,
    },
];

/// A region of key 0.
fn region(first: u64, last: u64, frame: u64, bits: Bits) -> Region {
    Region {
        first,
        last,
        frame,
        bits,
        key: 0,
    }
}

/// Memory that is 0 but for the tables and these entries.
fn tables(alloc: Global, entries: &[(usize, u64)]) -> Result<Vec<u8>, AllocError> {
    let mut bytes = vec![in alloc; 0; SIZE]?;
    for (at, value) in TABLES {
        put(&mut bytes, (at, 8, value));
    }
    for &(at, value) in entries {
        put(&mut bytes, (at, 8, value));
    }
    Ok(bytes)
}

/// Asserts the regions of a space, its key, and the steps in which it is built.
fn check(
    rt: &impl Abort,
    alloc: Global,
    memory: Memory<'_>,
    key: SpaceKey,
    regions: &[Region],
    steps: u64,
) -> Result<(), AllocError> {
    let (built, counted) = build(rt, alloc, memory, key)?;
    match built {
        Ok(space) => {
            assert!(rt; space.regions().list() == regions);
            assert!(rt; *space.key() == key);
        }
        Err(fault) => panic!(rt; "{fault}"),
    }
    assert_eq!(rt; counted, steps);
    Ok(())
}

/// The same over the tables and these entries, all in one segment.
fn check_tables(
    rt: &impl Abort,
    alloc: Global,
    entries: &[(usize, u64)],
    key: SpaceKey,
    regions: &[Region],
    steps: u64,
) -> Result<(), AllocError> {
    let bytes = tables(alloc, entries)?;
    let memory = Memory {
        bytes: &bytes,
        cut: 1,
        writes: &[],
    };
    check(rt, alloc, memory, key, regions, steps)
}

#[test]
fn four_levels_and_five(rt: HostRuntime) -> Result<(), Fail> {
    let alloc = rt.alloc();
    check_tables(&rt, alloc, &[], key(0x1000, false), &TWO, 4 * 512)?;
    check_tables(&rt, alloc, &[], key(0x7000, true), &TWO, 5 * 512)?;
    Ok(())
}

#[test]
fn bits_are_joined_over_all_levels(rt: HostRuntime) -> Result<(), Fail> {
    let entries = [
        (0x2000, 0x8000_0000_0000_3003),
        (0x3000, 0x4005),
        (0x4000, 0x1800_0000_0000_5007),
    ];
    let none = Bits {
        write: false,
        user: false,
        xd: true,
    };
    let first = Region {
        key: 3,
        ..region(0, 0xfff, 0x5000, none)
    };
    let regions = [first, region(0x1000, 0x1fff, 0x6000, none)];
    check_tables(
        &rt,
        rt.alloc(),
        &entries,
        key(0x1000, false),
        &regions,
        4 * 512,
    )?;
    Ok(())
}

#[test]
fn a_large_page_and_a_small_one_make_one(rt: HostRuntime) -> Result<(), Fail> {
    let entries = [(0x3000, 0x40_00e7), (0x3008, 0x4007), (0x4000, 0x60_0007)];
    let regions = [
        region(0, 0x20_0fff, 0x40_0000, ALL),
        region(0x20_1000, 0x20_1fff, 0x6000, READ),
    ];
    check_tables(
        &rt,
        rt.alloc(),
        &entries,
        key(0x1000, false),
        &regions,
        4 * 512,
    )?;
    Ok(())
}

#[test]
fn a_table_that_references_itself_has_a_use_at_each_level(rt: HostRuntime) -> Result<(), Fail> {
    let regions = [
        TWO[0],
        TWO[1],
        region(0xffff_8000_0000_0000, 0xffff_8000_0000_0fff, 0x4000, ALL),
        region(0xffff_8040_0000_0000, 0xffff_8040_0000_0fff, 0x3000, ALL),
        region(0xffff_8040_2000_0000, 0xffff_8040_2000_0fff, 0x2000, ALL),
        region(0xffff_8040_2010_0000, 0xffff_8040_2010_0fff, 0x1000, ALL),
    ];
    let entries = [(0x1800, 0x1007)];
    check_tables(
        &rt,
        rt.alloc(),
        &entries,
        key(0x1000, false),
        &regions,
        10 * 512,
    )?;
    Ok(())
}

#[test]
fn the_last_pages_of_both_halves(rt: HostRuntime) -> Result<(), Fail> {
    let entries = [
        (0x1000, 0),
        (0x17f8, 0x2007),
        (0x1ff8, 0x2007),
        (0x2000, 0),
        (0x2ff8, 0x3007),
        (0x3000, 0),
        (0x3ff8, 0x4007),
        (0x4000, 0),
        (0x4008, 0),
        (0x4ff8, 0x5007),
    ];
    let regions = [
        region(0x7fff_ffff_f000, 0x7fff_ffff_ffff, 0x5000, ALL),
        region(0xffff_ffff_ffff_f000, u64::MAX, 0x5000, ALL),
    ];
    check_tables(
        &rt,
        rt.alloc(),
        &entries,
        key(0x1000, false),
        &regions,
        7 * 512,
    )?;
    Ok(())
}

#[test]
fn memory_that_is_unknown_or_in_pieces(rt: HostRuntime) -> Result<(), Fail> {
    let alloc = rt.alloc();
    let bytes = tables(alloc, &[])?;
    // The first entry of the last table stands in both segments.
    let pieces = Memory {
        bytes: &bytes,
        cut: 0x4004,
        writes: &[],
    };
    check(&rt, alloc, pieces, key(0x1000, false), &TWO, 4 * 512)?;
    // Its second entry isn't known.
    let known = bytes.len().min(0x400f);
    let cut_off = Memory {
        bytes: &bytes[..known],
        ..pieces
    };
    check(&rt, alloc, cut_off, key(0x1000, false), &TWO[..1], 4 * 512)?;
    check(&rt, alloc, pieces, key(0x9000, false), &[], 512)?;
    Ok(())
}

#[test]
fn a_written_table(rt: HostRuntime) -> Result<(), Fail> {
    let alloc = rt.alloc();
    let bytes = tables(alloc, &[])?;
    let memory = Memory {
        bytes: &bytes,
        cut: 0x4004,
        writes: &[(0x4008, 0x6007)],
    };
    let one = [region(0, 0x1fff, 0x5000, ALL)];
    check(&rt, alloc, memory, key(0x1000, false), &one, 4 * 512)?;
    Ok(())
}
