//! Walks whose ends were worked out by hand.

use super::*;
use std::test::Fail;
use test_support::fields::put;

/// A PML4 at 0x1000, a PDPT at 0x2000, a PD at 0x3000 and a PT at 0x4000, which maps two pages. A PML5 at 0x7000.
const TABLES: [(usize, u64); 6] = [
    (0x1000, 0x2007),
    (0x2000, 0x3007),
    (0x3000, 0x4007),
    (0x4000, 0x5007),
    (0x4008, 0x6005),
    (0x7000, 0x1007),
];

/// A root, further entries, an address, how its walk ends, and in how many steps.
type Row<'a> = (u64, &'a [(usize, u64)], u64, Walk, u64);

/// Memory that is 0 but for the tables and these entries.
fn memory(alloc: Global, entries: &[(usize, u64)]) -> Result<Vec<u8>, AllocError> {
    let mut bytes = vec![in alloc; 0; SIZE]?;
    for (at, value) in TABLES {
        put(&mut bytes, (at, 8, value));
    }
    for &(at, value) in entries {
        put(&mut bytes, (at, 8, value));
    }
    Ok(bytes)
}

/// Asserts how walks end, and in how many steps.
fn check(
    rt: &impl Abort,
    alloc: Global,
    settings: &Settings,
    rows: &[Row<'_>],
) -> Result<(), AllocError> {
    for &(root, entries, address, end, steps) in rows {
        let bytes = memory(alloc, entries)?;
        let walked = walk_and_steps(rt, alloc, &bytes, settings, root, address)?;
        assert_eq!(rt; walked, (end, steps), "{address:#x}");
    }
    Ok(())
}

/// Joined bits.
fn bits(write: bool, user: bool, xd: bool) -> Bits {
    Bits { write, user, xd }
}

/// A page with the key 0 that isn't global.
fn page(frame: u64, level: u8, bits: Bits) -> Walk {
    Walk::Mapped(Page {
        frame,
        level,
        bits,
        key: 0,
        global: false,
    })
}

#[test]
fn four_levels(rt: HostRuntime) -> Result<(), Fail> {
    let all = bits(true, true, false);
    let rows: [Row<'_>; 9] = [
        (0x1000, &[], 0x123, page(0x5000, 1, all), 4),
        (
            0x1000,
            &[],
            0x1234,
            page(0x6000, 1, bits(false, true, false)),
            4,
        ),
        (0x1000, &[], 0x2000, Walk::Absent(1), 4),
        (0x1000, &[], 0x20_0000, Walk::Absent(2), 3),
        (0x1000, &[], 0x4000_0000, Walk::Absent(3), 2),
        (0x1000, &[], 0x80_0000_0000, Walk::Absent(4), 1),
        // Bits above 47 select nothing.
        (0x1000, &[], 0x1_0000_0000_0123, page(0x5000, 1, all), 4),
        // A different entry of each table.
        (
            0x1000,
            &[
                (0x1008, 0x2007),
                (0x2010, 0x3007),
                (0x3018, 0x4007),
                (0x4020, 0x9007),
            ],
            0x80_8060_4abc,
            page(0x9000, 1, all),
            4,
        ),
        // A table whose last entry references the table itself serves at each level.
        (
            0x1000,
            &[(0x1ff8, 0x1007)],
            0xffff_ffff_ffff_f000,
            page(0x1000, 1, all),
            4,
        ),
    ];
    check(&rt, rt.alloc(), &settings(true, false, true), &rows)?;
    Ok(())
}

#[test]
fn five_levels(rt: HostRuntime) -> Result<(), Fail> {
    let all = bits(true, true, false);
    let rows: [Row<'_>; 5] = [
        (0x7000, &[], 0x123, page(0x5000, 1, all), 5),
        (0x7000, &[], 0x8000_0000_0000, Walk::Absent(4), 2),
        (0x7000, &[], 0x1_0000_0000_0000, Walk::Absent(5), 1),
        (
            0x7000,
            &[(0x7028, 0x1007)],
            0x5_0000_0000_0123,
            page(0x5000, 1, all),
            5,
        ),
        (0x7000, &[(0x7000, 0x1087)], 0x123, Walk::Reserved(5), 1),
    ];
    check(&rt, rt.alloc(), &settings(true, true, true), &rows)?;
    Ok(())
}

#[test]
fn large_pages(rt: HostRuntime) -> Result<(), Fail> {
    let all = bits(true, true, false);
    let rows: [Row<'_>; 6] = [
        (
            0x1000,
            &[(0x3000, 0x40_10e7)],
            0x1234,
            page(0x40_1000, 2, all),
            3,
        ),
        (
            0x1000,
            &[(0x3000, 0x40_10e7)],
            0x1f_ffff,
            page(0x5f_f000, 2, all),
            3,
        ),
        (
            0x1000,
            &[(0x2000, 0x4000_00e7)],
            0x1234,
            page(0x4000_1000, 3, all),
            2,
        ),
        (
            0x1000,
            &[(0x2000, 0x4000_00e7)],
            0x3fff_ffff,
            page(0x7fff_f000, 3, all),
            2,
        ),
        (0x1000, &[(0x3000, 0x40_20e7)], 0x1234, Walk::Reserved(2), 3),
        (0x1000, &[(0x3000, 0x40_20e6)], 0x1234, Walk::Absent(2), 3),
    ];
    check(&rt, rt.alloc(), &settings(true, false, true), &rows)?;
    let without_big: [Row<'_>; 1] = [(
        0x1000,
        &[(0x2000, 0x4000_00e7)],
        0x1234,
        Walk::Reserved(3),
        2,
    )];
    check(&rt, rt.alloc(), &settings(false, false, true), &without_big)?;
    Ok(())
}

#[test]
fn unknown_tables(rt: HostRuntime) -> Result<(), Fail> {
    let rows: [Row<'_>; 4] = [
        (0x8000, &[], 0x0, Walk::Unknown(4), 1),
        (0x1000, &[(0x1000, 0x8007)], 0x0, Walk::Unknown(3), 2),
        (0x1000, &[(0x2000, 0x8007)], 0x0, Walk::Unknown(2), 3),
        (0x1000, &[(0x3000, 0x8007)], 0x0, Walk::Unknown(1), 4),
    ];
    check(&rt, rt.alloc(), &settings(true, false, true), &rows)?;
    Ok(())
}

#[test]
fn bits_of_all_entries(rt: HostRuntime) -> Result<(), Fail> {
    let rows: [Row<'_>; 4] = [
        // U/S in the leaf alone, then in all entries but one.
        (
            0x1000,
            &[(0x1000, 0x2003), (0x2000, 0x3003), (0x3000, 0x4003)],
            0x0,
            page(0x5000, 1, bits(true, false, false)),
            4,
        ),
        (
            0x1000,
            &[(0x2000, 0x3003)],
            0x0,
            page(0x5000, 1, bits(true, false, false)),
            4,
        ),
        // XD in the top table alone.
        (
            0x1000,
            &[(0x1000, 0x8000_0000_0000_2007)],
            0x0,
            page(0x5000, 1, bits(true, true, true)),
            4,
        ),
        // One bit at each level; the key and G of the leaf alone.
        (
            0x1000,
            &[
                (0x1000, 0x7800_0000_0000_2105),
                (0x2000, 0x8000_0000_0000_3007),
                (0x3000, 0x4003),
                (0x4000, 0x2800_0000_0000_5107),
            ],
            0x0,
            Walk::Mapped(Page {
                frame: 0x5000,
                level: 1,
                bits: bits(false, false, true),
                key: 5,
                global: true,
            }),
            4,
        ),
    ];
    check(&rt, rt.alloc(), &settings(true, false, true), &rows)?;
    Ok(())
}
