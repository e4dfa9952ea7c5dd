//! As many tables and pages as there may be, and one more.

use super::*;
use std::test::Fail;
use test_support::fields::put;

/// Entries from a first address on: how many, and the values of the first and by how much each next one is more.
type Row = (usize, usize, u64, u64);

/// Memory that is 0 but for these entries.
fn memory(alloc: Global, rows: &[Row]) -> Result<Vec<u8>, AllocError> {
    let mut bytes = vec![in alloc; 0; SIZE]?;
    for &(at, count, value, step) in rows {
        let places = (at..SIZE).step_by(8).take(count);
        let mut value = value;
        for place in places {
            put(&mut bytes, (place, 8, value));
            value = value.wrapping_add(step);
        }
    }
    Ok(bytes)
}

/// How many regions a space has that is built over these entries, from the table at 0x1000 on, and in how many steps.
fn regions_and_steps(
    rt: &impl Abort,
    alloc: Global,
    rows: &[Row],
) -> Result<(Result<usize, SpaceFault>, u64), AllocError> {
    let bytes = memory(alloc, rows)?;
    let memory = Memory {
        bytes: &bytes,
        cut: 1,
        writes: &[],
    };
    let (built, steps) = build(rt, alloc, memory, key(0x1000, false))?;
    Ok((built.map(|space| space.regions().list().len()), steps))
}

#[test]
fn as_many_uses_as_there_may_be(rt: HostRuntime) -> Result<(), Fail> {
    let alloc = rt.alloc();
    // A PDPT references one PD 511 times and another one once, and these an empty PT 511 and 509 times.
    let rows = [
        (0x1000, 1, 0x2007, 0),
        (0x2000, 511, 0x3007, 0),
        (0x2ff8, 1, 0x4007, 0),
        (0x3000, 511, 0x5007, 0),
        (0x4000, 509, 0x5007, 0),
    ];
    let steps = 262_144 * 512;
    assert_eq!(rt; regions_and_steps(&rt, alloc, &rows)?, (Ok(0), steps));
    // The PT that is one too many isn't read, nor is the upper half of the PML4.
    let more = [rows[0], rows[1], rows[2], rows[3], (0x4000, 510, 0x5007, 0)];
    let large = regions_and_steps(&rt, alloc, &more)?;
    assert_eq!(rt; large, (Err(SpaceFault::TooLarge), steps - 256));
    Ok(())
}

#[test]
fn as_many_pages_as_there_may_be(rt: HostRuntime) -> Result<(), Fail> {
    let alloc = rt.alloc();
    // A PDPT references a PD 8 times, that one a PT 512 times, and this one maps 512 pages.
    let rows = [
        (0x1000, 1, 0x2007, 0),
        (0x2000, 8, 0x3007, 0),
        (0x3000, 512, 0x4007, 0),
        (0x4000, 512, 0x7, 0x1000),
    ];
    let steps = (1 + 1 + 8 + 8 * 512) * 512;
    assert_eq!(rt; regions_and_steps(&rt, alloc, &rows)?, (Ok(4096), steps));
    // A page of 1 GByte more; the upper half of the PML4 isn't read.
    let more = [rows[0], rows[1], (0x2040, 1, 0x87, 0), rows[2], rows[3]];
    let large = regions_and_steps(&rt, alloc, &more)?;
    assert_eq!(rt; large, (Err(SpaceFault::TooLarge), steps - 256));
    Ok(())
}

#[test]
fn a_table_that_references_itself_alone(rt: HostRuntime) -> Result<(), Fail> {
    let (built, _) = regions_and_steps(&rt, rt.alloc(), &[(0x1000, 512, 0x1007, 0)])?;
    assert!(rt; built == Err(SpaceFault::TooLarge));
    Ok(())
}
