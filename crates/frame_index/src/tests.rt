//! An index beside a plain list of the same uses.

ghost use Rattle.std.specs.Prelude.{◌<◌};

use super::*;
use paging_model::entries::Bits;
use paging_model::spaces::TableUse;
use std::alloc::{AllocError, Global};
use std::test::Fail;

/// A bound on pages that no test comes near.
const MANY: u64 = 1_000_000;

/// The next number below a limit.
fn draw(seed: &mut u64, limit: u64) -> u64
    requires { 0 < limit }
    ensures { result < limit }
{
    *seed = seed
        .wrapping_mul(6_364_136_223_846_793_005)
        .wrapping_add(1_442_695_040_888_963_407);
    (*seed >> 33) % limit
}

/// A use of one of 5 levels, with one of 8 prefixes, of one of 4 frames.
fn drawn_use(seed: &mut u64) -> CountedUse {
    CountedUse {
        table: TableUse {
            level: 1 + draw(seed, 5) as u8,
            prefix: draw(seed, 8) * 4096,
            frame: draw(seed, 4) * 4096,
            bits: Bits {
                write: draw(seed, 2) == 1,
                user: draw(seed, 2) == 1,
                xd: false,
            },
        },
        pages: draw(seed, 513) as u16,
    }
}

/// Adds a use where its place is free.
fn put(index: &mut Index, item: CountedUse) -> Result<bool, AllocError> {
    if index.pages() > MANY {
        return Ok(false);
    }
    if index.find(item.table.level, item.table.prefix).is_some() {
        return Ok(false);
    }
    index.add(item)?;
    Ok(true)
}

/// Uses that were drawn from a seed.
fn drawn(alloc: Global, seed: u64) -> Result<(Index, Vec<CountedUse>), AllocError> {
    let (mut index, mut plain, mut seed) = (Index::new(alloc), Vec::new(alloc), seed);
    for _ in 0..60 {
        let item = drawn_use(&mut seed);
        if put(&mut index, item)? {
            plain.push(item)?;
        }
    }
    Ok((index, plain))
}

/// Whether a use is of a frame, or of a level below one and with a prefix in a range.
fn is_wanted(table: &TableUse, frame: Option<u64>, first: u64, last: u64, level: u8) -> bool {
    match frame {
        Some(frame) => table.frame == frame,
        None => table.level < level && first <= table.prefix && table.prefix <= last,
    }
}

/// The wanted uses of a plain list, by descending levels and ascending prefixes.
fn wanted_of(
    alloc: Global,
    plain: &[CountedUse],
    frame: Option<u64>,
    first: u64,
    last: u64,
    level: u8,
) -> Result<Vec<TableUse>, AllocError> {
    let mut tables = Vec::new(alloc);
    for place in 0..64u64 {
        for one in plain {
            let table = &one.table;
            let here = u64::from(table.level) + place / 8 == 7 && table.prefix == place % 8 * 4096;
            if here && is_wanted(table, frame, first, last, level) {
                tables.push(*table)?;
            }
        }
    }
    Ok(tables)
}

#[test]
fn each_use_is_found_and_recounted(rt: HostRuntime) -> Result<(), Fail> {
    let (mut index, plain) = drawn(rt.alloc(), 1)?;
    index.form();
    assert!(rt; plain.len() > 20);
    assert_eq!(rt; index.len(), plain.len() as u64);
    let mut pages = 0u64;
    for one in &plain {
        assert!(rt; index.find(one.table.level, one.table.prefix) == Some(*one));
        pages = pages.saturating_add(u64::from(one.pages));
    }
    assert_eq!(rt; index.pages(), pages);
    assert!(rt; index.find(6, 0).is_none());
    assert!(rt; pages < MANY);
    index.recount(6, 0, 5);
    assert_eq!(rt; index.pages(), pages);
    let mut with_pages = CountedUse { ..plain[7] };
    with_pages.pages = 3;
    index.recount(with_pages.table.level, with_pages.table.prefix, 3);
    assert!(rt; index.find(with_pages.table.level, with_pages.table.prefix) == Some(with_pages));
    assert_eq!(rt;
        index.pages(),
        pages
            .saturating_sub(u64::from(plain[7].pages))
            .saturating_add(3)
    );
    assert_eq!(rt; index.len(), plain.len() as u64);
    Ok(())
}

#[test]
fn the_uses_of_each_frame_are_listed(rt: HostRuntime) -> Result<(), Fail> {
    let alloc = rt.alloc();
    let (index, plain) = drawn(alloc, 2)?;
    for number in 0..6u64 {
        let frame = number * 4096;
        let tables = index.of_frame(frame)?;
        let wanted = wanted_of(alloc, plain.as_slice(), Some(frame), 0, 0, 0)?;
        assert_eq!(rt; tables.as_slice(), wanted.as_slice());
    }
    Ok(())
}

#[test]
fn uses_under_a_range_are_removed(rt: HostRuntime) -> Result<(), Fail> {
    let alloc = rt.alloc();
    let (mut index, plain) = drawn(alloc, 3)?;
    for level in 0..6u8 {
        let wanted = wanted_of(alloc, plain.as_slice(), None, 8192, 20480, level)?;
        assert_eq!(rt;
            index.under(8192, 20480, level)?.as_slice(),
            wanted.as_slice()
        );
    }
    index.remove_under(8192, 20480, 4);
    assert_eq!(rt; index.under(8192, 20480, 4)?.as_slice().len(), 0);
    let mut left = 0u64;
    for one in &plain {
        let gone = is_wanted(&one.table, None, 8192, 20480, 4);
        let found = index.find(one.table.level, one.table.prefix);
        assert_eq!(rt; found.is_none(), gone);
        left = left.saturating_add(u64::from(!gone));
    }
    assert_eq!(rt; index.len(), left);
    let empty = index.under(20480, 8192, 6)?;
    assert_eq!(rt; empty.as_slice().len(), 0);
    Ok(())
}
