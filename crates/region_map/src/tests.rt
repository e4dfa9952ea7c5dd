//! Regions that are filled in, listed and found.

ghost use Rattle.std.specs.Prelude.{◌≡◌, ◌+◌, ◌-◌, ◌*◌, ◌<◌};
ghost use Rattle.paging_model.specs.Listings.{stretch_of_region};
ghost use Rattle.region_map.specs.Coalesced.{IsPageRange};

use super::*;
use paging_model::entries::Bits;
use paging_model::spaces::Region;
use std::alloc::{AllocError, Global};
use std::test::Fail;

mod edits;

const ALL: Bits = Bits {
    write: true,
    user: true,
    xd: false,
};

const READ: Bits = Bits {
    write: false,
    user: true,
    xd: false,
};

/// Two pages from that of a number on, of the frames from that of a number on.
fn pages(first: u64, frame: u64, bits: Bits, key: u8) -> Region
    requires page { first < 1048576 }
    requires frame { frame < 1048576 }
    ensures range { IsPageRange (stretch_of_region result) }
    ensures first { result.first ≡ first * 4096 }
    ensures last { result.last ≡ first * 4096 + 8191 }
{
    Region {
        first: first * 4096,
        last: first * 4096 + 8191,
        frame: frame * 4096,
        bits,
        key,
    }
}

/// The regions after a left one, a right one, and then one between them.
fn three(alloc: Global, left: Region, middle: Region, right: Region) -> Result<Regions, AllocError>
    requires left { IsPageRange (stretch_of_region left) }
    requires middle { IsPageRange (stretch_of_region middle) }
    requires right { IsPageRange (stretch_of_region right) }
    requires before { left.last < middle.first }
    requires after { middle.last < right.first }
{
    let mut regions = Regions::new(alloc);
    regions.fill(left)?;
    regions.fill(right)?;
    regions.fill(middle)?;
    Ok(regions)
}

/// The first and the last page's number of each region.
fn ranges(alloc: Global, regions: &Regions) -> Result<Vec<(u64, u64)>, AllocError> {
    let mut numbers = Vec::new(alloc);
    for region in regions.list() {
        numbers.push((region.first / 4096, region.last / 4096))?;
    }
    Ok(numbers)
}

#[test]
fn a_range_becomes_one_with_both_neighbours(rt: HostRuntime) -> Result<(), Fail> {
    let (left, middle) = (pages(2, 8, ALL, 3), pages(4, 10, ALL, 3));
    let regions = three(rt.alloc(), left, middle, pages(6, 12, ALL, 3))?;
    assert_eq!(rt; regions.list().len(), 1);
    let whole = Region {
        last: 8 * 4096 - 1,
        ..left
    };
    assert!(rt; regions.list()[0] == whole);
    assert!(rt; regions.find(8191).is_none());
    assert!(rt; regions.find(8192) == Some(whole));
    assert!(rt; regions.find(32767) == Some(whole));
    assert!(rt; regions.find(32768).is_none());
    Ok(())
}

#[test]
fn a_range_becomes_one_with_the_neighbour_that_is_mapped_alike(
    rt: HostRuntime,
) -> Result<(), Fail> {
    let alloc = rt.alloc();
    let (left, middle, right) = (
        pages(2, 8, ALL, 3),
        pages(4, 10, ALL, 3),
        pages(6, 12, ALL, 3),
    );
    let other_key = three(alloc, left, middle, pages(6, 12, ALL, 2))?;
    assert_eq!(rt;
        ranges(alloc, &other_key)?.as_slice(),
        [(2, 5), (6, 7)].as_slice()
    );
    let other_bits = three(alloc, pages(2, 8, READ, 3), middle, right)?;
    assert_eq!(rt;
        ranges(alloc, &other_bits)?.as_slice(),
        [(2, 3), (4, 7)].as_slice()
    );
    let other_frame = three(alloc, left, pages(4, 11, ALL, 3), right)?;
    assert_eq!(rt;
        ranges(alloc, &other_frame)?.as_slice(),
        [(2, 3), (4, 5), (6, 7)].as_slice()
    );
    Ok(())
}

#[test]
fn nothing_is_found_in_a_gap(rt: HostRuntime) -> Result<(), Fail> {
    let alloc = rt.alloc();
    assert!(rt; Regions::new(alloc).find(0).is_none());
    let right = pages(8, 14, ALL, 3);
    let regions = three(alloc, pages(0, 8, ALL, 3), pages(2, 10, ALL, 3), right)?;
    assert_eq!(rt;
        ranges(alloc, &regions)?.as_slice(),
        [(0, 3), (8, 9)].as_slice()
    );
    assert!(rt; regions.find(16383).is_some());
    assert!(rt; regions.find(16384).is_none());
    assert!(rt; regions.find(32767).is_none());
    assert!(rt; regions.find(32768) == Some(right));
    Ok(())
}
