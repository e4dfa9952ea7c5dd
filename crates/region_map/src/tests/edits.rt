//! Ranges that are cleared, replaced and copied, and random edits beside those of plain pages.

ghost use Rattle.std.specs.Prelude.{◌≡◌, ◌+◌, ◌*◌, ◌<◌, ◌≤◌};
ghost use Rattle.paging_model.specs.Listings.{stretch_of_region};
ghost use Rattle.region_map.specs.Coalesced.{AreWholePages, IsPageRange};

use super::*;

/// How many pages random edits are of.
const PAGES: usize = 24;

/// What a page is mapped to: the number of its frame, and whether it may be written.
type Page = Option<(u64, bool)>;

/// The first byte and the last of the pages from that of a number to that of another.
fn bytes(first: u64, last: u64) -> (u64, u64)
    requires order { first ≤ last }
    requires few { last < 1048576 }
    ensures pages { AreWholePages result.0 result.1 }
    ensures first { result.0 ≡ first * 4096 }
    ensures last { result.1 ≡ last * 4096 + 4095 }
{
    (first * 4096, last * 4096 + 4095)
}

/// A left region and a right one.
fn two(alloc: Global, left: Region, right: Region) -> Result<Regions, AllocError>
    requires left { IsPageRange (stretch_of_region left) }
    requires right { IsPageRange (stretch_of_region right) }
    requires order { left.last < right.first }
{
    let mut regions = Regions::new(alloc);
    regions.fill(left)?;
    regions.fill(right)?;
    Ok(regions)
}

#[test]
fn a_cleared_range_cuts_a_region_on_both_sides(rt: HostRuntime) -> Result<(), Fail> {
    let alloc = rt.alloc();
    let mut regions = two(alloc, pages(2, 8, ALL, 3), pages(4, 10, ALL, 3))?;
    let (first, last) = bytes(3, 4);
    regions.clear(first, last)?;
    assert_eq!(rt;
        ranges(alloc, &regions)?.as_slice(),
        [(2, 2), (5, 5)].as_slice()
    );
    assert!(rt;
        regions
            .find(2 * 4096)
            .is_some_and(|one| one.frame == 8 * 4096)
    );
    assert!(rt;
        regions
            .find(5 * 4096)
            .is_some_and(|one| one.frame == 11 * 4096)
    );
    regions.clear(first, last)?;
    assert_eq!(rt; regions.list().len(), 2);
    Ok(())
}

#[test]
fn a_range_that_is_replaced_goes_on_over_both_seams(rt: HostRuntime) -> Result<(), Fail> {
    let alloc = rt.alloc();
    let (left, right) = (pages(2, 8, ALL, 3), pages(6, 12, ALL, 3));
    let mut regions = two(alloc, left, right)?;
    let other = two(alloc, pages(4, 10, ALL, 3), pages(8, 30, ALL, 3))?;
    let (first, last) = bytes(4, 5);
    regions.replace(first, last, &other)?;
    assert_eq!(rt; ranges(alloc, &regions)?.as_slice(), [(2, 7)].as_slice());
    let more = two(alloc, pages(3, 50, READ, 3), pages(5, 52, READ, 1))?;
    let (first, last) = bytes(3, 6);
    regions.replace(first, last, &more)?;
    assert_eq!(rt;
        ranges(alloc, &regions)?.as_slice(),
        [(2, 2), (3, 4), (5, 6), (7, 7)].as_slice()
    );
    Ok(())
}

#[test]
fn a_range_is_copied_as_one_with_what_stands_before(rt: HostRuntime) -> Result<(), Fail> {
    let alloc = rt.alloc();
    let other = two(alloc, pages(2, 8, ALL, 3), pages(6, 12, ALL, 3))?;
    let mut regions = Regions::new(alloc);
    regions.fill(pages(0, 7, ALL, 3))?;
    let (first, last) = bytes(3, 6);
    regions.copy(&other, first, last)?;
    assert_eq!(rt;
        ranges(alloc, &regions)?.as_slice(),
        [(0, 1), (3, 3), (6, 6)].as_slice()
    );
    let mut joined = Regions::new(alloc);
    joined.fill(pages(0, 6, ALL, 3))?;
    let (first, last) = bytes(2, 2);
    joined.copy(&other, first, last)?;
    assert_eq!(rt; ranges(alloc, &joined)?.as_slice(), [(0, 2)].as_slice());
    Ok(())
}

#[test]
fn edits_reach_both_ends_of_the_addresses(rt: HostRuntime) -> Result<(), Fail> {
    let alloc = rt.alloc();
    let top = Region {
        first: 0xffff_ffff_ffff_e000,
        last: u64::MAX,
        ..pages(0, 4, ALL, 3)
    };
    let whole = two(alloc, pages(0, 4, ALL, 3), top)?;
    let mut regions = Regions::new(alloc);
    regions.copy(&whole, 0, u64::MAX)?;
    assert!(rt; regions.list() == whole.list());
    regions.clear(0, 4095)?;
    regions.clear(0xffff_ffff_ffff_f000, u64::MAX)?;
    assert_eq!(rt;
        ranges(alloc, &regions)?.as_slice(),
        [(1, 1), (0xf_ffff_ffff_fffe, 0xf_ffff_ffff_fffe)].as_slice()
    );
    regions.replace(0, u64::MAX, &whole)?;
    assert!(rt; regions.list() == whole.list());
    regions.clear(0, u64::MAX)?;
    assert!(rt; regions.list().is_empty());
    Ok(())
}

/// The next of numbers that look random.
fn next(random: u64) -> u64 {
    random
        .wrapping_mul(6_364_136_223_846_793_005)
        .wrapping_add(1_442_695_040_888_963_407)
}

/// The numbers of the first and of the last of some pages.
fn random_pages(random: u64) -> (u64, u64)
    ensures order { result.0 ≤ result.1 }
    ensures few { result.1 < 24 }
{
    let first = (random >> 33) % 24;
    let last = first + (random >> 40) % 6;
    (first, last.min(23))
}

/// These pages as one region. The frames' numbers are theirs with a random one of three added.
fn random_region(random: u64, first: u64, last: u64) -> Region
    requires order { first ≤ last }
    requires few { last < 24 }
    ensures { IsPageRange (stretch_of_region result) }
{
    Region {
        first: first * 4096,
        last: last * 4096 + 4095,
        frame: ((random >> 20) % 3 * 64 + first) * 4096,
        bits: if random >> 30 & 1 == 0 { ALL } else { READ },
        key: 0,
    }
}

/// What a page is mapped to.
fn page_of(regions: &Regions, page: u64) -> Page
    requires { page < 1048576 }
{
    let address = page * 4096;
    let region = regions.find(address)?;
    let frame = region
        .frame
        .wrapping_add(address.wrapping_sub(region.first));
    Some((frame / 4096, region.bits.write))
}

/// What each of the pages is mapped to.
fn plain(regions: &Regions) -> [Page; PAGES] {
    let mut all = [None; PAGES];
    for (page, target) in all.iter_mut().enumerate() {
        *target = page_of(regions, page as u64);
    }
    all
}

/// The pages after those of a range were mapped as others are.
fn pages_after(pages: &[Page; PAGES], range: (u64, u64), other: &[Page; PAGES]) -> [Page; PAGES] {
    let mut all = *pages;
    for (page, target) in all.iter_mut().enumerate() {
        if range.0 <= page as u64 && page as u64 <= range.1 {
            *target = other[page];
        }
    }
    all
}

/// The pages after a random edit: a range is cleared, or replaced by one region or by another list.
fn random_edit(
    alloc: Global,
    random: u64,
    regions: &mut Regions,
    other: &Regions,
) -> Result<[Page; PAGES], AllocError> {
    let before = plain(regions);
    let (first, last) = random_pages(random);
    let (low, high) = bytes(first, last);
    let mut one = Regions::new(alloc);
    match random >> 62 {
        0 => {
            regions.clear(low, high)?;
            Ok(pages_after(&before, (first, last), &plain(&one)))
        }
        1 | 2 => {
            one.fill(random_region(random, first, last))?;
            regions.replace(low, high, &one)?;
            Ok(pages_after(&before, (first, last), &plain(&one)))
        }
        _ => {
            regions.replace(low, high, other)?;
            Ok(pages_after(&before, (first, last), &plain(other)))
        }
    }
}

/// A random range of a list, copied to none, and the pages that should come of it.
fn random_copy(
    alloc: Global,
    random: u64,
    regions: &Regions,
) -> Result<(Regions, [Page; PAGES]), AllocError> {
    let (first, last) = random_pages(random);
    let (low, high) = bytes(first, last);
    let mut copy = Regions::new(alloc);
    copy.copy(regions, low, high)?;
    let all = pages_after(&[None; PAGES], (first, last), &plain(regions));
    Ok((copy, all))
}

#[test]
fn random_edits_are_those_of_plain_pages(rt: HostRuntime) -> Result<(), Fail> {
    let mut regions = Regions::new(rt.alloc());
    let mut other = Regions::new(rt.alloc());
    let mut random = 1;
    for step in 0..2000 {
        random = next(random);
        let all = random_edit(rt.alloc(), random, &mut regions, &other)?;
        assert!(rt; plain(&regions) == all);
        if step % 4 == 0 {
            random = next(random);
            let (copy, copied) = random_copy(rt.alloc(), random, &regions)?;
            assert!(rt; plain(&copy) == copied);
            other = copy;
        }
    }
    Ok(())
}
