//! Areas of spaces whose regions are filled in one by one.

ghost use Rattle.std.specs.Prelude.{ℕ, ◌+◌, ◌^◌, ◌<◌, ◌≤◌, IsTrue};
ghost use Rattle.paging_model.specs.LinearAddress.{is_canonical};
ghost use Rattle.paging_model.specs.Listings.{stretch_of_region};
ghost use Rattle.paging_model.specs.Registers.{la57};
ghost use Rattle.region_map.specs.Coalesced.{IsPageRange};

use super::*;
use paging_model::entries::Bits;
use paging_model::registers::Regs;
use paging_model::spaces::{Areas, Region};
use proc_regs::bit_ranges::bit;
use proc_regs::register_bits::CR4_LA57;
use region_map::Regions;
use std::alloc::{AllocError, Global};
use std::process::Abort;
use std::test::Fail;
use test_support::registers::REGS;

/// CR0.WP.
const WP: u64 = 1 << 16;

/// CR3.LAM_U57.
const LAM_U57: u64 = 1 << 61;

/// CR3.LAM_U48.
const LAM_U48: u64 = 1 << 62;

/// CR4.LA57.
const LA57: u64 = 1 << 12;

/// CR4.SMAP.
const SMAP: u64 = 1 << 21;

/// CR4.PKE.
const PKE: u64 = 1 << 22;

/// CR4.PKS.
const PKS: u64 = 1 << 24;

/// CR4.LASS.
const LASS: u64 = 1 << 27;

/// The address at which masking to 48 bits ends.
const MIDDLE: u64 = 1 << 47;

/// The first address of the upper half under 4-level paging.
const HIGH: u64 = 0xffff_8000_0000_0000;

/// The first address of the upper half under 5-level paging.
const HIGH_57: u64 = 0xff00_0000_0000_0000;

/// A page that its bits refuse nothing.
const OPEN: Bits = Bits {
    write: true,
    user: true,
    xd: false,
};

/// A supervisor page that can be written.
const SUPERVISOR: Bits = Bits {
    write: true,
    user: false,
    xd: false,
};

/// An area's first and last byte, its frame, and the number of its rights.
type Row = (u64, u64, u64, u8);

/// The registers with these bits of CR3 and CR4 too.
fn with(cr3: u64, cr4: u64) -> Regs {
    Regs {
        cr3: REGS.cr3 | cr3,
        cr4: REGS.cr4 | cr4,
        ..REGS
    }
}

/// Two pages of the bits and of key 0 from an address on, at a frame.
fn two_pages(first: u64, frame: u64, bits: Bits) -> Region
    requires { first + 8191 < 2 ^ 64 }
{
    Region {
        first,
        last: first + 8191,
        frame,
        bits,
        key: 0,
    }
}

/// Whether a region is whole pages of whole frames.
fn is_range(region: &Region) -> bool
    ensures { IsTrue result → IsPageRange (stretch_of_region region.now) }
{
    region.first.is_multiple_of(4096)
        && region.last % 4096 == 4095
        && region.first < region.last
        && region.frame.is_multiple_of(4096)
        && region.frame < 1 << 52
        && region.last - region.first < (1 << 52) - region.frame
}

/// Whether each address of a region is canonical.
fn is_canonical_range(regs: &Regs, region: &Region) -> bool
    ensures { IsTrue result → (x : ℕ) → region.now.first ≤ x → x ≤ region.now.last
        → IsTrue (is_canonical (la57 regs.now) x) }
{
    if region.last < 1 << 47 || HIGH <= region.first {
        return true;
    }
    bit(regs.cr4, CR4_LA57) && (region.last < 1 << 56 || HIGH_57 <= region.first)
}

/// Whether a region may be one of a space's.
fn is_fit(regs: &Regs, region: &Region) -> bool
    ensures range { IsTrue result → IsPageRange (stretch_of_region region.now) }
    ensures canonical { IsTrue result → (x : ℕ) → region.now.first ≤ x → x ≤ region.now.last
        → IsTrue (is_canonical (la57 regs.now) x) }
    ensures key { IsTrue result → region.now.key < 16 }
{
    is_range(region) && is_canonical_range(regs, region) && region.key < 16
}

/// The areas of two regions, the second after the first.
fn areas_of_two(
    rt: &impl Abort,
    alloc: Global,
    regs: &Regs,
    one: Region,
    other: Region,
) -> Result<Areas, AllocError> {
    assert!(rt; is_fit(regs, &one));
    assert!(rt; is_fit(regs, &other));
    assert!(rt; one.last < other.first);
    let mut regions = Regions::new(alloc);
    regions.fill(one)?;
    regions.fill(other)?;
    areas_of(alloc, regs, regions.list())
}

/// Asserts the areas of two regions.
fn check(
    rt: &impl Abort,
    alloc: Global,
    regs: &Regs,
    one: Region,
    other: Region,
    rows: &[Row],
) -> Result<(), AllocError> {
    let areas = areas_of_two(rt, alloc, regs, one, other)?;
    assert_eq!(rt; areas.as_slice().len(), rows.len());
    for (area, &row) in areas.as_slice().iter().zip(rows) {
        let found = (area.first, area.last, area.frame, area.rights.number());
        assert_eq!(rt; found, row);
    }
    Ok(())
}

#[test]
fn regions_of_other_bits_are_one_area_where_they_grant_alike(rt: HostRuntime) -> Result<(), Fail> {
    let alloc = rt.alloc();
    let read_only = Bits {
        write: false,
        ..SUPERVISOR
    };
    let one = two_pages(0x4000, 0xa000, read_only);
    let other = two_pages(0x6000, 0xc000, SUPERVISOR);
    let all_writes = Regs {
        cr0: REGS.cr0 - WP,
        ..REGS
    };
    check(
        &rt,
        alloc,
        &all_writes,
        one,
        other,
        &[(0x4000, 0x7fff, 0xa000, 0xf8)],
    )?;
    let two = [
        (0x4000, 0x5fff, 0xa000, 0x68),
        (0x6000, 0x7fff, 0xc000, 0xf8),
    ];
    check(&rt, alloc, &REGS, one, other, &two)?;
    Ok(())
}

#[test]
fn regions_of_other_keys_are_one_area_where_they_grant_alike(rt: HostRuntime) -> Result<(), Fail> {
    let alloc = rt.alloc();
    let one = Region {
        key: 1,
        ..two_pages(0x4000, 0xa000, OPEN)
    };
    let other = Region {
        key: 2,
        ..two_pages(0x6000, 0xc000, OPEN)
    };
    let whole = [(0x4000, 0x7fff, 0xa000, 0xff)];
    check(&rt, alloc, &REGS, one, other, &whole)?;
    check(&rt, alloc, &with(0, PKE), one, other, &whole)?;
    let second_disabled = Regs {
        pkru: 1 << 4,
        ..with(0, PKE)
    };
    let two = [
        (0x4000, 0x5fff, 0xa000, 0xff),
        (0x6000, 0x7fff, 0xc000, 0x24),
    ];
    check(&rt, alloc, &second_disabled, one, other, &two)?;
    Ok(())
}

#[test]
fn areas_of_other_frames_and_areas_with_a_gap_are_apart(rt: HostRuntime) -> Result<(), Fail> {
    let alloc = rt.alloc();
    let one = two_pages(0x4000, 0xa000, OPEN);
    let other_frame = two_pages(0x6000, 0xd000, OPEN);
    let two = [
        (0x4000, 0x5fff, 0xa000, 0xff),
        (0x6000, 0x7fff, 0xd000, 0xff),
    ];
    check(&rt, alloc, &REGS, one, other_frame, &two)?;
    let after_a_page = two_pages(0x7000, 0xd000, OPEN);
    let two = [
        (0x4000, 0x5fff, 0xa000, 0xff),
        (0x7000, 0x8fff, 0xd000, 0xff),
    ];
    check(&rt, alloc, &REGS, one, after_a_page, &two)?;
    Ok(())
}

#[test]
fn an_area_whose_rights_are_empty_is_listed(rt: HostRuntime) -> Result<(), Fail> {
    let data = Bits {
        xd: true,
        ..SUPERVISOR
    };
    let one = Region {
        key: 1,
        ..two_pages(0x4000, 0xa000, data)
    };
    let other = Region {
        key: 2,
        ..two_pages(0x6000, 0xc000, data)
    };
    let both_disabled = Regs {
        pkrs: 1 << 2 | 1 << 4,
        ..with(0, PKS)
    };
    let rows = [(0x4000, 0x7fff, 0xa000, 0)];
    check(&rt, rt.alloc(), &both_disabled, one, other, &rows)?;
    Ok(())
}

#[test]
fn a_region_across_2_to_the_47_is_two_areas_under_lam_u48(rt: HostRuntime) -> Result<(), Fail> {
    let alloc = rt.alloc();
    let one = two_pages(MIDDLE - 0x1000, 0xa000, OPEN);
    let other = two_pages(HIGH_57, 0xc000, OPEN);
    let upper = (HIGH_57, HIGH_57 + 0x1fff, 0xc000, 0xff);
    // No explicit data access reaches the second page.
    let split = [
        (MIDDLE - 0x1000, MIDDLE - 1, 0xa000, 0xff),
        (MIDDLE, MIDDLE + 0xfff, 0xb000, 0xe4),
        upper,
    ];
    check(&rt, alloc, &with(LAM_U48, LA57), one, other, &split)?;
    let whole = [(MIDDLE - 0x1000, MIDDLE + 0xfff, 0xa000, 0xff), upper];
    check(&rt, alloc, &with(0, LA57), one, other, &whole)?;
    let wide = with(LAM_U57 | LAM_U48, LA57);
    check(&rt, alloc, &wide, one, other, &whole)?;
    Ok(())
}

#[test]
fn lass_keeps_each_half_from_other_accesses(rt: HostRuntime) -> Result<(), Fail> {
    let alloc = rt.alloc();
    let one = two_pages(0x4000, 0xa000, OPEN);
    let other = two_pages(HIGH, 0xc000, OPEN);
    let rows = [
        (0x4000, 0x5fff, 0xa000, 0xdf),
        (HIGH, HIGH + 0x1fff, 0xc000, 0xf8),
    ];
    check(&rt, alloc, &with(0, LASS), one, other, &rows)?;
    // While SMAP is on, it keeps implicit accesses from the lower half too, and explicit ones while AC is 0.
    let one = two_pages(0x4000, 0xa000, SUPERVISOR);
    let rows = [
        (0x4000, 0x5fff, 0xa000, 0),
        (HIGH, HIGH + 0x1fff, 0xc000, 0x20),
    ];
    check(&rt, alloc, &with(0, LASS | SMAP), one, other, &rows)?;
    let explicit = Regs {
        ac: true,
        ..with(0, LASS | SMAP)
    };
    let rows = [
        (0x4000, 0x5fff, 0xa000, 0x18),
        (HIGH, HIGH + 0x1fff, 0xc000, 0x38),
    ];
    check(&rt, alloc, &explicit, one, other, &rows)?;
    Ok(())
}

#[test]
fn no_area_goes_across_the_hole_between_the_halves(rt: HostRuntime) -> Result<(), Fail> {
    let alloc = rt.alloc();
    for (regs, end, high) in [(REGS, MIDDLE, HIGH), (with(0, LA57), 1 << 56, HIGH_57)] {
        let one = two_pages(end - 0x2000, 0xa000, OPEN);
        let rows = [
            (end - 0x2000, end - 1, 0xa000, 0xff),
            (high, high + 0x1fff, 0xc000, 0xff),
        ];
        check(&rt, alloc, &regs, one, two_pages(high, 0xc000, OPEN), &rows)?;
        let last = two_pages(0xffff_ffff_ffff_e000, 0xc000, OPEN);
        let rows = [rows[0], (last.first, u64::MAX, 0xc000, 0xff)];
        check(&rt, alloc, &regs, one, last, &rows)?;
    }
    Ok(())
}
