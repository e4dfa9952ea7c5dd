//! Tables whose answers were worked out by hand from the manual's rules.

use super::*;
use paging_model::access::{Access, AimRule};
use paging_model::registers::Regs;
use std::process::Abort;
use test_support::registers::REGS;

/// CR3.LAM_U57.
const LAM_U57: u64 = 1 << 61;

/// CR3.LAM_U48.
const LAM_U48: u64 = 1 << 62;

/// CR4.LA57.
const LA57: u64 = 1 << 12;

/// CR4.SMAP.
const SMAP: u64 = 1 << 21;

/// CR4.LASS.
const LASS: u64 = 1 << 27;

/// CR4.LAM_SUP.
const LAM_SUP: u64 = 1 << 28;

/// An address of the lower half.
const LOWER: u64 = 0x1000;

/// An address of the upper half.
const UPPER: u64 = 0xffff_8000_0000_0000;

/// `LOWER` with bits 62:48 set, which masking to 48 bits takes away.
const TAGGED_LOWER: u64 = 0x7fff_0000_0000_1000;
/// `UPPER` with bits 62:56 clear, which masking to 48 bits sets.
const TAGGED_UPPER: u64 = 0x80ff_8000_0000_0000;

/// The registers with these bits of CR3 and CR4 too.
fn with(cr3: u64, cr4: u64) -> Regs {
    Regs {
        cr3: REGS.cr3 | cr3,
        cr4: REGS.cr4 | cr4,
        ..REGS
    }
}

/// Asserts where pointers aim: registers, access, pointer and answer.
fn check(rt: &impl Abort, rows: &[(Regs, Access, u64, Result<u64, AimRule>)]) {
    for &(regs, access, pointer, want) in rows {
        assert_eq!(rt;
            aim(&regs, access, pointer),
            want,
            "{access:?} of {pointer:#x} for {regs:?}"
        );
    }
}

/// Asserts which accesses reach an address: registers, address and the number of the set.
fn check_reach(rt: &impl Abort, rows: &[(Regs, u64, u8)]) {
    for &(regs, address, want) in rows {
        let found = reach(&regs, address).number();
        assert_eq!(rt; found, want, "{found:#010b} at {address:#x} for {regs:?}");
    }
}

#[test]
fn masks_user_pointers(rt: HostRuntime) {
    let refused = Err(AimRule::NotCanonical);
    // Its bits 55:48 are set, and are bits of an address of 57 bits.
    let wide = 0x00ff_0000_0000_1000;
    check(
        &rt,
        &[
            (REGS, Access::Ur, TAGGED_LOWER, refused),
            (with(LAM_U48, 0), Access::Ur, TAGGED_LOWER, Ok(LOWER)),
            (with(LAM_U48, 0), Access::Uw, TAGGED_LOWER, Ok(LOWER)),
            (with(LAM_U48, 0), Access::Sr, TAGGED_LOWER, Ok(LOWER)),
            (with(LAM_U48, 0), Access::Sw, TAGGED_LOWER, Ok(LOWER)),
            (with(LAM_U48, 0), Access::Ur, wide, Ok(LOWER)),
            (
                with(LAM_U57, 0),
                Access::Ur,
                0x7e00_0000_0000_1000,
                Ok(LOWER),
            ),
            // LAM_U57 comes before LAM_U48.
            (with(LAM_U57 | LAM_U48, 0), Access::Ur, wide, refused),
            (with(LAM_U57 | LAM_U48, LA57), Access::Ur, wide, Ok(wide)),
            // LAM_U48 under 5-level paging.
            (with(LAM_U48, LA57), Access::Ur, TAGGED_LOWER, Ok(LOWER)),
            (with(LAM_U48, LA57), Access::Ur, 0x8000_0000_0000, refused),
            (with(0, LAM_SUP), Access::Sr, TAGGED_LOWER, refused),
        ],
    );
}

#[test]
fn masks_supervisor_pointers(rt: HostRuntime) {
    let refused = Err(AimRule::NotCanonical);
    let wide = 0x81ff_0000_0000_0000;
    check(
        &rt,
        &[
            (with(0, LAM_SUP), Access::Sr, TAGGED_UPPER, Ok(UPPER)),
            (with(0, LAM_SUP), Access::Sw, TAGGED_UPPER, Ok(UPPER)),
            (with(0, LAM_SUP), Access::Ur, TAGGED_UPPER, Ok(UPPER)),
            (with(0, LAM_SUP), Access::Sr, wide, refused),
            (
                with(0, LAM_SUP | LA57),
                Access::Sr,
                wide,
                Ok(0xffff_0000_0000_0000),
            ),
            (with(0, LAM_SUP | LA57), Access::Sr, TAGGED_UPPER, refused),
            (with(LAM_U48, 0), Access::Sr, TAGGED_UPPER, refused),
        ],
    );
}

#[test]
fn masks_no_fetch_and_no_implicit_access(rt: HostRuntime) {
    let refused = Err(AimRule::NotCanonical);
    let regs = with(LAM_U48, LAM_SUP);
    for access in [Access::Ux, Access::Sx, Access::Ir, Access::Iw] {
        check(
            &rt,
            &[
                (regs, access, TAGGED_LOWER, refused),
                (regs, access, TAGGED_UPPER, refused),
                (regs, access, LOWER, Ok(LOWER)),
                (regs, access, UPPER, Ok(UPPER)),
            ],
        );
    }
}

#[test]
fn separates_the_halves(rt: HostRuntime) {
    let with_smap = with(0, LASS | SMAP);
    let with_ac = Regs {
        ac: true,
        ..with_smap
    };
    check_reach(
        &rt,
        &[
            (REGS, LOWER, 0b1111_1111),
            (REGS, UPPER, 0b1111_1111),
            (with(0, SMAP), LOWER, 0b1111_1111),
            (with(0, LASS), LOWER, 0b1101_1111),
            (with(0, LASS), UPPER, 0b1111_1000),
            (with_smap, LOWER, 0b0000_0111),
            (with_smap, UPPER, 0b1111_1000),
            (with_ac, LOWER, 0b0001_1111),
            (with_ac, UPPER, 0b1111_1000),
        ],
    );
    check(
        &rt,
        &[
            // LASS checks the masked address, and after canonicality.
            (with(0, LASS), Access::Sx, LOWER, Err(AimRule::Lass)),
            (
                with(LAM_U48, LASS | SMAP),
                Access::Sr,
                TAGGED_LOWER,
                Err(AimRule::Lass),
            ),
            (
                with(0, LASS),
                Access::Ur,
                0x8000_0000_0000_0000,
                Err(AimRule::NotCanonical),
            ),
        ],
    );
}

#[test]
fn reaches_what_masking_leaves(rt: HostRuntime) {
    check_reach(
        &rt,
        &[
            (with(LAM_U48, 0), LOWER, 0b1111_1111),
            (with(LAM_U48, LA57), 0x8000_0000_0000, 0b1110_0100),
            (with(LAM_U48, LA57), 0x1_0000_0000_0000, 0b1110_0100),
            (with(LAM_U57, LA57), 0x8000_0000_0000, 0b1111_1111),
            (with(0, LAM_SUP), UPPER, 0b1111_1111),
            (REGS, 0x8000_0000_0000, 0),
        ],
    );
}
