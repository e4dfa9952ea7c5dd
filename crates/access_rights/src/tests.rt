//! Tables whose answers were worked out by hand from the manual's rules.

ghost use Rattle.std.specs.Prelude.{◌<◌};

use super::*;
use paging_model::access::{Access, Rule};
use paging_model::entries::Bits;
use paging_model::registers::Regs;
use std::process::Abort;
use test_support::registers::REGS;

/// CR0 without write protection.
const CR0_WITHOUT_WP: u64 = 0x8000_0001;

/// CR4.SMEP.
const SMEP: u64 = 1 << 20;

/// CR4.SMAP.
const SMAP: u64 = 1 << 21;

/// CR4.PKE.
const PKE: u64 = 1 << 22;

/// CR4.PKS.
const PKS: u64 = 1 << 24;

/// A user page that permits everything.
const USER_PAGE: Bits = Bits {
    write: true,
    user: true,
    xd: false,
};

/// A supervisor page that permits everything.
const SUPERVISOR_PAGE: Bits = Bits {
    user: false,
    ..USER_PAGE
};

/// A page whose R/W is 0.
fn read_only(page: Bits) -> Bits {
    Bits {
        write: false,
        ..page
    }
}

/// A page with execute-disable.
fn not_executable(page: Bits) -> Bits {
    Bits { xd: true, ..page }
}

/// The registers with these bits of CR4 too.
fn with_cr4(bits: u64) -> Regs {
    Regs {
        cr4: REGS.cr4 | bits,
        ..REGS
    }
}

/// Asserts which accesses a page with key 3 permits: registers, bits and the number of the set.
fn check(rt: &impl Abort, rows: &[(Regs, Bits, u8)]) {
    for &(regs, bits, want) in rows {
        let found = rights(&regs, bits, 3).number();
        assert_eq!(rt; found, want, "{found:#010b} for {regs:?} and {bits:?}");
    }
}

#[test]
fn goes_by_the_half_and_smep(rt: HostRuntime) {
    check(
        &rt,
        &[
            (REGS, USER_PAGE, 0b1111_1111),
            (REGS, SUPERVISOR_PAGE, 0b1111_1000),
            (with_cr4(SMEP), USER_PAGE, 0b1101_1111),
            (with_cr4(SMEP), SUPERVISOR_PAGE, 0b1111_1000),
        ],
    );
}

#[test]
fn lets_explicit_accesses_pass_smap_under_ac(rt: HostRuntime) {
    let smap = with_cr4(SMAP);
    let with_ac = Regs { ac: true, ..smap };
    check(
        &rt,
        &[
            (smap, USER_PAGE, 0b0010_0111),
            (with_ac, USER_PAGE, 0b0011_1111),
            (smap, SUPERVISOR_PAGE, 0b1111_1000),
            (with_ac, SUPERVISOR_PAGE, 0b1111_1000),
            (Regs { ac: true, ..REGS }, USER_PAGE, 0b1111_1111),
        ],
    );
}

#[test]
fn lets_supervisor_writes_pass_without_wp(rt: HostRuntime) {
    let without_wp = Regs {
        cr0: CR0_WITHOUT_WP,
        ..REGS
    };
    check(
        &rt,
        &[
            (REGS, read_only(USER_PAGE), 0b0110_1101),
            (without_wp, read_only(USER_PAGE), 0b1111_1101),
            (REGS, read_only(SUPERVISOR_PAGE), 0b0110_1000),
            (without_wp, read_only(SUPERVISOR_PAGE), 0b1111_1000),
        ],
    );
}

#[test]
fn refuses_fetches_under_xd(rt: HostRuntime) {
    check(
        &rt,
        &[
            (REGS, not_executable(USER_PAGE), 0b1101_1011),
            (REGS, not_executable(SUPERVISOR_PAGE), 0b1101_1000),
        ],
    );
}

#[test]
fn goes_by_pkru_for_user_pages(rt: HostRuntime) {
    let access_disable = Regs {
        pkru: 0b01 << 6,
        ..with_cr4(PKE)
    };
    let write_disable = Regs {
        pkru: 0b10 << 6,
        ..with_cr4(PKE)
    };
    check(
        &rt,
        &[
            (access_disable, USER_PAGE, 0b0010_0100),
            (write_disable, USER_PAGE, 0b0110_1101),
            (
                Regs {
                    cr0: CR0_WITHOUT_WP,
                    ..write_disable
                },
                USER_PAGE,
                0b1111_1101,
            ),
            // Supervisor pages, other keys and CR4.PKE 0.
            (access_disable, SUPERVISOR_PAGE, 0b1111_1000),
            (
                Regs {
                    pkru: 0xffff_ff3f,
                    ..access_disable
                },
                USER_PAGE,
                0b1111_1111,
            ),
            (
                Regs {
                    pkru: u32::MAX,
                    ..with_cr4(PKS)
                },
                USER_PAGE,
                0b1111_1111,
            ),
        ],
    );
}

#[test]
fn goes_by_pkrs_for_supervisor_pages(rt: HostRuntime) {
    let access_disable = Regs {
        pkrs: 0b01 << 6,
        ..with_cr4(PKS)
    };
    let write_disable = Regs {
        pkrs: 0b10 << 6,
        ..with_cr4(PKS)
    };
    check(
        &rt,
        &[
            (access_disable, SUPERVISOR_PAGE, 0b0010_0000),
            (write_disable, SUPERVISOR_PAGE, 0b0110_1000),
            (
                Regs {
                    cr0: CR0_WITHOUT_WP,
                    ..write_disable
                },
                SUPERVISOR_PAGE,
                0b1111_1000,
            ),
            // User pages and CR4.PKS 0.
            (access_disable, USER_PAGE, 0b1111_1111),
            (
                Regs {
                    pkrs: u32::MAX,
                    ..with_cr4(PKE)
                },
                SUPERVISOR_PAGE,
                0b1111_1000,
            ),
        ],
    );
}

#[test]
fn gives_the_first_rule(rt: HostRuntime) {
    let guarded = Regs {
        pkru: u32::MAX,
        ..with_cr4(SMEP | SMAP | PKE)
    };
    let with_ac = Regs {
        ac: true,
        ..guarded
    };
    let without_wp = Regs {
        cr0: CR0_WITHOUT_WP,
        ..with_ac
    };
    let strict = read_only(not_executable(USER_PAGE));
    let rows = [
        (
            guarded,
            Access::Uw,
            read_only(SUPERVISOR_PAGE),
            Some(Rule::User),
        ),
        (guarded, Access::Sx, strict, Some(Rule::Smep)),
        (guarded, Access::Sw, strict, Some(Rule::Smap)),
        (with_ac, Access::Iw, strict, Some(Rule::Smap)),
        (with_ac, Access::Sw, strict, Some(Rule::Write)),
        (guarded, Access::Uw, strict, Some(Rule::Write)),
        (guarded, Access::Ux, strict, Some(Rule::Xd)),
        (without_wp, Access::Sw, strict, Some(Rule::Key)),
        (guarded, Access::Ur, strict, Some(Rule::Key)),
        (guarded, Access::Ux, USER_PAGE, None),
        (guarded, Access::Sx, SUPERVISOR_PAGE, None),
    ];
    for (regs, access, bits, want) in rows {
        assert_eq!(rt;
            denial(&regs, access, bits, 15),
            want,
            "{access:?} for {regs:?} and {bits:?}"
        );
    }
}
