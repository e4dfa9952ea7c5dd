//! Values worked out by hand from the manual's bit numbers.

use super::*;
use crate::bit_ranges::{bit, field, in_place, some_bit};
use paging_model::registers::{Machine, RegChange, RegRule, Regs, Settings};
use test_support::registers::REGS;

/// A physical width of 40, and 1-GByte pages.
const MACHINE: Machine = Machine { m: 40, big: true };

#[test]
fn reads_bits(rt: HostRuntime) {
    assert!(rt; bit(0x8000_0000_0000_0000, 63));
    assert!(rt; !bit(0x7fff_ffff_ffff_ffff, 63));
    assert_eq!(rt; field(0xabcd_ef01_2345_6789, 47, 16), 0xef01_2345);
    assert_eq!(rt; in_place(0xabcd_ef01_2345_6789, 51, 12), 0xd_ef01_2345_6000);
    assert!(rt; some_bit(0x100, 8, 8));
    assert!(rt; !some_bit(u64::MAX, 51, 52));
}

#[test]
fn refuses_states_outside_64_bit_paging(rt: HostRuntime) {
    let states = [
        (REGS, Ok(())),
        (
            Regs {
                cr0: 0x8001_0000,
                ..REGS
            },
            Err(RegRule::PagingOff),
        ),
        (
            Regs {
                cr0: 0x1_0001,
                efer: 0,
                ..REGS
            },
            Err(RegRule::PagingOff),
        ),
        (
            Regs {
                efer: 0x900,
                cr4: 0,
                ..REGS
            },
            Err(RegRule::NotLong),
        ),
        (
            Regs {
                efer: 0xc00,
                ..REGS
            },
            Err(RegRule::NotLong),
        ),
        (
            Regs {
                cr4: 0xffff_ffdf,
                ..REGS
            },
            Err(RegRule::NoPae),
        ),
        (
            Regs {
                cr3: 0x100_0000_1000,
                ..REGS
            },
            Err(RegRule::Cr3Reserved),
        ),
        (
            Regs {
                cr3: 0x1000_0000_0000_1000,
                ..REGS
            },
            Err(RegRule::Cr3Reserved),
        ),
        (
            Regs {
                cr3: 0x8000_0000_0000_1000,
                ..REGS
            },
            Err(RegRule::Cr3Reserved),
        ),
        (
            Regs {
                cr3: 0x6000_00ff_ffff_ffff,
                ..REGS
            },
            Ok(()),
        ),
    ];
    for (state, answer) in states {
        assert_eq!(rt; check(&MACHINE, &state), answer, "{state:?}");
    }
}

#[test]
fn reads_what_the_registers_set(rt: HostRuntime) {
    let state = Regs {
        cr3: 0x6000_00ff_ffff_ffff,
        cr4: 0x1020,
        ..REGS
    };
    assert_eq!(rt; root(&state, &MACHINE), 0xff_ffff_f000);
    let wide = Settings {
        m: 40,
        big: true,
        la57: true,
        nxe: true,
    };
    assert_eq!(rt; settings(&state, &MACHINE), wide);
    let plain = Settings {
        m: 40,
        big: true,
        la57: false,
        nxe: false,
    };
    assert_eq!(rt;
        settings(
            &Regs {
                efer: 0x500,
                ..REGS
            },
            &MACHINE
        ),
        plain
    );
}

#[test]
fn gives_the_current_pcid(rt: HostRuntime) {
    let state = Regs {
        cr3: 0x1fff,
        ..REGS
    };
    assert_eq!(rt; pcid(&state), 0);
    let state = Regs {
        cr4: 0x2_0020,
        ..state
    };
    assert_eq!(rt; pcid(&state), 0xfff);
}

#[test]
fn separates_canonical_addresses(rt: HostRuntime) {
    assert!(rt; canonical(false, 0x7fff_ffff_ffff));
    assert!(rt; !canonical(false, 0x8000_0000_0000));
    assert!(rt; canonical(false, 0xffff_8000_0000_0000));
    assert!(rt; canonical(true, 0x8000_0000_0000));
    assert!(rt; !canonical(true, 0x100_0000_0000_0000));
    assert!(rt; canonical(true, 0xff00_0000_0000_0000));
}

#[test]
fn changes_one_register(rt: HostRuntime) {
    let mut state = REGS;
    let changes = [
        RegChange::Cr4(0x2_00a0),
        RegChange::Cr3(0xe000_0000_0000_2005),
        RegChange::Cr0(0x8000_0001),
        RegChange::Efer(0x500),
        RegChange::Ac(true),
        RegChange::Pkru(0xc),
        RegChange::Pkrs(0x4),
    ];
    for next in changes {
        assert_eq!(rt; change(&mut state, &MACHINE, next), Ok(()));
    }
    let last = Regs {
        cr0: 0x8000_0001,
        cr3: 0x6000_0000_0000_2005,
        cr4: 0x2_00a0,
        efer: 0x500,
        ac: true,
        pkru: 0xc,
        pkrs: 0x4,
    };
    assert_eq!(rt; state, last);
}

#[test]
fn refuses_changes(rt: HostRuntime) {
    let with_pcid = Regs {
        cr3: 0x1001,
        ..REGS
    };
    let changes = [
        (REGS, RegChange::Cr0(0x1_0001), RegRule::PagingOff),
        (REGS, RegChange::Efer(0x900), RegRule::NotLong),
        (REGS, RegChange::Cr4(0x1000), RegRule::NoPae),
        (with_pcid, RegChange::Cr4(0x2_1020), RegRule::La57Changed),
        (with_pcid, RegChange::Cr4(0x2_0020), RegRule::PcidNotZero),
        (
            REGS,
            RegChange::Cr3(0x8000_0100_0000_1000),
            RegRule::KeepBitWithoutPcid,
        ),
        (REGS, RegChange::Cr3(0x100_0000_1000), RegRule::Cr3Reserved),
    ];
    for (before, refused, rule) in changes {
        let mut state = before;
        assert_eq!(rt; change(&mut state, &MACHINE, refused), Err(rule));
        assert_eq!(rt; state, before);
    }
}
