//! Entries whose meanings were worked out by hand from the manual's tables.

ghost use Rattle.std.specs.Prelude.{◌≤◌};

use super::*;
use paging_model::entries::{Bits, Entry};
use paging_model::registers::Settings;
use std::process::Abort;

/// The settings of 4 levels, with a physical width, with 1-GByte pages and execute-disable or without.
fn settings(m: u8, big: bool, nxe: bool) -> Settings
    requires least { 32 ≤ m }
    requires most { m ≤ 52 }
{
    Settings {
        m,
        big,
        la57: false,
        nxe,
    }
}

/// Everything is allowed.
const ALL: Bits = Bits {
    write: true,
    user: true,
    xd: false,
};

/// The meaning of an entry that references a table.
fn table(frame: u64, bits: Bits) -> Entry {
    Entry::Table { frame, bits }
}

/// The meaning of an entry that maps a page with all rights, the key 0 and without G.
fn leaf(frame: u64) -> Entry {
    Entry::Leaf {
        frame,
        bits: ALL,
        key: 0,
        global: false,
    }
}

/// Asserts what entries mean with the settings: level, value and meaning.
fn check(rt: &impl Abort, settings: &Settings, rows: &[(u8, u64, Entry)]) {
    for &(level, value, want) in rows {
        assert!(rt; 1 <= level && level <= 5);
        assert_eq!(rt;
            decode(level, settings, value),
            want,
            "{value:#x} at level {level}"
        );
    }
}

#[test]
fn reads_tables_and_pages(rt: HostRuntime) {
    check(
        &rt,
        &settings(40, true, true),
        &[
            (5, 0x2007, table(0x2000, ALL)),
            (4, 0x2007, table(0x2000, ALL)),
            (3, 0x2007, table(0x2000, ALL)),
            (2, 0x2007, table(0x2000, ALL)),
            (1, 0x2007, leaf(0x2000)),
            // Bit 7 of a page of 4 KBytes is PAT, and so is bit 12 of a large page.
            (1, 0x2087, leaf(0x2000)),
            (2, 0x40_00e7, leaf(0x40_0000)),
            (2, 0x40_10e7, leaf(0x40_0000)),
            (3, 0x4000_00e7, leaf(0x4000_0000)),
            (3, 0x4000_10e7, leaf(0x4000_0000)),
            // The highest frame below the physical width, and bits that aren't checked.
            (1, 0xff_ffff_f007, leaf(0xff_ffff_f000)),
            (4, 0x7ff0_0000_0000_2f7f, table(0x2000, ALL)),
            (1, 0x07f0_0000_0000_2eff, leaf(0x2000)),
        ],
    );
}

#[test]
fn reads_each_bit(rt: HostRuntime) {
    let none = Bits {
        write: false,
        user: false,
        xd: false,
    };
    let rows = [
        (4, 0x2001, table(0x2000, none)),
        (
            4,
            0x2003,
            table(
                0x2000,
                Bits {
                    write: true,
                    ..none
                },
            ),
        ),
        (4, 0x2005, table(0x2000, Bits { user: true, ..none })),
        (
            4,
            0x8000_0000_0000_2001,
            table(0x2000, Bits { xd: true, ..none }),
        ),
        (
            1,
            0xa800_0000_0000_5101,
            Entry::Leaf {
                frame: 0x5000,
                bits: Bits { xd: true, ..none },
                key: 5,
                global: true,
            },
        ),
        (
            2,
            0x7800_0000_0040_0087,
            Entry::Leaf {
                frame: 0x40_0000,
                bits: ALL,
                key: 15,
                global: false,
            },
        ),
    ];
    check(&rt, &settings(40, true, true), &rows);
}

#[test]
fn finds_reserved_bits(rt: HostRuntime) {
    check(
        &rt,
        &settings(40, true, true),
        &[
            (2, 0x40_20e7, Entry::Reserved),
            (2, 0x40_20e6, Entry::Absent),
            (2, 0x50_00e7, Entry::Reserved),
            (3, 0x4000_20e7, Entry::Reserved),
            (3, 0x6000_00e7, Entry::Reserved),
            (5, 0x2087, Entry::Reserved),
            (4, 0x2087, Entry::Reserved),
            (5, 0x2086, Entry::Absent),
            (1, 0x100_0000_2007, Entry::Reserved),
            (1, 0x8_0000_0000_2007, Entry::Reserved),
            (1, 0, Entry::Absent),
            (4, u64::MAX - 1, Entry::Absent),
        ],
    );
}

#[test]
fn finds_each_reserved_bit_alone(rt: HostRuntime) {
    let wide = settings(40, true, true);
    let without_nxe = settings(40, true, false);
    for bit in 13..=20u8 {
        check(&rt, &wide, &[(2, 0x4000_00e7 | 1 << bit, Entry::Reserved)]);
    }
    for bit in 13..=29u8 {
        check(&rt, &wide, &[(3, 0x4000_00e7 | 1 << bit, Entry::Reserved)]);
    }
    for bit in 40..=51u8 {
        for level in 1..=5u8 {
            check(&rt, &wide, &[(level, 0x2007 | 1 << bit, Entry::Reserved)]);
        }
        check(
            &rt,
            &wide,
            &[
                (2, 0x4000_00e7 | 1 << bit, Entry::Reserved),
                (3, 0x4000_00e7 | 1 << bit, Entry::Reserved),
            ],
        );
    }
    for level in 1..=5u8 {
        check(
            &rt,
            &without_nxe,
            &[(level, 0x2007 | 1 << 63, Entry::Reserved)],
        );
    }
    check(
        &rt,
        &without_nxe,
        &[
            (2, 0x4000_00e7 | 1 << 63, Entry::Reserved),
            (3, 0x4000_00e7 | 1 << 63, Entry::Reserved),
        ],
    );
}

#[test]
fn goes_by_the_settings(rt: HostRuntime) {
    let without_big = settings(40, false, true);
    check(
        &rt,
        &without_big,
        &[
            (3, 0x4000_00e7, Entry::Reserved),
            (2, 0x40_00e7, leaf(0x40_0000)),
        ],
    );
    let without_nxe = settings(40, true, false);
    check(
        &rt,
        &without_nxe,
        &[
            (4, 0x8000_0000_0000_2007, Entry::Reserved),
            (1, 0x8000_0000_0000_2007, Entry::Reserved),
            (1, 0x8000_0000_0000_2006, Entry::Absent),
            (1, 0x2007, leaf(0x2000)),
        ],
    );
    let narrowest = settings(32, true, true);
    check(
        &rt,
        &narrowest,
        &[
            (1, 0x1_0000_0007, Entry::Reserved),
            (1, 0xffff_f007, leaf(0xffff_f000)),
        ],
    );
    let widest = settings(52, true, true);
    check(
        &rt,
        &widest,
        &[
            (1, 0xf_ffff_ffff_f007, leaf(0xf_ffff_ffff_f000)),
            (2, 0xf_ffff_ffe0_0087, leaf(0xf_ffff_ffe0_0000)),
            (3, 0xf_ffff_c000_0087, leaf(0xf_ffff_c000_0000)),
            (4, 0xf_ffff_ffff_f007, table(0xf_ffff_ffff_f000, ALL)),
        ],
    );
}

#[test]
fn joins_by_the_stricter_entry(rt: HostRuntime) {
    let strict = Bits {
        write: false,
        user: false,
        xd: true,
    };
    assert_eq!(rt; join(ALL, ALL), ALL);
    assert_eq!(rt; join(ALL, strict), strict);
    assert_eq!(rt; join(strict, ALL), strict);
    let no_write = Bits {
        write: false,
        ..ALL
    };
    let no_user = Bits { user: false, ..ALL };
    assert_eq!(rt;
        join(no_write, no_user),
        Bits {
            write: false,
            user: false,
            xd: false,
        }
    );
}
