//! What events remove, cell by cell, and the past of a processor.

use super::*;
use history_model::caches::CacheKey;
use history_model::events::Event;
use paging_model::registers::{Machine, RegChange, Regs};
use std::process::Abort;
use std::test::Fail;
use test_support::registers::REGS;

/// CR4 with global pages.
const PGE: u64 = 0xa0;

/// CR4 with PCIDs.
const PCIDE: u64 = 0x2_0020;

/// CR4 with supervisor-mode execution prevention.
const SMEP: u64 = 0x10_0020;

/// CR4 with 5-level paging.
const LA57: u64 = 0x1020;

/// The translation of the page at 0x1000, of PCID 0.
const PAGE: CacheKey = CacheKey {
    pcid: 0,
    level: 1,
    prefix: 0x1000,
    leaf: true,
    global: false,
};

/// The reference of the page table for the first 2 MBytes, of PCID 0.
const TABLE: CacheKey = CacheKey {
    pcid: 0,
    level: 2,
    prefix: 0,
    leaf: false,
    global: false,
};

/// The translation of the page, its reference of a table, the translation as a global one, and that of PCID 1.
const KEYS: [CacheKey; 4] = [
    PAGE,
    TABLE,
    CacheKey {
        global: true,
        ..PAGE
    },
    CacheKey { pcid: 1, ..PAGE },
];

/// None of the keys.
const NOTHING: [bool; 4] = [false; 4];

/// What is of PCID 0 and no global translation.
const PCID_0: [bool; 4] = [true, true, false, false];

/// What is of PCID 1 and no global translation.
const PCID_1: [bool; 4] = [false, false, false, true];

/// What is of PCID 0, global translations too.
const PCID_0_AND_GLOBAL: [bool; 4] = [true, true, true, false];

/// All keys.
const EVERYTHING: [bool; 4] = [true; 4];

/// The registers with these values of CR3 and CR4.
fn with(cr3: u64, cr4: u64) -> Regs {
    Regs { cr3, cr4, ..REGS }
}

fn invlpg(address: u64) -> Event {
    Event::Invlpg { cpu: 0, address }
}

fn invpcid(kind: u64, pcid: u64, address: u64) -> Event {
    Event::Invpcid {
        cpu: 0,
        kind,
        pcid,
        address,
    }
}

fn set(change: RegChange) -> Event {
    Event::Set { cpu: 0, change }
}

/// Asserts whether an event of processor 0 removes what has a key from it; from processor 1 it removes nothing.
fn check(rt: &impl Abort, before: &Regs, event: &Event, key: &CacheKey, removed: bool) {
    assert!(rt; 1 <= key.level && key.level <= 5);
    assert_eq!(rt; kills(event, 0, before, key), removed, "{event:?} {key:?}");
    assert!(rt; !kills(event, 1, before, key), "{event:?} {key:?}");
}

#[test]
fn events_remove_what_the_table_says(rt: HostRuntime) {
    let rows = [
        (invlpg(0x1fff), PCID_0_AND_GLOBAL),
        (invlpg(0x9000), [false, true, false, false]),
        (invlpg(0x4000_0000), [false, true, false, false]),
        (invlpg(0x8000_0000_0000), NOTHING),
        (invpcid(0, 0, 0x1000), PCID_0),
        (invpcid(1, 0, 0), PCID_0),
        (invpcid(3, 0, 0), [true, true, false, true]),
        (invpcid(2, 0, 0), EVERYTHING),
        (set(RegChange::Cr3(0x1000)), PCID_0),
        (set(RegChange::Cr4(SMEP)), PCID_0_AND_GLOBAL),
        (set(RegChange::Cr4(PGE)), EVERYTHING),
    ];
    for (event, removed) in rows {
        for (key, removed) in KEYS.iter().zip(removed) {
            check(&rt, &REGS, &event, key, removed);
        }
    }
}

#[test]
fn changes_of_registers_remove_by_their_bits(rt: HostRuntime) {
    let rows = [
        // SMEP
        (SMEP, RegChange::Cr4(SMEP), NOTHING),
        (SMEP, RegChange::Cr4(0x20), NOTHING),
        (PCIDE, RegChange::Cr4(PCIDE | SMEP), PCID_0_AND_GLOBAL),
        // PGE
        (PGE, RegChange::Cr4(0x20), EVERYTHING),
        (PGE, RegChange::Cr4(PGE), NOTHING),
        (PGE, RegChange::Cr4(PGE | SMEP), PCID_0_AND_GLOBAL),
        (0x20, RegChange::Cr4(PGE | SMEP), EVERYTHING),
        (PGE | SMEP, RegChange::Cr4(0x20), EVERYTHING),
        // PCIDE
        (0x20, RegChange::Cr4(PCIDE), NOTHING),
        (0x20, RegChange::Cr4(PCIDE | SMEP), PCID_0_AND_GLOBAL),
        (0x20, RegChange::Cr4(PCIDE | PGE), EVERYTHING),
        (PCIDE, RegChange::Cr4(0x20), EVERYTHING),
        (PCIDE, RegChange::Cr4(SMEP), EVERYTHING),
        (PCIDE | PGE, RegChange::Cr4(PGE), EVERYTHING),
        // CR3
        (0x20, RegChange::Cr3(0x1001), PCID_0),
        (PCIDE, RegChange::Cr3(0x1001), PCID_1),
        (PCIDE, RegChange::Cr3(0x1000), PCID_0),
        (PCIDE, RegChange::Cr3(0x8000_0000_0000_1001), NOTHING),
        (PCIDE, RegChange::Cr3(0x8000_0000_0000_1000), NOTHING),
        // PKE, SMAP, LASS, CR0.WP, EFER.NXE, and registers outside paging
        (0x20, RegChange::Cr4(0x40_0020), NOTHING),
        (0x20, RegChange::Cr4(0x20_0020), NOTHING),
        (0x20, RegChange::Cr4(0x800_0020), NOTHING),
        (0x20, RegChange::Cr0(0x8000_0001), NOTHING),
        (0x20, RegChange::Efer(0x500), NOTHING),
        (0x20, RegChange::Ac(true), NOTHING),
        (0x20, RegChange::Pkru(4), NOTHING),
        (0x20, RegChange::Pkrs(4), NOTHING),
    ];
    for (cr4, change, removed) in rows {
        for (key, removed) in KEYS.iter().zip(removed) {
            check(&rt, &with(0x1000, cr4), &set(change), key, removed);
        }
    }
}

/// The translation of a page of a level.
fn page(pcid: u16, level: u8, prefix: u64) -> CacheKey {
    CacheKey {
        pcid,
        level,
        prefix,
        ..PAGE
    }
}

/// The reference of a table of a level.
fn table(pcid: u16, level: u8, prefix: u64) -> CacheKey {
    CacheKey {
        pcid,
        level,
        prefix,
        ..TABLE
    }
}

#[test]
fn keys_are_covered_from_end_to_end(rt: HostRuntime) {
    let top = table(0, 5, 0);
    let last = table(0, 5, 0xffff_0000_0000_0000);
    let rows = [
        (0x20, invlpg(0xfff), PAGE, false),
        (0x20, invlpg(0x1000), PAGE, true),
        (0x20, invlpg(0x2000), PAGE, false),
        (0x20, invlpg(0x1f_ffff), page(0, 2, 0x20_0000), false),
        (0x20, invlpg(0x20_0000), page(0, 2, 0x20_0000), true),
        (0x20, invlpg(0x3f_ffff), page(0, 2, 0x20_0000), true),
        (0x20, invlpg(0x40_0000), page(0, 2, 0x20_0000), false),
        (0x20, invlpg(0x3fff_ffff), page(0, 3, 0x4000_0000), false),
        (0x20, invlpg(0x4000_0000), page(0, 3, 0x4000_0000), true),
        (0x20, invlpg(0x7fff_ffff), page(0, 3, 0x4000_0000), true),
        (0x20, invlpg(0x8000_0000), page(0, 3, 0x4000_0000), false),
        (
            0x20,
            invlpg(u64::MAX),
            page(0, 1, 0xffff_ffff_ffff_f000),
            true,
        ),
        (
            0x20,
            invlpg(0xffff_ffff_ffff_efff),
            page(0, 1, 0xffff_ffff_ffff_f000),
            false,
        ),
        (
            0x20,
            invpcid(0, 0, u64::MAX),
            table(0, 4, 0xffff_ff80_0000_0000),
            true,
        ),
        (
            0x20,
            invpcid(0, 0, 0xffff_8000_0000_0000),
            table(0, 4, 0xffff_8000_0000_0000),
            true,
        ),
        (
            0x20,
            invpcid(0, 0, 0xffff_8080_0000_0000),
            table(0, 4, 0xffff_8000_0000_0000),
            false,
        ),
        (0x20, invpcid(0, 0, 0x8000_0000_0000), top, false),
        (LA57, invpcid(0, 0, 0x8000_0000_0000), top, true),
        (LA57, invpcid(0, 0, 0xffff_ffff_ffff), top, true),
        (LA57, invpcid(0, 0, 0x1_0000_0000_0000), top, false),
        (LA57, invpcid(0, 0, u64::MAX), last, true),
        (LA57, invlpg(0xff_ffff_ffff_ffff), top, true),
        (LA57, invlpg(0x100_0000_0000_0000), top, false),
    ];
    for (cr4, event, key, removed) in rows {
        check(&rt, &with(0x1000, cr4), &event, &key, removed);
    }
}

#[test]
fn each_pcid_is_removed_alone(rt: HostRuntime) {
    let last = with(0x1fff, PCIDE);
    let rows = [
        (invlpg(0x1000), false, true),
        (invpcid(0, 4095, 0x1000), false, true),
        (invpcid(0, 0, 0x1000), true, false),
        (invpcid(1, 4095, 0), false, true),
        (invpcid(1, 0, 0), true, false),
        (invpcid(1, 0x1_0000, 0), false, false),
        (set(RegChange::Cr3(0x2fff)), false, true),
        (set(RegChange::Cr3(0x2000)), true, false),
        (set(RegChange::Cr4(PCIDE | SMEP)), false, true),
    ];
    for (event, first, of_last) in rows {
        for key in [PAGE, TABLE] {
            check(&rt, &last, &event, &key, first);
            check(&rt, &last, &event, &CacheKey { pcid: 4095, ..key }, of_last);
        }
    }
}

#[test]
fn a_host_keeps_its_past(rt: HostRuntime) -> Result<(), Fail> {
    let with_pcids = with(0x1000, PCIDE);
    let elsewhere = with(0x2001, PCIDE);
    let back = with(0x3000, PCIDE);
    let mut host = Host::new(rt.alloc(), 7, REGS, Machine::new(40, true))?;
    host.note(1, &of_7(RegChange::Cr4(PCIDE)), &with_pcids)?;
    host.note(2, &of_7(RegChange::Cr3(0x2001)), &elsewhere)?;
    let everything = Event::Invpcid {
        cpu: 7,
        kind: 2,
        pcid: 0,
        address: 0,
    };
    host.note(3, &everything, &elsewhere)?;
    host.note(4, &of_7(RegChange::Cr3(0x3000)), &back)?;
    let key = CacheKey { pcid: 1, ..PAGE };
    assert_eq!(rt; host.next_after(&key, 0), Some(2));
    assert_eq!(rt; host.next_after(&key, 2), Some(3));
    assert_eq!(rt; host.next_after(&key, 3), None);
    assert_eq!(rt; host.next_after(&PAGE, 3), Some(4));
    assert_eq!(rt; host.horizon(), 3);
    assert_eq!(rt; host.home(0), Some(0x3000));
    assert_eq!(rt; host.home(1), Some(0x2000));
    assert_eq!(rt; host.home(2), None);
    assert_eq!(rt; host.homes(), [(0, 0x3000), (1, 0x2000)].as_slice());
    let first = Stay {
        root: 0x1000,
        from: 0,
        pcid: 0,
        nxe: true,
        pge: false,
    };
    let second = Stay {
        root: 0x2000,
        from: 2,
        pcid: 1,
        ..first
    };
    let third = Stay {
        root: 0x3000,
        from: 4,
        ..first
    };
    assert_eq!(rt; host.past(), [first, second, third].as_slice());
    assert_eq!(rt; host.number(), 7);
    assert_eq!(rt; *host.regs(), back);
    Ok(())
}

/// A change of a register of processor 7.
fn of_7(change: RegChange) -> Event {
    Event::Set { cpu: 7, change }
}
