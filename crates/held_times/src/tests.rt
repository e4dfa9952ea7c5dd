//! A processor of a short history, and what it holds of a few entries.

ghost use Rattle.std.specs.Prelude.{◌≡◌, ℕ, ◌≤◌, true, IfOk};
ghost use Rattle.time_sets.specs.Sets.{has_time};

use super::*;
use cache_rules::Host;
use history_model::caches::CacheKey;
use history_model::events::Event;
use paging_model::registers::{Machine, RegChange};
use std::alloc::{AllocError, Global};
use std::process::Abort;
use std::test::Fail;
use test_support::registers::REGS;
use time_sets::{Interval, Times};

/// The translation of the page at 0x1000.
const PAGE: CacheKey = CacheKey {
    pcid: 0,
    level: 1,
    prefix: 0x1000,
    leaf: true,
    global: false,
};

/// The same as a global one.
const GLOBAL: CacheKey = CacheKey {
    global: true,
    ..PAGE
};

/// The translation of the page at 0x2000.
const NEIGHBOR: CacheKey = CacheKey {
    prefix: 0x2000,
    ..PAGE
};

/// The reference of the page table for the first 2 MBytes.
const TABLE: CacheKey = CacheKey {
    level: 2,
    prefix: 0,
    leaf: false,
    ..PAGE
};

/// INVLPG of the page at 0x1000.
fn invlpg(cpu: u32) -> Event {
    Event::Invlpg {
        cpu,
        address: 0x1fff,
    }
}

/// Processor 0: it executes INVLPG at time 2 and writes to CR3 at time 4. Another processor executes INVLPG at 1 and 3.
fn host(alloc: Global) -> Result<Host, AllocError> {
    let cr3 = Event::Set {
        cpu: 0,
        change: RegChange::Cr3(0x1000),
    };
    let mut host = Host::new(alloc, 0, REGS, Machine::new(40, true))?;
    host.note(1, &invlpg(1), &REGS)?;
    host.note(2, &invlpg(0), &REGS)?;
    host.note(3, &invlpg(1), &REGS)?;
    host.note(4, &cr3, &REGS)?;
    Ok(host)
}

/// The times up to now of some intervals.
fn times_until(
    rt: &impl Abort,
    alloc: Global,
    intervals: &[Interval],
    now: u32,
) -> Result<Times, AllocError>
    ensures { IfOk result (λ times. (t : ℕ) → has_time times t ≡ true → t ≤ now) }
{
    let mut times = Times::new(alloc);
    for &(first, last) in intervals {
        assert!(rt; first <= last);
        times.add(first, last)?;
    }
    let mut until = Times::new(alloc);
    until.add(0, now)?;
    times.meet(&until)
}

#[test]
fn what_is_made_is_held_until_it_is_removed(rt: HostRuntime) -> Result<(), Fail> {
    let rows: [(CacheKey, &[Interval], u32, &[Interval]); 10] = [
        (PAGE, &[], 9, &[]),
        (PAGE, &[(0, 0)], 9, &[(0, 1)]),
        (PAGE, &[(0, 0)], 0, &[(0, 0)]),
        (PAGE, &[(2, 2)], 9, &[(2, 3)]),
        (PAGE, &[(0, 2)], 9, &[(0, 3)]),
        (
            PAGE,
            &[(0, 0), (3, 3), (5, 6)],
            9,
            &[(0, 1), (3, 3), (5, 9)],
        ),
        (GLOBAL, &[(0, 0), (3, 3)], 9, &[(0, 1), (3, 9)]),
        (NEIGHBOR, &[(0, 0)], 9, &[(0, 3)]),
        (TABLE, &[(0, 0)], 9, &[(0, 1)]),
        (CacheKey { pcid: 1, ..PAGE }, &[(0, 0)], 9, &[(0, 9)]),
    ];
    let alloc = rt.alloc();
    let host = host(alloc)?;
    for (key, made, now, expected) in rows {
        let made = times_until(&rt, alloc, made, now)?;
        assert!(rt; 1 <= key.level && key.level <= 5);
        let held = held_times(alloc, &host, &key, &made, now)?;
        assert_eq!(rt; held.intervals(), expected, "{key:?} {now}");
    }
    Ok(())
}

#[test]
fn it_is_held_now_where_nothing_removed_it_since_the_last_time(
    rt: HostRuntime,
) -> Result<(), Fail> {
    let rows: [(CacheKey, &[Interval], u32, bool); 7] = [
        (PAGE, &[], 9, false),
        (PAGE, &[(0, 0)], 1, true),
        (PAGE, &[(0, 0)], 2, false),
        (PAGE, &[(0, 0), (3, 3)], 9, false),
        (PAGE, &[(0, 0), (4, 4)], 9, true),
        (GLOBAL, &[(3, 3)], 9, true),
        (TABLE, &[(2, 2)], 3, true),
    ];
    let alloc = rt.alloc();
    let host = host(alloc)?;
    for (key, made, now, expected) in rows {
        let made = times_until(&rt, alloc, made, now)?;
        assert!(rt; 1 <= key.level && key.level <= 5);
        assert_eq!(rt; is_held(&host, &key, &made, now), expected, "{key:?} {now}");
    }
    Ok(())
}
