//! Stays of a few PCIDs and roots.

ghost use Rattle.std.specs.Prelude.{◌≡◌};
ghost use Rattle.cache_rules.specs.Removals.{AreAscending};
ghost use Rattle.stay_times.specs.Periods.{starts};

use super::*;
use cache_rules::Stay;
use std::alloc::{AllocError, Global};
use std::process::Abort;
use std::test::Fail;
use time_sets::{Interval, Times};

/// The stay from a time on in a PCID under a root, with NXE or without.
fn stay(from: u32, pcid: u16, root: u64, nxe: bool) -> Stay
    ensures { result.from ≡ from }
{
    Stay {
        root,
        from,
        pcid,
        nxe,
        pge: false,
    }
}

/// Stays in the PCIDs 1 and 2. PCID 1 is left for PCID 2 and comes back under the same root, and then has another root.
fn past() -> [Stay; 6]
    ensures { AreAscending 0 (starts result) }
{
    [
        stay(0, 1, 0x3000, false),
        stay(5, 1, 0x3000, true),
        stay(8, 2, 0x3000, true),
        stay(9, 1, 0x3000, true),
        stay(20, 1, 0x1000, true),
        stay(30, 1, 0x3000, false),
    ]
}

/// Asserts the intervals of a set.
fn check_times(rt: &impl Abort, times: &Times, expected: &[Interval]) {
    assert_eq!(rt; times.intervals().len(), expected.len());
    for (one, other) in times.intervals().iter().zip(expected) {
        assert_eq!(rt; *one, *other);
    }
}

/// Stays in a PCID, with NXE and a root where these are given.
fn in_pcid(pcid: u16, nxe: Option<bool>, root: Option<u64>) -> Wanted {
    Wanted { pcid, nxe, root }
}

#[test]
fn times_are_those_of_the_stays_that_are_asked_for(rt: HostRuntime) -> Result<(), Fail> {
    let rows: [(Wanted, u32, u32, &[Interval]); 8] = [
        // A PCID is one interval for as long as it isn't left.
        (in_pcid(1, None, None), 0, 40, &[(0, 7), (9, 40)]),
        (in_pcid(2, None, None), 0, 40, &[(8, 8)]),
        (in_pcid(3, None, None), 0, 40, &[]),
        (in_pcid(1, Some(true), None), 0, 40, &[(5, 7), (9, 29)]),
        (
            in_pcid(1, None, Some(0x3000)),
            0,
            40,
            &[(0, 7), (9, 19), (30, 40)],
        ),
        (in_pcid(1, Some(true), Some(0x1000)), 0, 40, &[(20, 29)]),
        // The horizon and now cut them off.
        (in_pcid(1, None, None), 6, 10, &[(6, 7), (9, 10)]),
        (in_pcid(1, None, None), 40, 39, &[]),
    ];
    for (wanted, horizon, now, expected) in rows {
        let times = times_of(rt.alloc(), &past(), &wanted, horizon, now)?;
        check_times(&rt, &times, expected);
    }
    Ok(())
}

#[test]
fn each_root_stands_once_with_its_times(rt: HostRuntime) -> Result<(), Fail> {
    let roots = roots_of(rt.alloc(), &past(), 1, 0, 40)?;
    let expected: [(u64, &[Interval]); 2] = [
        (0x1000, &[(20, 29)]),
        (0x3000, &[(0, 7), (9, 19), (30, 40)]),
    ];
    assert_eq!(rt; roots.len(), expected.len());
    for ((root, times), (other, intervals)) in roots.iter().zip(expected) {
        assert_eq!(rt; *root, other);
        check_times(&rt, times, intervals);
    }
    Ok(())
}

#[test]
fn a_root_without_times_is_not_listed(rt: HostRuntime) -> Result<(), Fail> {
    let roots = roots_of(rt.alloc(), &past(), 1, 10, 19)?;
    assert_eq!(rt; roots.len(), 1);
    assert!(rt; roots.contains_key(&0x3000));
    assert!(rt; roots_of(rt.alloc(), &past(), 3, 0, 40)?.is_empty());
    Ok(())
}
