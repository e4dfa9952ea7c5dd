//! Sets of a few intervals, and random sets beside plain sets of bits.

ghost use Rattle.std.specs.Prelude.{◌≤◌, ◌<◌};

use super::*;
use std::alloc::{AllocError, Global};
use std::process::Abort;
use std::test::Fail;

/// The set of these intervals, added in their order.
fn times_of(rt: &impl Abort, alloc: Global, intervals: &[Interval]) -> Result<Times, AllocError> {
    let mut times = Times::new(alloc);
    for &(first, last) in intervals {
        assert!(rt; first <= last);
        times.add(first, last)?;
    }
    Ok(times)
}

/// Asserts that two lists of intervals are equal.
fn check_intervals(rt: &impl Abort, found: &[Interval], expected: &[Interval]) {
    assert_eq!(rt; found.len(), expected.len());
    for (one, other) in found.iter().zip(expected) {
        assert_eq!(rt; *one, *other);
    }
}

#[test]
fn an_interval_is_added_before_after_within_and_across_others(rt: HostRuntime) -> Result<(), Fail> {
    let alloc = rt.alloc();
    let rows: [(&[Interval], &[Interval]); 9] = [
        // apart from the last one, and one number short of it
        (&[(3, 5), (7, 9)], &[(3, 5), (7, 9)]),
        // touches, overlaps and lies in the last one
        (&[(3, 5), (6, 9)], &[(3, 9)]),
        (&[(3, 5), (4, 9)], &[(3, 9)]),
        (&[(3, 9), (4, 5)], &[(3, 9)]),
        // is before the others, touches the first, and lies between two
        (&[(7, 9), (3, 5)], &[(3, 5), (7, 9)]),
        (&[(7, 9), (3, 6)], &[(3, 9)]),
        (&[(1, 2), (9, 9), (5, 6)], &[(1, 2), (5, 6), (9, 9)]),
        // joins two, and covers all
        (&[(1, 2), (9, 9), (3, 8)], &[(1, 9)]),
        (
            &[(2, 2), (4, 4), (6, 6), (8, 8), (10, 10), (1, 11)],
            &[(1, 11)],
        ),
    ];
    for (added, expected) in rows {
        let times = times_of(&rt, alloc, added)?;
        check_intervals(&rt, times.intervals(), expected);
    }
    Ok(())
}

#[test]
fn the_least_and_the_greatest_number_are_as_any_other(rt: HostRuntime) -> Result<(), Fail> {
    let alloc = rt.alloc();
    const END: u32 = u32::MAX;
    let ends = times_of(&rt, alloc, &[(0, 0), (END, END)])?;
    check_intervals(&rt, ends.intervals(), &[(0, 0), (END, END)]);
    assert!(rt; ends.has(0) && !ends.has(1) && !ends.has(END - 1) && ends.has(END));
    let rest = times_of(&rt, alloc, &[(1, END - 1)])?;
    assert!(rt; ends.meet(&rest)?.is_empty());
    check_intervals(&rt, ends.join(&rest)?.intervals(), &[(0, END)]);
    let all = times_of(&rt, alloc, &[(0, END), (0, END), (END, END), (0, 0)])?;
    check_intervals(&rt, all.intervals(), &[(0, END)]);
    check_intervals(&rt, all.meet(&ends)?.intervals(), ends.intervals());
    Ok(())
}

#[test]
fn a_part_has_the_numbers_of_its_range_alone(rt: HostRuntime) -> Result<(), Fail> {
    let alloc = rt.alloc();
    let other = times_of(&rt, alloc, &[(1, 3), (5, 7), (9, 9), (20, 29)])?;
    let rows: [(u32, u32, &[Interval]); 6] = [
        (4, 8, &[(5, 7)]),
        (3, 5, &[(3, 3), (5, 5)]),
        (6, 6, &[(6, 6)]),
        (0, 40, &[(1, 3), (5, 7), (9, 9), (20, 29)]),
        (10, 19, &[]),
        (30, 31, &[]),
    ];
    for (first, last, expected) in rows {
        assert!(rt; first <= last);
        let mut times = Times::new(alloc);
        times.add_part(&other, first, last)?;
        check_intervals(&rt, times.intervals(), expected);
    }
    let mut times = times_of(&rt, alloc, &[(2, 5), (30, 30)])?;
    times.add_part(&other, 6, 25)?;
    check_intervals(
        &rt,
        times.intervals(),
        &[(2, 7), (9, 9), (20, 25), (30, 30)],
    );
    Ok(())
}

#[test]
fn a_new_set_is_empty(rt: HostRuntime) -> Result<(), Fail> {
    let mut times = Times::new(rt.alloc());
    assert!(rt; times.is_empty() && !times.has(0) && times.intervals().is_empty());
    times.add(5, 5)?;
    assert!(rt; !times.is_empty() && times.has(5));
    Ok(())
}

/// A set of numbers below 64, and the same numbers as bits.
#[derive(Drop)]
struct Pair {
    times: Times,
    bits: u64,
}

/// The numbers from `first` to `last` as bits.
fn bits_of(first: u32, last: u32) -> u64
    requires order { first ≤ last }
    requires below { last < 64 }
{
    (u64::MAX >> (63 - last)) & (u64::MAX << first)
}

/// Asserts that a set has the numbers of its bits, in intervals that don't touch.
fn check_pair(rt: &impl Abort, pair: &Pair) {
    for t in 0..64u32 {
        assert_eq!(rt; pair.times.has(t), pair.bits >> t & 1 == 1, "at {t}");
    }
    assert_eq!(rt; pair.times.is_empty(), pair.bits == 0);
    let mut bits = 0;
    let mut next = 0;
    for &(first, last) in pair.times.intervals() {
        assert!(rt; next <= first && first <= last && last < 64);
        bits |= bits_of(first, last);
        next = last + 2;
    }
    assert_eq!(rt; bits, pair.bits);
}

/// The next number of a linear congruential generator.
fn next_random(random: u64) -> u64 {
    random
        .wrapping_mul(6_364_136_223_846_793_005)
        .wrapping_add(1_442_695_040_888_963_407)
}

/// The first pair after a random operation. Mostly it has one interval more, else what both pairs have in common, or
/// what either has, or a part of the other's, or nothing.
fn random_step(
    alloc: Global,
    random: u64,
    mut one: Pair,
    other: &Pair,
) -> Result<Pair, AllocError> {
    match random >> 60 {
        0 => Ok(Pair {
            times: Times::new(alloc),
            bits: 0,
        }),
        1..=3 => Ok(Pair {
            times: one.times.meet(&other.times)?,
            bits: one.bits & other.bits,
        }),
        4..=5 => Ok(Pair {
            times: one.times.join(&other.times)?,
            bits: one.bits | other.bits,
        }),
        more => {
            let first = (random >> 32) as u32 % 64;
            let last = (first + (random >> 48) as u32 % 6).min(63);
            if more == 6 {
                one.times.add_part(&other.times, first, last)?;
                one.bits |= other.bits & bits_of(first, last);
            } else {
                one.times.add(first, last)?;
                one.bits |= bits_of(first, last);
            }
            Ok(one)
        }
    }
}

#[test]
fn random_sets_have_the_numbers_of_plain_sets(rt: HostRuntime) -> Result<(), Fail> {
    let alloc = rt.alloc();
    let mut one = Pair {
        times: Times::new(alloc),
        bits: 0,
    };
    let mut other = Pair {
        times: Times::new(alloc),
        bits: 0,
    };
    let mut random = 1;
    let mut most = 0;
    for _ in 0u32..1000 {
        random = next_random(random);
        let next = random_step(alloc, random, one, &other)?;
        check_pair(&rt, &next);
        most = most.max(next.times.intervals().len());
        one = other;
        other = next;
    }
    // Some sets have more intervals than stand in the set itself.
    assert!(rt; most > 6, "at most {most} intervals");
    Ok(())
}
