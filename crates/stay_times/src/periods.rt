//! From stays to times.

ghost use Rattle.std.specs.Prelude.{◌≡◌, ℕ, ◌+◌, ◌<◌, ◌≤◌, ◌&&◌, ◌||◌, IfOk, OnOk, drop, length, max, nat_le, slice_index_or};
ghost use Rattle.cache_rules.specs.Removals.{AreAscending};
ghost use Rattle.cache_rules.specs.Standing.{stay_in};
ghost use Rattle.cache_rules.specs.declared.stays.Stay.{Stay};
ghost use Rattle.stay_times.specs.Periods.{is_wanted_if, last_before, starts};
ghost use Rattle.time_sets.specs.Sets.{has_time, is_within};

use crate::wanted::{Wanted, is_wanted};
use cache_rules::Stay;
use std::alloc::{AllocError, Global};
use time_sets::{Interval, Times};

/// The times from a horizon to now at which the stay is one that is asked for. The stays are in ascending order.
///
/// # Errors
///
/// Out of memory.
pub fn times_of(
    alloc: Global,
    past: &[Stay],
    wanted: &Wanted,
    horizon: u32,
    now: u32,
) -> Result<Times, AllocError>
    requires { AreAscending 0 (starts past.now) }
    ensures { IfOk result (λ times. (t : ℕ) → has_time times t
        ≡ (nat_le horizon t && (nat_le t now && is_wanted_if wanted.now (stay_in past.now t)))) }
{
    let mut times = Times::new(alloc);
    for i in 0..past.len() {
        let period = period_of(past, i, horizon, now);
        add_if(&mut times, is_wanted(&past[i], wanted), period)?;
    }
    Ok(times)
}

/// The first and the last time from a horizon to now of the stay at a place. It has none where the first is after the
/// last.
pub(crate) fn period_of(past: &[Stay], i: usize, horizon: u32, now: u32) -> Interval
    requires { i < length past.now }
    ensures first { (stay : Stay) → result.0 ≡ max (slice_index_or past.now i stay).from horizon }
    ensures last { result.1 ≡ last_before (drop (i + 1) past.now) now }
{
    let first = past[i].from.max(horizon);
    if i + 1 < past.len() {
        return (first, now.min(past[i + 1].from.saturating_sub(1)));
    }
    (first, now)
}

/// Adds the times of a period that is wanted, where it has any.
fn add_if(times: &mut Times, wanted: bool, period: Interval) -> Result<(), AllocError>
    ensures { OnOk result ((t : ℕ) → has_time times.new t
        ≡ (has_time times.old t || (wanted && is_within period t))) }
{
    let (first, last) = period;
    if wanted && first <= last {
        times.add(first, last)?;
    }
    Ok(())
}
