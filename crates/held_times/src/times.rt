//! The times at which what was made is held, and whether it is held now.

ghost use Rattle.std.specs.Prelude.{◌≡◌, ℕ, ◌<◌, ◌≤◌, ◌↔◌, true, false, IfOk, IsTrue};
ghost use Rattle.cache_rules.specs.Removals.{removed_in};
ghost use Rattle.held_times.specs.HeldTimes.{IsHeldAt, IsHeldTo, IsLastTime};
ghost use Rattle.time_sets.specs.Sets.{has_time};

use cache_rules::Host;
use history_model::caches::CacheKey;
use std::alloc::{AllocError, Global};
use time_sets::Times;

/// The times up to now at which a processor holds what it made at some times. The level of the key is 1 to 5.
///
/// # Errors
/// If the allocator fails.
pub fn held_times(
    alloc: Global,
    host: &Host,
    key: &CacheKey,
    made: &Times,
    now: u32,
) -> Result<Times, AllocError>
    requires least { 1 ≤ key.now.level }
    requires most { key.now.level ≤ 5 }
    requires within { (t : ℕ) → has_time made.now t ≡ true → t ≤ now }
    ensures { IfOk result (λ times. (u : ℕ) → has_time times u ≡ true
        ↔ IsHeldAt (removed_in host.now.removals key.now) made.now now u) }
{
    let mut held = Times::new(alloc);
    for (first, last) in made.intervals() {
        held.add(*first, held_to(host, key, *last, now))?;
    }
    Ok(held)
}

/// Whether a processor holds now what it made at some times: the last of them tells. The level of the key is 1 to 5.
pub fn is_held(host: &Host, key: &CacheKey, made: &Times, now: u32) -> bool
    requires least { 1 ≤ key.now.level }
    requires most { key.now.level ≤ 5 }
    requires within { (t : ℕ) → has_time made.now t ≡ true → t ≤ now }
    ensures { IsTrue result ↔ IsHeldAt (removed_in host.now.removals key.now) made.now now now }
{
    let Some(last) = last_time(made) else {
        return false;
    };
    is_spared(host, key, last, now)
}

/// The last time up to now at which what is there at `t` is held.
fn held_to(host: &Host, key: &CacheKey, t: u32, now: u32) -> u32
    requires least { 1 ≤ key.now.level }
    requires most { key.now.level ≤ 5 }
    requires within { t ≤ now }
    ensures { IsHeldTo (removed_in host.now.removals key.now) t now result }
{
    match host.next_after(key, t) {
        None => now,
        Some(removed) => now.min(removed - 1),
    }
}

/// The last time of a set.
fn last_time(times: &Times) -> Option<u32>
    ensures { IsLastTime times.now result }
{
    let intervals = times.intervals();
    let n = intervals.len();
    if n == 0 {
        return None;
    }
    Some(intervals[n - 1].1)
}

/// Whether nothing removes what has a key after a time, up to now.
fn is_spared(host: &Host, key: &CacheKey, t: u32, now: u32) -> bool
    requires least { 1 ≤ key.now.level }
    requires most { key.now.level ≤ 5 }
    ensures { IsTrue result ↔ ((v : ℕ) → t < v → v ≤ now
        → removed_in host.now.removals key.now v ≡ false) }
{
    match host.next_after(key, t) {
        None => true,
        Some(removed) => removed > now,
    }
}
