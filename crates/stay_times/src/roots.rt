//! The roots of a PCID, each with its times.

ghost use Rattle.std.specs.Prelude.{◌≡◌, ℕ, ◌≤◌, ◌==◌, ◌&&◌, ◌||◌, ◌⊎◌, List, Some, IfOk, OnOk, nat_le};
ghost use Rattle.std.specs.BTreeMap.{get};
ghost use Rattle.std.specs.Ordering.{nat_cmp};
ghost use Rattle.cache_rules.specs.Removals.{AreAscending};
ghost use Rattle.cache_rules.specs.Standing.{stay_in};
ghost use Rattle.stay_times.specs.Periods.{HasSomeTime, has_if, is_wanted_if, starts, under_root};
ghost use Rattle.time_sets.specs.Sets.{is_within};

use crate::periods::period_of;
use cache_rules::Stay;
use std::alloc::{AllocError, Global};
use std::collections::BTreeMap;
use time_sets::{Interval, Times};

/// The roots that the stays in a PCID have from a horizon to now, each with the times at which it was the root. The
/// stays are in ascending order.
///
/// # Errors
///
/// Out of memory.
pub fn roots_of(
    alloc: Global,
    past: &[Stay],
    pcid: u16,
    horizon: u32,
    now: u32,
) -> Result<BTreeMap<u64, Times>, AllocError>
    requires { AreAscending 0 (starts past.now) }
    ensures times { IfOk result (λ roots. (root t : ℕ) → has_if (get nat_cmp roots root) t
        ≡ (nat_le horizon t && (nat_le t now
        && is_wanted_if (under_root pcid root) (stay_in past.now t)))) }
    ensures some { IfOk result (λ roots. (root : ℕ) (times : List (ℕ × ℕ))
        → get nat_cmp roots root ≡ Some times → HasSomeTime times) }
{
    let mut roots = BTreeMap::new(alloc);
    for i in 0..past.len() {
        let period = period_of(past, i, horizon, now);
        add_if(
            alloc,
            &mut roots,
            past[i].pcid == pcid,
            past[i].root,
            period,
        )?;
    }
    Ok(roots)
}

/// Adds the times of a period that is wanted to those of a root, where it has any.
fn add_if(
    alloc: Global,
    roots: &mut BTreeMap<u64, Times>,
    wanted: bool,
    root: u64,
    period: Interval,
) -> Result<(), AllocError>
    ensures times { OnOk result ((one t : ℕ) → has_if (get nat_cmp roots.new one) t
        ≡ (has_if (get nat_cmp roots.old one) t
        || ((wanted && (one == root)) && is_within period t))) }
    ensures some { OnOk result ((one : ℕ) (times : List (ℕ × ℕ))
        → get nat_cmp roots.new one ≡ Some times
        → (get nat_cmp roots.old one ≡ Some times) ⊎ HasSomeTime times) }
{
    let (first, last) = period;
    if wanted && first <= last {
        add_times(alloc, roots, root, first, last)?;
    }
    Ok(())
}

/// Adds the times from `first` to `last` to those of a root.
fn add_times(
    alloc: Global,
    roots: &mut BTreeMap<u64, Times>,
    root: u64,
    first: u32,
    last: u32,
) -> Result<(), AllocError>
    requires { first ≤ last }
    ensures times { OnOk result ((one t : ℕ) → has_if (get nat_cmp roots.new one) t
        ≡ (has_if (get nat_cmp roots.old one) t || ((one == root) && is_within (first, last) t))) }
    ensures some { OnOk result ((one : ℕ) (times : List (ℕ × ℕ))
        → get nat_cmp roots.new one ≡ Some times
        → (get nat_cmp roots.old one ≡ Some times) ⊎ HasSomeTime times) }
{
    if let Some(times) = roots.get_mut(&root) {
        times.add(first, last)?;
        return Ok(());
    }
    let mut times = Times::new(alloc);
    times.add(first, last)?;
    roots.insert(root, times)?;
    Ok(())
}
