//! The numbers in either of two sets.

ghost use Rattle.std.specs.Prelude.{◌≡◌, ℕ, ◌<◌, ◌≤◌, ◌⊎◌, ◌||◌, true, false, IfOk, length};
ghost use Rattle.time_sets.specs.Sets.{AreApartFrom, has_time};
ghost use Rattle.time_sets.specs.Unions.{ComesFirst, IsAbsorbed};

use crate::intervals::{Interval, Intervals};
use std::alloc::{AllocError, Global};

/// The union of two lists of intervals.
pub(crate) fn union_of(
    alloc: Global,
    one: &[Interval],
    other: &[Interval],
) -> Result<Intervals, AllocError>
    requires one { AreApartFrom 0 one.now }
    requires other { AreApartFrom 0 other.now }
    ensures members { IfOk result (λ all. (t : ℕ)
        → has_time all.items t ≡ (has_time one.now t || has_time other.now t)) }
    ensures apart { IfOk result (λ all. AreApartFrom 0 all.items) }
{
    if one.is_empty() {
        return Intervals::from_slice(alloc, other);
    }
    if other.is_empty() {
        return Intervals::from_slice(alloc, one);
    }
    let mut all = Intervals::new(alloc);
    // The interval that grows. It begins with the first of all, which the loop comes to once more.
    let mut growing = if one[0].0 <= other[0].0 {
        one[0]
    } else {
        other[0]
    };
    let (mut i, mut j) = (0, 0);
    while i < one.len() || j < other.len() {
        if is_of_one(one, i, other, j) {
            growing = absorb(&mut all, growing, one[i])?;
            i += 1;
        } else {
            growing = absorb(&mut all, growing, other[j])?;
            j += 1;
        }
    }
    all.push(growing)?;
    Ok(all)
}

/// Whether the next interval of two lists, by the first number, is in `one`.
fn is_of_one(one: &[Interval], i: usize, other: &[Interval], j: usize) -> bool
    requires { (i < length one.now) ⊎ (j < length other.now) }
    ensures one { result ≡ true → ComesFirst one.now i other.now j }
    ensures other { result ≡ false → ComesFirst other.now j one.now i }
{
    if i < one.len() && j < other.len() {
        return one[i].0 <= other[j].0;
    }
    i < one.len()
}

/// Makes one interval of the growing one and the next where they overlap or touch. Else the growing one is complete,
/// and the next grows.
fn absorb(all: &mut Intervals, growing: Interval, next: Interval) -> Result<Interval, AllocError>
    requires growing { growing.0 ≤ growing.1 }
    requires next { next.0 ≤ next.1 }
    requires order { growing.0 ≤ next.0 }
    ensures { IfOk result (λ now. IsAbsorbed all.old.items growing next all.new.items now) }
{
    if next.0 > growing.1 && next.0 - growing.1 > 1 {
        all.push(growing)?;
        return Ok(next);
    }
    Ok((growing.0, growing.1.max(next.1)))
}
