//! The numbers in both of two sets.

ghost use Rattle.std.specs.Prelude.{◌≡◌, ℕ, ◌&&◌, IfOk, OnOk};
ghost use Rattle.time_sets.specs.Sets.{AreApartFrom, has_time};
ghost use Rattle.time_sets.specs.Ends.{with_numbers};

use crate::intervals::{Interval, Intervals};
use std::alloc::{AllocError, Global};

/// The intersection of two lists of intervals.
pub(crate) fn intersection_of(
    alloc: Global,
    one: &[Interval],
    other: &[Interval],
) -> Result<Intervals, AllocError>
    requires one { AreApartFrom 0 one.now }
    requires other { AreApartFrom 0 other.now }
    ensures members { IfOk result (λ both. (t : ℕ)
        → has_time both.items t ≡ (has_time one.now t && has_time other.now t)) }
    ensures apart { IfOk result (λ both. AreApartFrom 0 both.items) }
{
    let mut both = Intervals::new(alloc);
    let (mut i, mut j) = (0, 0);
    while i < one.len() && j < other.len() {
        let (one_first, one_last) = one[i];
        let (other_first, other_last) = other[j];
        let first = one_first.max(other_first);
        let last = one_last.min(other_last);
        push_numbers(&mut both, first, last)?;
        // The list goes on whose interval can hold no more of the other's.
        if one_last < other_last {
            i += 1;
        } else {
            j += 1;
        }
    }
    Ok(both)
}

/// Adds the numbers from `first` to `last` at the end, where there are any.
fn push_numbers(both: &mut Intervals, first: u32, last: u32) -> Result<(), AllocError>
    ensures { OnOk result (both.new.items ≡ with_numbers both.old.items (first, last)) }
{
    if first <= last {
        both.push((first, last))?;
    }
    Ok(())
}
