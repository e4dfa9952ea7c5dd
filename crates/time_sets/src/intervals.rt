//! Lists of intervals: which numbers are in them, and how they grow at their end.

ghost use Rattle.std.specs.Prelude.{◌≡◌, ◌↔◌, ◌+◌, ◌<◌, ◌≤◌, IsTrue, length};
ghost use Rattle.std.specs.List.Sorted.{IsPartitionPoint};
ghost use Rattle.time_sets.specs.Sets.{AreApartFrom, has_time};
ghost use Rattle.time_sets.specs.Ends.{BeginsAtLast, IsAfterLast, lengthen};

use smallvec::SmallVec;

/// The first and the last number of an interval. Both are in it.
pub type Interval = (u32, u32);

/// How many intervals a list holds without an allocation.
const INLINE: usize = 4;

/// A list of intervals.
pub(crate) type Intervals = SmallVec<Interval, INLINE>;

/// How many intervals of a list end before a number.
pub(crate) fn count_before(intervals: &[Interval], t: u32) -> usize
    requires { AreApartFrom 0 intervals.now }
    ensures within { result ≤ length intervals.now }
    ensures point { IsPartitionPoint (λ one. one.1 < t) (λ one. t ≤ one.1) intervals.now result }
{
    intervals.partition_point(|interval| interval.1 < t)
}

/// Whether a number is in one of the intervals: the first that doesn't end before it is the only one that can hold it.
pub(crate) fn is_in(intervals: &[Interval], t: u32) -> bool
    requires { AreApartFrom 0 intervals.now }
    ensures { result ≡ has_time intervals.now t }
{
    let place = count_before(intervals, t);
    place < intervals.len() && intervals[place].0 <= t
}

/// Whether a number is after all intervals, and doesn't touch the last.
pub(crate) fn is_after_all(intervals: &[Interval], first: u32) -> bool
    ensures { IsTrue result → IsAfterLast intervals.now first }
{
    let Some((_, end)) = intervals.last() else {
        return true;
    };
    *end < first && first - *end > 1
}

/// Whether a number is in the last interval, or right after it.
pub(crate) fn is_at_last(intervals: &[Interval], first: u32) -> bool
    ensures { IsTrue result ↔ BeginsAtLast intervals.now first }
{
    let Some((begin, end)) = intervals.last() else {
        return false;
    };
    *begin <= first && (first <= *end || first - *end == 1)
}

/// Lets the last interval end at a number, unless it ends after it.
pub(crate) fn lengthen_last(intervals: &mut Intervals, last: u32)
    requires { 0 < length intervals.old.items }
    ensures { intervals.new.items ≡ lengthen intervals.old.items last }
{
    let end = intervals.len() - 1;
    let intervals = intervals.as_mut_slice();
    intervals[end].1 = intervals[end].1.max(last);
}
