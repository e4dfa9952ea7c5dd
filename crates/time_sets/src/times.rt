//! A set of times.

ghost use Rattle.std.specs.Prelude.{◌≡◌, ◌↔◌, ℕ, ◌≤◌, ◌&&◌, ◌||◌, [], IfOk, OnOk, OnErr, IsOk, IsTrue, false};
ghost use Rattle.time_sets.specs.Ends.{BeginsAtLast};
ghost use Rattle.time_sets.specs.Sets.{AreApartFrom, has_time, is_within};

use crate::intersection::intersection_of;
use crate::intervals::{
    Interval, Intervals, count_before, is_after_all, is_at_last, is_in, lengthen_last,
};
use crate::union::union_of;
use std::alloc::{AllocError, Global};
use std::marker::Model;

/// A set of numbers, as intervals in ascending order. No two of them overlap or touch.
///
/// Four intervals take no memory beside the set itself.
#[derive(Drop)]
pub struct Times {
    intervals: Intervals,
}

impl Model for Times {
    ghost use Rattle.std.specs.Prelude.{List, ℕ};
    ghost use Rattle.time_sets.specs.Sets.{AreApartFrom};

    ghost Value = { List (ℕ × ℕ) };

    ghost view = { λ times. times.intervals.items };

    ghost invariant = { λ times. AreApartFrom 0 times.intervals.items };
}

impl Times {
    /// The empty set. It takes no memory.
    pub fn new(alloc: Global) -> Times
        ensures { result ≡ [] }
    {
        Times {
            intervals: Intervals::new(alloc),
        }
    }

    /// Adds the numbers from `first` to `last`.
    ///
    /// That takes constant time where `first` isn't before the last interval, and else linear time. Where `first` is in
    /// the last interval or right after it, it takes no memory.
    ///
    /// # Errors
    ///
    /// Out of memory, the set is unchanged.
    pub fn add(&mut self, first: u32, last: u32) -> Result<(), AllocError>
        requires { first ≤ last }
        ensures members { OnOk result ((t : ℕ)
            → has_time self.new t ≡ (has_time self.old t || is_within (first, last) t)) }
        ensures at_last { BeginsAtLast self.old first → IsOk result }
        ensures unchanged { OnErr result (self.new ≡ self.old) }
    {
        if is_after_all(self.intervals.as_slice(), first) {
            self.intervals.push((first, last))?;
            return Ok(());
        }
        if is_at_last(self.intervals.as_slice(), first) {
            lengthen_last(&mut self.intervals, last);
            return Ok(());
        }
        let alloc = *self.intervals.allocator();
        self.intervals = union_of(alloc, self.intervals.as_slice(), &[(first, last)])?;
        Ok(())
    }

    /// Adds the numbers of another set that lie from `first` to `last`.
    ///
    /// They are found in logarithmic time, and each of their intervals is added as by `add`.
    ///
    /// # Errors
    ///
    /// Out of memory, only some of them are added.
    pub fn add_part(&mut self, other: &Times, first: u32, last: u32) -> Result<(), AllocError>
        requires { first ≤ last }
        ensures { OnOk result ((t : ℕ) → has_time self.new t
            ≡ (has_time self.old t || (is_within (first, last) t && has_time other.now t))) }
    {
        let intervals = other.intervals();
        for number in count_before(intervals, first)..intervals.len() {
            let (other_first, other_last) = intervals[number];
            if other_first > last {
                return Ok(());
            }
            self.add(other_first.max(first), other_last.min(last))?;
        }
        Ok(())
    }

    /// The numbers in both sets, in time linear in their intervals.
    ///
    /// # Errors
    ///
    /// Out of memory.
    pub fn meet(&self, other: &Times) -> Result<Times, AllocError>
        ensures { IfOk result (λ times. (t : ℕ)
            → has_time times t ≡ (has_time self.now t && has_time other.now t)) }
    {
        Ok(Times {
            intervals: intersection_of(
                *self.intervals.allocator(),
                self.intervals.as_slice(),
                other.intervals.as_slice(),
            )?,
        })
    }

    /// The numbers in either set, in time linear in their intervals.
    ///
    /// # Errors
    ///
    /// Out of memory.
    pub fn join(&self, other: &Times) -> Result<Times, AllocError>
        ensures { IfOk result (λ times. (t : ℕ)
            → has_time times t ≡ (has_time self.now t || has_time other.now t)) }
    {
        Ok(Times {
            intervals: union_of(
                *self.intervals.allocator(),
                self.intervals.as_slice(),
                other.intervals.as_slice(),
            )?,
        })
    }

    /// Whether a number is in the set, in time logarithmic in its intervals.
    pub fn has(&self, t: u32) -> bool
        ensures { result ≡ has_time self.now t }
    {
        is_in(self.intervals.as_slice(), t)
    }

    /// Whether no number is in the set.
    pub fn is_empty(&self) -> bool
        ensures { IsTrue result ↔ ((t : ℕ) → has_time self.now t ≡ false) }
    {
        self.intervals.is_empty()
    }

    /// The intervals in ascending order: the first and the last number of each.
    pub fn intervals(&self) -> &[Interval]
        ensures same { result.now ≡ self.now }
        ensures apart { AreApartFrom 0 result.now }
    {
        self.intervals.as_slice()
    }
}
