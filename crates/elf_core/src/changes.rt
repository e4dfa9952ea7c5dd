//! The addresses at which the first segment that covers changes. A binary search of them tells which one covers an
//! address. They are made from those of both halves of the segments, in a time of n log n.

ghost use Rattle.std.specs.Prelude.{◌≡◌, ℕ, ◌+◌, ◌<◌, ◌≤◌, [], ◌∷◌, length, All, option_map, IfOk, Some, None};
ghost use Rattle.std.specs.Option.{option_or};
ghost use Rattle.paging_model.specs.Memory.{IsPlaced};
ghost use Rattle.elf_core.specs.Extents.{extent, extents};
ghost use Rattle.elf_core.specs.Covering.{first_covering};
ghost use Rattle.elf_core.specs.Changes.{owner_at, last_owner, first_from, next_from, AscendsFrom, AreChanges, IsRestAfter, StaysUntil};

use crate::segment::Segment;
use std::alloc::{AllocError, Global};

/// From an address on, up to the next change, a segment is the first to cover, or none covers.
#[derive(Clone, Copy, Debug)]
pub(crate) struct Change {
    from: u64,
    /// The segment's index.
    owner: Option<usize>,
}

/// What is left of a list of changes, and the owner before it.
#[derive(Clone, Copy)]
struct Rest<'a> {
    owner: Option<usize>,
    changes: &'a [Change],
}

/// The index of the first segment that covers an address, and an address up to which it is.
#[inline]
pub(crate) fn owner_until(changes: &[Change], at: u64) -> (Option<usize>, u64)
    requires { AscendsFrom 0 None changes.now }
    ensures { StaysUntil (owner_at changes.now) at result.1 result.0 }
{
    let passed = changes.partition_point(|change| change.from <= at);
    let end = first_from(&changes[passed..]).unwrap_or(u64::MAX);
    (last_owner(&changes[..passed]), end)
}

/// All changes of segments, of which the first has this index.
pub(crate) fn changes_of(
    alloc: Global,
    segments: &[Segment<'_>],
    index: usize,
) -> Result<Vec<Change>, AllocError>
    requires placed { All IsPlaced (extents segments.now) }
    requires count { index + length segments.now ≤ usize.MAX }
    ensures { IfOk result (λ changes. AreChanges
        (λ a. option_map (λ k. index + k) (first_covering (extents segments.now) a))
        changes.items) }
{
    match segments {
        [] => Ok(Vec::new(alloc)),
        [segment] => changes_of_one(alloc, segment, index),
        _ => {
            let middle = segments.len() / 2;
            let first = changes_of(alloc, &segments[..middle], index)?;
            let second = changes_of(alloc, &segments[middle..], index + middle)?;
            changes_of_both(alloc, &first, &second)
        }
    }
}

/// Both changes of one segment.
fn changes_of_one(
    alloc: Global,
    segment: &Segment<'_>,
    index: usize,
) -> Result<Vec<Change>, AllocError>
    requires { IsPlaced (extent segment.now) }
    ensures { IfOk result (λ changes. AreChanges
        (λ a. option_map (λ k. index + k) (first_covering (extent segment.now ∷ []) a))
        changes.items) }
{
    let start = Change {
        from: segment.phys,
        owner: Some(index),
    };
    let end = Change {
        from: segment.phys + segment.bytes.len() as u64,
        owner: None,
    };
    Ok(vec![in alloc; start, end]?)
}

/// The changes of two lists as one: where the first has no owner, that of the second counts.
fn changes_of_both(
    alloc: Global,
    first: &[Change],
    second: &[Change],
) -> Result<Vec<Change>, AllocError>
    requires first { AscendsFrom 0 None first.now }
    requires second { AscendsFrom 0 None second.now }
    ensures { IfOk result (λ changes. AreChanges
        (λ a. option_or (owner_at first.now a) (owner_at second.now a))
        changes.items) }
{
    let mut changes = Vec::new(alloc);
    let mut first = Rest {
        owner: None,
        changes: first,
    };
    let mut second = Rest {
        owner: None,
        changes: second,
    };
    'changes: while let Some(from) = next_from(first.changes, second.changes) {
        let before = first.owner.or(second.owner);
        first = first.after(from);
        second = second.after(from);
        let owner = first.owner.or(second.owner);
        if owner == before {
            continue;
        }
        changes.push(Change { from, owner })?;
    }
    Ok(changes)
}

impl<'a> Rest<'a> {
    /// What is left after an address that no change is before.
    fn after(self, at: u64) -> Rest<'a>
        requires { AscendsFrom at self.owner self.changes.now }
        ensures rest { IsRestAfter at self.entry result }
        ensures fewer { length result.changes.now ≤ length self.entry.changes.now }
        ensures passed { first_from self.entry.changes.now ≡ Some at
            → length result.changes.now < length self.entry.changes.now }
    {
        match self.changes.split_first() {
            Some((change, changes)) if change.from == at => Rest {
                owner: change.owner,
                changes,
            },
            _ => self,
        }
    }
}

/// The address of the first change of two lists.
fn next_from(first: &[Change], second: &[Change]) -> Option<u64>
    ensures { result ≡ next_from first.now second.now }
{
    match (first_from(first), first_from(second)) {
        (Some(one), Some(other)) => Some(one.min(other)),
        (next, None) | (None, next) => next,
    }
}

/// The address of the first change.
#[inline]
fn first_from(changes: &[Change]) -> Option<u64>
    ensures { result ≡ first_from changes.now }
{
    changes.first().map(|change| change.from)
}

/// The owner after all changes.
#[inline]
#[tactic(auto, using(crate::proofs::ChangeLists::last_owner_is))]
fn last_owner(changes: &[Change]) -> Option<usize>
    ensures { result ≡ last_owner None changes.now }
{
    match changes {
        [.., last] => last.owner,
        [] => None,
    }
}
