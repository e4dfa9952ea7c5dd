//! The parts of a core that are known memory.

ghost use Rattle.std.specs.Prelude.{◌≡◌, ◌++◌, [], ◌∷◌, All, OnOk, OnErr};
ghost use Rattle.paging_model.specs.Memory.{IsPlaced};
ghost use Rattle.elf_core.specs.Covering.{IsStretchAt};

use crate::changes::{Change, changes_of};
use crate::segment::Segment;
use crate::stretches::{Stretch, stretch_by_changes, stretch_by_scan};
use std::alloc::{AllocError, Global};
use std::marker::Model;

/// So many segments are looked at one by one sooner than their changes are searched.
const FEW: usize = 32;

/// Segments in the order of their headers. Each has bytes, and ends at 2 to the 52 at most.
///
/// Contracts see the list of them as extents of physical memory.
#[derive(Debug, Drop)]
pub struct Segments<'a> {
    items: Vec<Segment<'a>>,
    /// All changes of the first segment that covers, if the list is indexed.
    changes: Option<Vec<Change>>,
}

impl<'a> Model for Segments<'a> {
    ghost use Rattle.std.specs.Prelude.{List, All};
    ghost use Rattle.std.specs.Option.{ForSome};
    ghost use Rattle.paging_model.specs.Memory.{Extent, IsPlaced};
    ghost use Rattle.elf_core.specs.Extents.{extents};
    ghost use Rattle.elf_core.specs.Covering.{first_covering};
    ghost use Rattle.elf_core.specs.Changes.{AreChanges};

    ghost Value = { List Extent };

    ghost view = { λ s. extents s.items.items };

    ghost invariant = { λ s. All IsPlaced (extents s.items.items)
        × ForSome s.changes (λ c. AreChanges (first_covering (extents s.items.items)) c.items) };
}

impl<'a> Segments<'a> {
    ghost use Rattle.elf_core.specs.Extents.{extent, extents};

    /// No segments.
    pub fn new(alloc: Global) -> Segments<'a>
        ensures { result ≡ [] }
    {
        Segments {
            items: Vec::new(alloc),
            changes: None,
        }
    }

    /// Takes ownership of the list.
    pub fn from_vec(items: Vec<Segment<'a>>) -> Segments<'a>
        requires { All IsPlaced (extents items.items) }
        ensures { result ≡ extents items.entry.items }
    {
        let changes = None;
        Segments { items, changes }
    }

    /// Borrows the list.
    pub fn as_slice(&self) -> &[Segment<'a>]
        ensures value { extents result.now ≡ self.now }
        ensures placed { All IsPlaced self.now }
    {
        self.items.as_slice()
    }

    /// How memory goes on from an address: where segments overlap, the first in order counts.
    #[inline]
    pub fn stretch(&self, at: u64) -> Stretch<'a>
        ensures { IsStretchAt self.now at result }
    {
        match &self.changes {
            Some(changes) => stretch_by_changes(&self.items, changes, at),
            None => stretch_by_scan(&self.items, at),
        }
    }

    /// Makes the time of `stretch` logarithmic in the number of segments, up to the next `push`.
    pub fn index(&mut self, alloc: Global) -> Result<(), AllocError>
        ensures { self.new ≡ self.old }
    {
        if self.items.len() > FEW {
            self.changes = Some(changes_of(alloc, &self.items, 0)?);
        }
        Ok(())
    }

    /// Adds a segment after the others.
    pub fn push(&mut self, segment: Segment<'a>) -> Result<(), AllocError>
        requires { IsPlaced (extent segment) }
        ensures ok { OnOk result (self.new ≡ self.old ++ extent segment.entry ∷ []) }
        ensures err { OnErr result (self.new ≡ self.old) }
    {
        self.changes = None;
        self.items.push(segment)?;
        Ok(())
    }
}
