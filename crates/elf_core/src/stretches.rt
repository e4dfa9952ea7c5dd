//! How memory goes on from an address: which segment counts there, and up to where.

ghost use Rattle.std.specs.Prelude.{◌≡◌, All};
ghost use Rattle.paging_model.specs.Memory.{IsPlaced};
ghost use Rattle.elf_core.specs.Extents.{extents};
ghost use Rattle.elf_core.specs.Covering.{first_covering, IsStretchAt};
ghost use Rattle.elf_core.specs.Changes.{AreChanges};

use crate::changes::{Change, owner_until};
use crate::segment::Segment;

/// Memory from an address on, as far as it is alike.
#[derive(Clone, Copy, Debug)]
pub enum Stretch<'a> {
    /// Bytes that one segment is the first to cover, as many as there are: one at least.
    Known(&'a [u8]),
    /// So many unknown bytes: one at least.
    Unknown(u64),
}

/// How memory goes on from an address, by a look at each segment.
pub(crate) fn stretch_by_scan<'a>(segments: &[Segment<'a>], at: u64) -> Stretch<'a>
    requires { All IsPlaced (extents segments.now) }
    ensures { IsStretchAt (extents segments.now) at result }
{
    let mut end = u64::MAX;
    for segment in segments {
        if at < segment.phys {
            end = end.min(segment.phys);
        } else if at - segment.phys < segment.bytes.len() as u64 {
            let bytes = &segment.bytes[(at - segment.phys) as usize..];
            return Stretch::Known(&bytes[..bytes.len().min((end - at) as usize)]);
        }
    }
    Stretch::Unknown((end - at).max(1))
}

/// How memory goes on from an address, by a search of all changes.
#[inline]
pub(crate) fn stretch_by_changes<'a>(
    segments: &[Segment<'a>],
    changes: &[Change],
    at: u64,
) -> Stretch<'a>
    requires placed { All IsPlaced (extents segments.now) }
    requires changes { AreChanges (first_covering (extents segments.now)) changes.now }
    ensures { IsStretchAt (extents segments.now) at result }
{
    let (owner, end) = owner_until(changes, at);
    match owner {
        Some(index) => {
            let segment = &segments[index];
            let bytes = &segment.bytes[(at - segment.phys) as usize..];
            Stretch::Known(&bytes[..bytes.len().min((end - at) as usize)])
        }
        None => Stretch::Unknown((end - at).max(1)),
    }
}
