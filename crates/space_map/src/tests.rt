//! Spaces of small page tables built by hand.

ghost use Rattle.std.specs.Prelude.{◌≡◌, ◌<◌, ◌≤◌, ◌%◌, ◌^◌, length, ⊤};

mod limits;
mod listed;

use super::*;
use block_pool::Pool;
use elf_core::{Segment, Segments};
use paging_model::entries::Bits;
use paging_model::registers::Settings;
use paging_model::spaces::{Region, SpaceKey};
use phys_view::{Ledger, Reader, Steps, View, answer_and_steps};
use std::alloc::{AllocError, Global};
use std::process::Abort;

/// The bytes of memory, from physical address 0 on.
const SIZE: usize = 0x8000;

/// Memory from physical address 0 on in two segments, and eight-byte numbers that are written to it later.
#[derive(Clone, Copy)]
struct Memory<'a> {
    bytes: &'a [u8],
    /// Where the second segment begins.
    cut: usize,
    writes: &'a [(u64, u64)],
}

/// The building of a space.
struct Building<'a> {
    alloc: Global,
    segments: Segments<'a>,
    writes: &'a [(u64, u64)],
    key: SpaceKey,
    ghost aligned: { key.root % 4096 ≡ 0 },
    ghost below: { key.root < 2 ^ 52 },
}

impl<'a> Reader for Building<'a> {
    type Answer = Result<Space, SpaceFault>;

    ghost gives = { λ _ _. ⊤ };

    fn read<L: Ledger>(self, steps: &mut Steps<L>) -> Result<Space, SpaceFault> {
        let Building {
            alloc,
            segments,
            writes,
            key,
        } = self;
        let mut pool = Pool::new(alloc);
        let mut view: View<'_, L> = View::new(alloc, segments);
        for &(at, value) in writes {
            if view.write(&mut pool, at, &value.to_le_bytes()).is_err() {
                return Err(SpaceFault::Memory);
            }
        }
        Space::build(alloc, &view, key, steps)
    }
}

/// The key of a space with a physical width of 40, 1-GByte pages and execute-disable, and 5 levels or 4.
fn key(root: u64, la57: bool) -> SpaceKey {
    SpaceKey {
        root,
        settings: Settings {
            m: 40,
            big: true,
            la57,
            nxe: true,
        },
    }
}

/// Builds a space, and counts its steps by a ledger that really counts.
fn build(
    rt: &impl Abort,
    alloc: Global,
    memory: Memory<'_>,
    key: SpaceKey,
) -> Result<(Result<Space, SpaceFault>, u64), AllocError> {
    let Memory { bytes, cut, writes } = memory;
    assert!(rt; 0 < cut && cut < bytes.len() && bytes.len() <= SIZE);
    assert!(rt; key.root % 4096 == 0 && key.root < 1 << 52);
    let (lower, upper) = bytes.split_at(cut);
    let segments = Segments::from_vec(vec![in alloc;
        Segment {
            phys: 0,
            bytes: lower
        },
        Segment {
            phys: cut as u64,
            bytes: upper
        },
    ]?);
    Ok(answer_and_steps(Building {
        alloc,
        segments,
        writes,
        key,
    }))
}
