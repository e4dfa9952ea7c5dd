//! Walks of small page tables built by hand, and random walks compared with a plain reading of the manual.

ghost use Rattle.std.specs.Prelude.{◌≡◌, ◌<◌, ◌≤◌, ◌%◌, ◌^◌, length, ⊤};

mod by_hand;
mod by_the_text;

use super::*;
use elf_core::{Segment, Segments};
use paging_model::entries::Bits;
use paging_model::registers::Settings;
use paging_model::walks::{Page, Walk};
use phys_view::{Ledger, Reader, Steps, View, answer_and_steps};
use std::alloc::{AllocError, Global};
use std::process::Abort;

/// The bytes of memory, from physical address 0 on.
const SIZE: usize = 0x8000;

/// The settings of a physical width of 40, with 1-GByte pages, 5 levels and execute-disable or without.
fn settings(big: bool, la57: bool, nxe: bool) -> Settings {
    Settings {
        m: 40,
        big,
        la57,
        nxe,
    }
}

/// Bytes of memory from physical address 0 on.
fn segments<'a>(alloc: Global, bytes: &'a [u8]) -> Result<Segments<'a>, AllocError>
    requires some { 0 < length bytes.now }
    requires most { length bytes.now ≤ SIZE }
{
    Ok(Segments::from_vec(vec![in alloc; Segment { phys: 0, bytes }]?))
}

/// A walk over segments.
struct WalkRead<'a> {
    alloc: Global,
    segments: Segments<'a>,
    settings: &'a Settings,
    root: u64,
    address: u64,
    ghost aligned: { root % 4096 ≡ 0 },
    ghost below: { root < 2 ^ 52 },
}

impl<'a> Reader for WalkRead<'a> {
    type Answer = Walk;

    ghost gives = { λ _ _. ⊤ };

    fn read<L: Ledger>(self, steps: &mut Steps<L>) -> Walk {
        let WalkRead {
            alloc,
            segments,
            settings,
            root,
            address,
        } = self;
        let view: View<'_, L> = View::new(alloc, segments);
        walk(&view, settings, root, address, steps)
    }
}

/// How the walk over these bytes ends, and its steps as a ledger counts them that really counts.
fn walk_and_steps(
    rt: &impl Abort,
    alloc: Global,
    bytes: &[u8],
    settings: &Settings,
    root: u64,
    address: u64,
) -> Result<(Walk, u64), AllocError> {
    assert!(rt; !bytes.is_empty() && bytes.len() <= SIZE);
    assert!(rt; root % 4096 == 0 && root < 1 << 52);
    let segments = segments(alloc, bytes)?;
    Ok(answer_and_steps(WalkRead {
        alloc,
        segments,
        settings,
        root,
        address,
    }))
}
