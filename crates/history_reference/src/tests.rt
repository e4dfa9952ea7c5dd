//! Histories that were worked out by hand, and random ones, of which the manual's rules say something.

mod by_chance;
mod by_hand;

use crate::moments::{Beginning, Moment, moment_after};
use history_model::events::Event;
use paging_model::byte_strings::Payload;
use paging_model::entries::Bits;
use paging_model::registers::{Machine, Processor, RegChange, Regs};
use paging_reference::physical_memory::KnownBytes;
use std::alloc::{AllocError, Global};
use test_support::fields::put;
use test_support::registers::REGS;

/// Everything is allowed.
const ALL: Bits = Bits {
    write: true,
    user: true,
    xd: false,
};

/// CR4 with physical-address extension, PCIDs and global pages.
const CR4: u64 = 0x200a0;

/// The moment before the first event: processors 0 and 1 with these registers, and 0x9000 bytes of memory from physical
/// address 0 on, with these entries.
fn first(alloc: Global, regs: Regs, entries: &[(usize, u64)]) -> Result<Moment, AllocError> {
    let mut bytes = vec![in alloc; 0; 0x9000]?;
    for &(at, value) in entries {
        put(&mut bytes, (at, 8, value));
    }
    let processors = [Processor { number: 0, regs }, Processor { number: 1, regs }];
    Ok(Moment::First(Beginning {
        extents: vec![in alloc; KnownBytes { start: 0, bytes }]?,
        stated: true,
        machine: Machine::new(40, true),
        processors: processors.to_vec(alloc)?,
    }))
}

/// The moment after an entry was written.
fn after_write(alloc: Global, moment: Moment, at: u64, value: u64) -> Result<Moment, AllocError> {
    let bytes = Payload::from_vec(value.to_le_bytes().to_vec(alloc)?);
    moment_after(alloc, moment, Event::Write { at, bytes })
}

/// The moment after a register was changed.
fn after_set(
    alloc: Global,
    moment: Moment,
    cpu: u32,
    change: RegChange,
) -> Result<Moment, AllocError> {
    moment_after(alloc, moment, Event::Set { cpu, change })
}
