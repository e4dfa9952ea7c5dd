//! Writes to memory: a page that is written to gets a block of its own.

ghost use Rattle.std.specs.Prelude.{◌≡◌, ◌≢◌, ◌+◌, ◌%◌, ◌≤◌, length, Err, Some, OnOk, OnErr, IfOk, IfErr};
ghost use Rattle.phys_view.specs.Writes.{HasKnown, LeavesAll, RunsOutAtWrite, WritesBytes, refusal_of_write, step_fault_of};

use crate::steps::Ledger;
use crate::view::{PAGE_LEN, View};
use block_pool::{BLOCK_LEN, Block, Pool};
use elf_core::Stretch;
use history_model::faults::StepFault;
use std::alloc::AllocError;
use thiserror::Error;

/// How many pages may be written to.
const PAGE_LIMIT: usize = 262_144;

/// Why bytes can't be written: the first reason in this order.
#[derive(Clone, Copy, Debug, PartialEq, Eq, Error)]
pub enum WriteFault {
    /// The byte at this physical address is the first of them that isn't known.
    #[error("unknown {0:#x}")]
    Unknown(u64),
    /// They go on to the page at this physical address.
    #[error("crosses {0:#x}")]
    Crosses(u64),
    /// Their page is one too many: 262,144 others have been written to.
    #[error("overlay full")]
    OverlayFull,
    /// Out of memory.
    #[error("out of memory")]
    Memory,
}

impl From<WriteFault> for StepFault {
    fn from(fault: WriteFault) -> StepFault
        ensures { result ≡ step_fault_of fault }
    {
        match fault {
            WriteFault::Unknown(at) => StepFault::Unknown(at),
            WriteFault::Crosses(page) => StepFault::Crosses(page),
            WriteFault::OverlayFull => StepFault::OverlayFull,
            WriteFault::Memory => StepFault::Memory,
        }
    }
}

impl<'a, L: Ledger> View<'a, L> {
    /// Replaces the bytes from an address on by others. Each view takes the blocks of its pages from one pool.
    ///
    /// # Errors
    ///
    /// The first reason for which they can't be written. View and pool are then as they were, but for a spare block
    /// that the pool may have more.
    pub fn write(&mut self, pool: &mut Pool, at: u64, bytes: &[u8]) -> Result<(), WriteFault>
        requires some { 1 ≤ length bytes.now }
        requires few { length bytes.now ≤ 4096 }
        ensures ok { OnOk result (WritesBytes self.old self.new pool.old pool.new at bytes.now) }
        ensures refused { IfErr result (λ fault. fault ≢ WriteFault.Memory
            → refusal_of_write self.old at (length bytes.now) ≡ Some (step_fault_of fault)) }
        ensures out_of_memory { result ≡ Err WriteFault.Memory
            → RunsOutAtWrite self.old at (length bytes.now) }
        ensures err { OnErr result (LeavesAll self.old self.new pool.old pool.new) }
    {
        if let Some(unknown) = self.first_unknown(at, bytes.len()) {
            return Err(WriteFault::Unknown(unknown));
        }
        let offset = (at % PAGE_LEN) as usize;
        let page = at - at % PAGE_LEN;
        if offset + bytes.len() > BLOCK_LEN {
            return Err(WriteFault::Crosses(page + PAGE_LEN));
        }
        let number = at / PAGE_LEN;
        if self.written.put(number, offset, bytes) {
            return Ok(());
        }
        if self.written.len() >= PAGE_LIMIT {
            return Err(WriteFault::OverlayFull);
        }
        let Ok(mut block) = self.block_of(pool, page) else {
            return Err(WriteFault::Memory);
        };
        block.put(offset, bytes);
        if let Err(block) = self.written.insert(number, block) {
            pool.give(block);
            return Err(WriteFault::Memory);
        }
        Ok(())
    }

    /// A block of the pool with the known bytes of a page that wasn't written to.
    fn block_of(&self, pool: &mut Pool, page: u64) -> Result<Block, AllocError>
        requires { page % 4096 ≡ 0 }
        ensures known { IfOk result (HasKnown self.now.extents page) }
        ensures len { IfOk result (λ block. length block ≡ 4096) }
        ensures ok { OnOk result (pool.new.live ≡ pool.old.live + 1) }
        ensures err { OnErr result (pool.new.live ≡ pool.old.live) }
    {
        pool.reserve(1)?;
        let mut block = pool.take();
        self.fill(&mut block, page);
        Ok(block)
    }

    /// Puts the known bytes of a page into a block. Where segments overlap, the first in order counts.
    fn fill(&self, block: &mut Block, page: u64)
        requires page { page % 4096 ≡ 0 }
        requires len { length block.old ≡ 4096 }
        ensures known { HasKnown self.now.extents page block.new }
        ensures len { length block.new ≡ 4096 }
    {
        let mut offset = 0;
        while offset < BLOCK_LEN {
            let left = BLOCK_LEN - offset;
            match self.segments.stretch(page + offset as u64) {
                Stretch::Known(bytes) => {
                    let known = bytes.len().min(left);
                    block.put(offset, &bytes[..known]);
                    offset += known;
                }
                Stretch::Unknown(count) => offset += count.min(left as u64) as usize,
            }
        }
    }
}
