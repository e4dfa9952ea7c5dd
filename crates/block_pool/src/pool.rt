//! Blocks in use and spare ones.

ghost use Rattle.std.specs.Prelude.{◌≡◌, ◌+◌, ◌-◌, ◌≤◌, length, max, OnOk, OnErr, IsOk};
ghost use Rattle.block_pool.specs.Blocks.{Counts, IsZero, block_count};

use crate::block::Block;
use std::alloc::{AllocError, Global};
use std::marker::Model;

/// Blocks that were made: live ones, which are in use, and spare ones.
///
/// Memory is taken by `reserve` alone. So a caller can see to it that there are enough blocks before it changes
/// anything.
#[derive(Drop)]
pub struct Pool {
    alloc: Global,
    spare: Vec<Block>,
    live: usize,
}

impl Model for Pool {
    ghost use Rattle.std.specs.Prelude.{◌+◌, ◌≤◌, vec_capacity, vec_len};
    ghost use Rattle.block_pool.specs.Blocks.{Counts};

    ghost Value = { Counts };

    ghost view = { λ pool. record { live = pool.live; spare = vec_len pool.spare } };

    // There is room for the return of each live block.
    ghost invariant = { λ pool. pool.live + vec_len pool.spare ≤ vec_capacity pool.spare };
}

impl Pool {
    /// A pool without blocks. It takes no memory.
    pub fn new(alloc: Global) -> Pool
        ensures { result ≡ record { live = 0; spare = 0 } }
    {
        Pool {
            alloc,
            spare: Vec::new(alloc),
            live: 0,
        }
    }

    /// Makes blocks until `count` are spare. Out of memory, the pool is as it was.
    ///
    /// Where as many are spare already, it takes no memory.
    pub fn reserve(&mut self, count: u64) -> Result<(), AllocError>
        ensures ok { OnOk result (self.new ≡ record self.old { spare = max count self.old.spare }) }
        ensures err { OnErr result (self.new ≡ self.old) }
        ensures enough { count ≤ self.old.spare → IsOk result }
    {
        let before = self.spare.len();
        let more = (count as usize).saturating_sub(before);
        let room = self.live.checked_add(more).ok_or(AllocError)?;
        self.spare.reserve(room)?;
        for _ in 0..more {
            match Block::new(self.alloc) {
                Ok(block) => self.spare.push_reserved(block),
                Err(error) => {
                    self.spare.truncate(before);
                    return Err(error);
                }
            }
        }
        Ok(())
    }

    /// A block of zeros, which is spare no longer. It takes no memory.
    pub fn take(&mut self) -> Block
        requires { 1 ≤ self.old.spare }
        ensures counts { self.new ≡ record {
          live = self.old.live + 1;
          spare = self.old.spare - 1;
        } }
        ensures all { block_count self.new ≡ block_count self.old }
        ensures zero { IsZero result }
        ensures len { length result ≡ 4096 }
    {
        match self.spare.pop() {
            Some(mut block) => {
                block.clear();
                self.live += 1;
                block
            }
            None => unreachable!(),
        }
    }

    /// Takes a block back, which is spare then. It takes no memory: there has been room for it since it was made.
    pub fn give(&mut self, block: Block)
        requires { 1 ≤ self.old.live }
        ensures counts { self.new ≡ record {
          live = self.old.live - 1;
          spare = self.old.spare + 1;
        } }
        ensures all { block_count self.new ≡ block_count self.old }
    {
        self.live -= 1;
        self.spare.push_reserved(block);
    }

    /// How many blocks are in use.
    pub fn live(&self) -> u64
        ensures { result ≡ self.now.live }
    {
        self.live as u64
    }

    /// How many blocks are spare.
    pub fn spare(&self) -> u64
        ensures { result ≡ self.now.spare }
    {
        self.spare.len() as u64
    }
}
