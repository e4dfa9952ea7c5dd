//! The bytes of a page.

ghost use Rattle.std.specs.Prelude.{◌≡◌, ◌+◌, ◌≤◌, length, OnOk, IfOk};
ghost use Rattle.block_pool.specs.Blocks.{IsZero, block_with};

use std::alloc::{AllocError, Global};
use std::marker::Model;

/// The length of a block in bytes.
pub const BLOCK_LEN: usize = 4096;

/// As many bytes as a page has. It owns them, and can't be copied.
#[derive(Drop)]
pub struct Block {
    bytes: Vec<u8>,
}

impl Model for Block {
    ghost use Rattle.std.specs.Prelude.{◌≡◌, ℕ, List, length};

    ghost Value = { List ℕ };

    ghost view = { λ block. block.bytes.items };

    ghost invariant = { λ block. length block.bytes.items ≡ 4096 };
}

impl Block {
    /// A block of zeros.
    pub(crate) fn new(alloc: Global) -> Result<Block, AllocError> {
        let bytes = vec![in alloc; 0u8; BLOCK_LEN]?;
        Ok(Block { bytes })
    }

    /// All 4,096 bytes.
    pub fn bytes(&self) -> &[u8]
        ensures value { result.now ≡ self.now }
        ensures len { length result.now ≡ 4096 }
    {
        self.bytes.as_slice()
    }

    /// Replaces the bytes from the offset `at` on by these.
    pub fn put(&mut self, at: usize, bytes: &[u8])
        requires { at + length bytes.now ≤ 4096 }
        ensures value { self.new ≡ block_with self.old at bytes.now }
        ensures len { length self.old ≡ 4096 }
    {
        self.bytes[at..at + bytes.len()].copy_from_slice(bytes);
    }

    /// Replaces all bytes by zeros.
    pub(crate) fn clear(&mut self)
        ensures zero { IsZero self.new }
        ensures len { length self.new ≡ 4096 }
    {
        self.bytes.as_mut_slice().fill(0);
    }
}
