//! Blocks by the numbers of their pages.

ghost use Rattle.std.specs.Prelude.{◌≡◌, ℕ, ◌+◌, ◌≤◌, List, [], None, Some, OnOk, OnErr, IfErr, is_some, length, option_copied};
ghost use Rattle.std.specs.FinMap.{find, put};
ghost use Rattle.std.specs.Ordering.{nat_cmp};
ghost use Rattle.block_pool.specs.Blocks.{block_with};

use crate::rows::Rows;
use block_pool::Block;
use std::alloc::Global;
use std::marker::Model;

/// The blocks of pages, by the pages' numbers: their addresses divided by 4,096.
///
/// A page below 64 GiB is found without a search, and any other in logarithmic time.
#[derive(Drop)]
pub struct BlockMap {
    rows: Rows,
    len: usize,
}

impl Model for BlockMap {
    ghost use Rattle.std.specs.Prelude.{◌≡◌, ◌^◌, length};
    ghost use Rattle.block_map.specs.Blocks.{PageBlocks, pages_below};
    ghost use Rattle.block_map.specs.Rows.{block_at};

    ghost Value = { PageBlocks };

    ghost view = { λ map. pages_below (2 ^ 64) (block_at map.rows) };

    ghost invariant = { λ map. map.len ≡ length (pages_below (2 ^ 64) (block_at map.rows)) };
}

impl BlockMap {
    /// No blocks. It takes no memory.
    pub fn new(alloc: Global) -> BlockMap
        ensures { result ≡ [] }
    {
        BlockMap {
            rows: Rows::new(alloc),
            len: 0,
        }
    }

    /// The block of a page.
    #[inline]
    pub fn get(&self, number: u64) -> Option<&Block>
        ensures { option_copied result ≡ find nat_cmp number self.now }
    {
        self.rows.get(number)
    }

    /// Replaces the bytes from the offset `at` on in the block of a page by these; tells whether there is one.
    pub fn put(&mut self, number: u64, at: usize, bytes: &[u8]) -> bool
        requires { at + length bytes.now ≤ 4096 }
        ensures found { result ≡ is_some (find nat_cmp number self.old) }
        ensures absent { find nat_cmp number self.old ≡ None → self.new ≡ self.old }
        ensures changed { (block : List ℕ) → find nat_cmp number self.old ≡ Some block
            → (length block ≡ 4096)
            × (self.new ≡ put nat_cmp number (block_with block at bytes.now) self.old) }
        ensures count { length self.new ≡ length self.old }
    {
        self.rows.put(number, at, bytes)
    }

    /// Gives a page its block, in the place of none or of another.
    ///
    /// # Errors
    ///
    /// Out of memory, the block comes back, and nothing has changed.
    pub fn insert(&mut self, number: u64, block: Block) -> Result<(), Block>
        ensures ok { OnOk result (self.new ≡ put nat_cmp number block self.old) }
        ensures returned { IfErr result (λ given. given ≡ block) }
        ensures err { OnErr result (self.new ≡ self.old) }
    {
        let more = usize::from(self.rows.get(number).is_none());
        // No memory has so many blocks that it overflows.
        let Some(len) = self.len.checked_add(more) else {
            return Err(block);
        };
        self.rows.insert(number, block)?;
        self.len = len;
        Ok(())
    }

    /// How many pages have a block.
    pub fn len(&self) -> usize
        ensures { result ≡ length self.now }
    {
        self.len
    }
}
