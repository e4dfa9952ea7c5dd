//! The blocks of neighbouring pages.

ghost use Rattle.std.specs.Prelude.{◌≡◌, ℕ, ◌+◌, ◌<◌, ◌≤◌, ◌==◌, List, None, Some, OnOk, IfOk, if◌then◌else◌, is_some, length, option_copied, option_map};
ghost use Rattle.block_pool.specs.Blocks.{block_with};
ghost use Rattle.block_map.specs.Slots.{slot_at};

use block_pool::Block;
use std::alloc::{AllocError, Global};
use std::marker::Model;

/// How many pages share a row.
pub(crate) const ROW_LEN: u64 = 64;

/// A slot for the block of each page of a row.
#[derive(Drop)]
pub(crate) struct Row {
    slots: Vec<Option<Block>>,
}

impl Model for Row {
    ghost use Rattle.std.specs.Prelude.{◌≡◌, length};
    ghost use Rattle.std.specs.Coded.{coded_ℕ, coded_list, coded_option};
    ghost use Rattle.block_map.specs.Slots.{Slots};

    ghost Value = { Slots };

    ghost coded = { coded_list (coded_option (coded_list coded_ℕ)) };

    ghost view = { λ row. row.slots.items };

    ghost invariant = { λ row. length row.slots.items ≡ 64 };
}

impl Row {
    /// A row without blocks.
    pub(crate) fn new(alloc: Global) -> Result<Row, AllocError>
        ensures { IfOk result (λ row. (place : ℕ) → slot_at row place ≡ None) }
    {
        let mut slots = Vec::with_capacity(alloc, ROW_LEN as usize)?;
        for _ in 0..ROW_LEN {
            slots.push_reserved(None);
        }
        Ok(Row { slots })
    }

    /// The block at a place.
    #[inline]
    pub(crate) fn get(&self, place: usize) -> Option<&Block>
        requires { place < 64 }
        ensures { option_copied result ≡ slot_at self.now place }
    {
        self.slots[place].as_ref()
    }

    /// Replaces the bytes from the offset `at` on in the block at a place; tells whether there is one.
    pub(crate) fn put(&mut self, place: usize, at: usize, bytes: &[u8]) -> bool
        requires place { place < 64 }
        requires within { at + length bytes.now ≤ 4096 }
        ensures found { result ≡ is_some (slot_at self.old place) }
        ensures len { (block : List ℕ)
            → slot_at self.old place ≡ Some block → length block ≡ 4096 }
        ensures changed { (k : ℕ) → slot_at self.new k ≡ (if k == place
            then option_map (λ block. block_with block at bytes.now) (slot_at self.old place)
            else slot_at self.old k) }
    {
        match &mut self.slots[place] {
            Some(block) => {
                block.put(at, bytes);
                true
            }
            None => false,
        }
    }

    /// Puts a block at a place.
    pub(crate) fn insert(&mut self, place: usize, block: Block)
        requires { place < 64 }
        ensures { (k : ℕ) → slot_at self.new k
            ≡ (if k == place then Some block else slot_at self.old k) }
    {
        self.slots[place] = Some(block);
    }
}
