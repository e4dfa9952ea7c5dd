//! Rows of blocks by their keys.

ghost use Rattle.std.specs.Prelude.{◌≡◌, ℕ, ◌+◌, ◌/◌, ◌<◌, ◌≤◌, ◌==◌, List, None, Some, IsSome, OnOk, OnErr, IfErr, if◌then◌else◌, is_some, length, option_copied, option_map};
ghost use Rattle.block_pool.specs.Blocks.{block_with};
ghost use Rattle.block_map.specs.Rows.{block_at, row_at};

use crate::row::{ROW_LEN, Row};
use block_pool::Block;
use std::alloc::{AllocError, Global};
use std::collections::BTreeMap;

/// The rows with a key below this are low: those of the first 64 GiB of addresses.
const LOW_ROWS: u64 = 1 << 18;

/// Rows by their keys. The key of a page's row is the page's number divided by 64.
#[derive(Drop)]
pub(crate) struct Rows {
    alloc: Global,
    /// The low rows by their keys, up to the greatest that was wanted.
    low: Vec<Option<Row>>,
    /// The other rows.
    high: BTreeMap<u64, Row>,
}

impl Rows {
    /// No rows. It takes no memory.
    pub(crate) fn new(alloc: Global) -> Rows
        ensures { (n : ℕ) → block_at result n ≡ None }
    {
        Rows {
            alloc,
            low: Vec::new(alloc),
            high: BTreeMap::new(alloc),
        }
    }

    /// The block of a page.
    #[inline]
    pub(crate) fn get(&self, number: u64) -> Option<&Block>
        ensures { option_copied result ≡ block_at self.now number }
    {
        self.row(number / ROW_LEN)?.get((number % ROW_LEN) as usize)
    }

    /// The row of a key.
    #[inline]
    fn row(&self, key: u64) -> Option<&Row>
        ensures { option_copied result ≡ row_at self.now key }
    {
        if key < LOW_ROWS {
            self.low.get(key as usize)?.as_ref()
        } else {
            self.high.get(&key)
        }
    }

    /// Replaces the bytes from the offset `at` on in the block of a page; tells whether there is one.
    pub(crate) fn put(&mut self, number: u64, at: usize, bytes: &[u8]) -> bool
        requires { at + length bytes.now ≤ 4096 }
        ensures found { result ≡ is_some (block_at self.old number) }
        ensures len { (block : List ℕ)
            → block_at self.old number ≡ Some block → length block ≡ 4096 }
        ensures changed { (n : ℕ) → block_at self.new n ≡ (if n == number
            then option_map (λ block. block_with block at bytes.now) (block_at self.old number)
            else block_at self.old n) }
    {
        let (key, place) = (number / ROW_LEN, (number % ROW_LEN) as usize);
        if key >= LOW_ROWS {
            return match self.high.get_mut(&key) {
                Some(row) => row.put(place, at, bytes),
                None => false,
            };
        }
        let key = key as usize;
        if key >= self.low.len() {
            return false;
        }
        match &mut self.low[key] {
            Some(row) => row.put(place, at, bytes),
            None => false,
        }
    }

    /// Gives a page its block. Out of memory, the block comes back, and each page has what it had.
    pub(crate) fn insert(&mut self, number: u64, block: Block) -> Result<(), Block>
        ensures ok { OnOk result ((n : ℕ) → block_at self.new n
            ≡ (if n == number then Some block else block_at self.old n)) }
        ensures returned { IfErr result (λ given. given ≡ block) }
        ensures err { OnErr result ((n : ℕ) → block_at self.new n ≡ block_at self.old n) }
    {
        let key = number / ROW_LEN;
        let made = if key < LOW_ROWS {
            self.make_low(key)
        } else {
            self.make_high(key)
        };
        if made.is_err() {
            return Err(block);
        }
        self.set(number, block);
        Ok(())
    }

    /// Sees to it that there is a row of a low key.
    fn make_low(&mut self, key: u64) -> Result<(), AllocError>
        requires { key < 262144 }
        ensures same { (n : ℕ) → block_at self.new n ≡ block_at self.old n }
        ensures ok { OnOk result (IsSome (row_at self.new key)) }
    {
        let key = key as usize;
        while self.low.len() <= key {
            self.low.push(None)?;
        }
        if self.low[key].is_none() {
            self.low[key] = Some(Row::new(self.alloc)?);
        }
        Ok(())
    }

    /// Sees to it that there is a row of a key that isn't low.
    fn make_high(&mut self, key: u64) -> Result<(), AllocError>
        requires { 262144 ≤ key }
        ensures same { (n : ℕ) → block_at self.new n ≡ block_at self.old n }
        ensures ok { OnOk result (IsSome (row_at self.new key)) }
    {
        if !self.high.contains_key(&key) {
            self.high.insert(key, Row::new(self.alloc)?)?;
        }
        Ok(())
    }

    /// Puts a block into its slot, in a row that there is.
    fn set(&mut self, number: u64, block: Block)
        requires { IsSome (row_at self.old (number / 64)) }
        ensures { (n : ℕ) → block_at self.new n
            ≡ (if n == number then Some block else block_at self.old n) }
    {
        let (key, place) = (number / ROW_LEN, (number % ROW_LEN) as usize);
        if key >= LOW_ROWS {
            match self.high.get_mut(&key) {
                Some(row) => row.insert(place, block),
                None => unreachable!(),
            }
        } else {
            match &mut self.low[key as usize] {
                Some(row) => row.insert(place, block),
                None => unreachable!(),
            }
        }
    }
}
