//! The changes of one frame, in blocks.

ghost use Rattle.std.specs.Prelude.{◌≡◌, ℕ, ◌+◌, ◌*◌, ◌/◌, ◌<◌, ◌≤◌, ◌≢◌, ◌++◌, ◌∷◌, [], List, drop, take, false, length, Some, OnOk, OnErr, IfOk, slice_index_or, slice_index, vec_len, if◌then◌else◌};
ghost use Rattle.version_store.specs.Changes.{IsSlotOffset, blocks_for, is_changed, is_changed_after, last_time as last_time_of, old_in};
ghost use Rattle.version_store.specs.Records.{IsFilledTo, change_at, change_from};

use crate::change::{Change, RECORD_LEN, SLOT_LEN, SLOTS_PER_FRAME};
use crate::changed_slots::ChangedSlots;
use block_pool::{BLOCK_LEN, Block, Pool};
use std::alloc::{AllocError, Global};
use std::marker::Model;

/// How many changes a block has room for.
const CHANGES_PER_BLOCK: usize = BLOCK_LEN / RECORD_LEN;

/// The changes of a frame, in the order in which they were noted. All its blocks but the last are full.
#[derive(Drop)]
pub(crate) struct FrameChanges {
    blocks: Vec<Block>,
    len: usize,
    /// The time of the last of them, 0 where there are none.
    last: u32,
    /// Where set, none of them was noted after one of a later time.
    are_in_order: bool,
}

impl Model for FrameChanges {
    ghost use Rattle.std.specs.Prelude.{List};
    ghost use Rattle.version_store.specs.declared.change.Change.{Change};

    ghost Value = { List Change };

    ghost use Rattle.version_store.specs.Records.{AreOfFrame, changes_in};

    ghost view = { λ changes. changes_in changes.blocks.items changes.len };

    ghost invariant = { λ changes.
        AreOfFrame changes.blocks.items changes.len changes.last changes.are_in_order };
}

impl FrameChanges {
    /// No changes. It takes no memory.
    pub(crate) fn new(alloc: Global) -> FrameChanges
        ensures { result ≡ [] }
    {
        FrameChanges {
            blocks: Vec::new(alloc),
            len: 0,
            last: 0,
            are_in_order: true,
        }
    }

    /// How many changes there are.
    pub(crate) fn len(&self) -> usize
        ensures { result ≡ length self.now }
    {
        self.len
    }

    /// The time of the last change, 0 where there are none.
    pub(crate) fn last_time(&self) -> u32
        ensures { result ≡ last_time_of self.now }
    {
        self.last
    }

    /// The change with a number.
    pub(crate) fn get(&self, number: usize) -> Change
        requires { number < length self.now }
        ensures value { result ≡ slice_index_or self.now number result }
        ensures slot { IsSlotOffset result.offset }
    {
        read_change(
            &self.blocks[number / CHANGES_PER_BLOCK],
            number % CHANGES_PER_BLOCK,
        )
    }

    /// How many of the changes can be left out by who asks for those after a time: none of them is after it.
    ///
    /// They are all that aren't after it, where the changes were noted in the order of their times.
    pub(crate) fn count_until(&self, time: u32) -> usize
        ensures within { result ≤ length self.now }
        ensures early { last_time_of (take result self.now) ≤ time }
    {
        if !self.are_in_order {
            return 0;
        }
        let mut count = self.len();
        while count > 0 && self.get(count - 1).time > time {
            count -= 1;
        }
        count
    }

    /// The old value of the first change of the slot at an offset after a time.
    pub(crate) fn first_after(&self, offset: u16, time: u32) -> Option<u64>
        ensures { result ≡ old_in self.now offset time }
    {
        for number in self.count_until(time)..self.len() {
            let change = self.get(number);
            if change.offset == offset && change.time > time {
                return Some(change.old);
            }
        }
        None
    }

    /// Which slots of the frame have a change, one after another.
    pub(crate) fn changed_slots(&self) -> [bool; SLOTS_PER_FRAME]
        ensures value { (i : ℕ) → i < 512
            → slice_index_or result i false ≡ is_changed self.now (8 * i) }
        ensures len { length result ≡ 512 }
    {
        let len = self.len();
        let mut changed = [false; SLOTS_PER_FRAME];
        for number in 0..len {
            changed[usize::from(self.get(number).offset) / SLOT_LEN] = true;
        }
        changed
    }

    /// Which slots of the frame have a change after a time.
    pub(crate) fn changed_after(&self, time: u32) -> ChangedSlots
        ensures value { (i : ℕ) → i < 512
            → slice_index_or result i false ≡ is_changed_after self.now (8 * i) time }
        ensures len { length result ≡ 512 }
    {
        let len = self.len();
        let mut slots = ChangedSlots::none();
        for number in self.count_until(time)..len {
            let change = self.get(number);
            if change.time > time {
                slots.add(usize::from(change.offset) / SLOT_LEN);
            }
        }
        slots
    }

    /// Adds a change; tells whether it stands in a new block, which is taken from the pool.
    ///
    /// # Errors
    ///
    /// Out of memory, the changes are as they were, and no block is taken.
    pub(crate) fn push(&mut self, pool: &mut Pool, change: Change) -> Result<bool, AllocError>
        requires { IsSlotOffset change.offset }
        ensures ok { OnOk result (self.new ≡ self.old ++ change ∷ []) }
        ensures err { OnErr result (self.new ≡ self.old) }
        ensures blocks { IfOk result (λ is_new.
            blocks_for self.new ≡ blocks_for self.old + (if is_new then 1 else 0)) }
        ensures counts { pool.new.live + blocks_for self.old ≡ pool.old.live + blocks_for self.new }
    {
        // No memory has so many changes that it overflows.
        let Some(len) = self.len.checked_add(1) else {
            return Err(AllocError);
        };
        let is_new = make_room(&mut self.blocks, self.len, pool)?;
        put_change(&mut self.blocks, self.len, change);
        self.len = len;
        self.are_in_order = self.are_in_order && self.last <= change.time;
        self.last = self.last.max(change.time);
        Ok(is_new)
    }

    /// Gives all blocks back to the pool that they are from.
    pub(crate) fn give_back(self, pool: &mut Pool)
        requires { blocks_for self ≤ pool.old.live }
        ensures { pool.new.live + blocks_for self ≡ pool.old.live }
    {
        let mut blocks = self.blocks;
        while let Some(block) = blocks.pop() {
            pool.give(block);
        }
    }
}

/// Sees to it that there is room for one change more than so many; tells whether a block was taken for it.
fn make_room(blocks: &mut Vec<Block>, len: usize, pool: &mut Pool) -> Result<bool, AllocError>
    requires { IsFilledTo blocks.old.items len }
    ensures same { (n : ℕ) → n < vec_len blocks.old
        → slice_index_or blocks.new.items n [] ≡ slice_index_or blocks.old.items n [] }
    ensures ok { OnOk result (IsFilledTo blocks.new.items (len + 1)) }
    ensures more { IfOk result (λ is_new.
        vec_len blocks.new ≡ vec_len blocks.old + (if is_new then 1 else 0)) }
    ensures counts { pool.new.live + vec_len blocks.old ≡ pool.old.live + vec_len blocks.new }
    ensures err { OnErr result (blocks.new.items ≡ blocks.old.items) }
{
    if len % CHANGES_PER_BLOCK != 0 {
        return Ok(false);
    }
    add_block(blocks, pool)?;
    Ok(true)
}

/// One block more, of the pool.
fn add_block(blocks: &mut Vec<Block>, pool: &mut Pool) -> Result<(), AllocError>
    ensures same { (n : ℕ) → n < vec_len blocks.old
        → slice_index_or blocks.new.items n [] ≡ slice_index_or blocks.old.items n [] }
    ensures ok { OnOk result (vec_len blocks.new ≡ vec_len blocks.old + 1) }
    ensures taken { OnOk result (pool.new.live ≡ pool.old.live + 1) }
    ensures err { OnErr result (blocks.new.items ≡ blocks.old.items) }
    ensures untaken { OnErr result (pool.new.live ≡ pool.old.live) }
{
    pool.reserve(1)?;
    blocks.reserve(1)?;
    blocks.push_reserved(pool.take());
    Ok(())
}

/// The change whose record stands at a place in a block.
fn read_change(block: &Block, place: usize) -> Change
    requires { place < 256 }
    ensures { result ≡ change_from (drop (16 * place) block.now) }
{
    Change::from_bytes(&block.bytes()[RECORD_LEN * place..])
}

/// Writes the record of the change with a number.
fn put_change(blocks: &mut Vec<Block>, number: usize, change: Change)
    requires { number / 256 < vec_len blocks.old }
    ensures value { change_at blocks.new.items number ≡ change }
    ensures others { (n : ℕ) → n ≢ number
        → change_at blocks.new.items n ≡ change_at blocks.old.items n }
    ensures len { vec_len blocks.new ≡ vec_len blocks.old }
{
    let at = RECORD_LEN * (number % CHANGES_PER_BLOCK);
    let block = &mut blocks[number / CHANGES_PER_BLOCK];
    block.put(at, &change.to_bytes());
}
