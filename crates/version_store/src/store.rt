//! The kept changes of memory.

ghost use Rattle.std.specs.Prelude.{◌≡◌, ℕ, ◌+◌, ◌*◌, ◌/◌, ◌%◌, ◌^◌, ◌<◌, ◌≤◌, false, [], ◌∷◌, ◌++◌, length, None, IfOk, OnOk, OnErr, nat_lt, slice_index_or, if◌then◌else◌};
ghost use Rattle.std.specs.BTreeMap.{get, insert_entry};
ghost use Rattle.std.specs.Ordering.{nat_cmp};
ghost use Rattle.version_store.specs.Changes.{IsSlotOffset, changed_slots, changes_of, is_changed_after, kept_blocks, last_kept_time, last_time as last_time_of, old_at, value_at, with_new_change, with_changes};
ghost use Rattle.version_store.specs.Spanning.{AreSpans};

use crate::change::Change;
use crate::changed_slots::ChangedSlots;
use crate::frame_changes::FrameChanges;
use crate::slots::{Slots, slots_in};
use crate::spans::{Spans, spans_in};
use block_pool::Pool;
use std::alloc::{AllocError, Global};
use std::collections::BTreeMap;
use std::marker::Model;

/// The length of a frame in bytes.
const FRAME_LEN: u64 = 4096;

/// The length of a slot in bytes.
const SLOT_LEN: u64 = 8;

/// The kept changes of memory: of each its slot, its time, and the value before it.
///
/// They stand in blocks of a pool, each of which has the changes of one frame, at most 256 of them.
#[derive(Drop)]
pub struct Store {
    alloc: Global,
    /// The changes of each frame that has any, by the frame's number.
    frames: BTreeMap<u64, FrameChanges>,
    /// How many blocks they stand in.
    blocks: u64,
    /// The time of the last of them, 0 where there are none.
    last: u32,
}

impl Model for Store {
    ghost use Rattle.version_store.specs.Changes.{AreCounted, KeptChanges};

    ghost Value = { KeptChanges };

    ghost view = { λ store. store.frames.entries };

    ghost invariant = { λ store. AreCounted store.frames.entries store.blocks store.last };
}

impl Store {
    /// No changes. It takes no memory.
    pub fn new(alloc: Global) -> Store
        ensures { result ≡ [] }
    {
        Store {
            alloc,
            frames: BTreeMap::new(alloc),
            blocks: 0,
            last: 0,
        }
    }

    /// Keeps a change of a slot: at a time, from an old value. A store takes its blocks from one pool.
    ///
    /// # Errors
    ///
    /// Out of memory, the store is as it was, and so are the pool's blocks in use.
    #[tactic(auto, using(crate::proofs::LastTimes::last_kept_time_noted))]
    pub fn note(
        &mut self,
        pool: &mut Pool,
        slot: u64,
        time: u32,
        old: u64,
    ) -> Result<(), AllocError>
        requires { slot % 8 ≡ 0 }
        ensures ok { OnOk result (self.new ≡ with_new_change self.old slot time old) }
        ensures err { OnErr result (self.new ≡ self.old) }
        ensures counts { pool.new.live + kept_blocks self.old
            ≡ pool.old.live + kept_blocks self.new }
    {
        let frame = slot / FRAME_LEN;
        let change = Change {
            offset: (slot % FRAME_LEN) as u16,
            time,
            old,
        };
        // No memory has so many blocks that it overflows.
        let Some(more) = self.blocks.checked_add(1) else {
            return Err(AllocError);
        };
        let is_new = note_in(&mut self.frames, self.alloc, pool, frame, change)?;
        self.last = self.last.max(time);
        if is_new {
            self.blocks = more;
        }
        Ok(())
    }

    /// Keeps the changes that a write makes at a time: `olds` has what the slots from `first` on held before it, one
    /// after another, `None` for one whose bytes weren't all known. Of such a slot no change is kept.
    ///
    /// # Errors
    ///
    /// Out of memory, only some of the changes are kept.
    pub fn note_write(
        &mut self,
        pool: &mut Pool,
        first: u64,
        olds: &[Option<u64>],
        time: u32,
    ) -> Result<(), AllocError>
        requires slot { first % 8 ≡ 0 }
        requires within { first + 8 * length olds.now ≤ 2 ^ 64 }
        ensures ok { OnOk result (self.new ≡ with_changes self.old first olds.now time) }
        ensures counts { pool.new.live + kept_blocks self.old
            ≡ pool.old.live + kept_blocks self.new }
    {
        for i in 0..olds.len() {
            if let Some(old) = olds[i] {
                self.note(pool, first + SLOT_LEN * i as u64, time, old)?;
            }
        }
        Ok(())
    }

    /// The old value of the first kept change of a slot after a time. It takes no memory.
    pub fn at(&self, slot: u64, time: u32) -> Option<u64>
        ensures { result ≡ old_at self.now slot time }
    {
        let changes = self.frames.get(&(slot / FRAME_LEN))?;
        changes.first_after((slot % FRAME_LEN) as u16, time)
    }

    /// The spans of a slot from a time up to now, where `present` is its value now.
    ///
    /// # Errors
    ///
    /// Out of memory.
    pub fn spans(
        &self,
        alloc: Global,
        slot: u64,
        from: u32,
        now: u32,
        present: u64,
    ) -> Result<Spans, AllocError>
        requires { from ≤ now }
        ensures { IfOk result (AreSpans (value_at self.now slot present) None from (now + 1)) }
    {
        let none = FrameChanges::new(alloc);
        let changes = self.frames.get(&(slot / FRAME_LEN)).unwrap_or(&none);
        spans_in(
            alloc,
            changes,
            (slot % FRAME_LEN) as u16,
            from,
            now,
            present,
        )
    }

    /// Whether the frame at an address has any kept change. It takes no memory.
    pub fn has_changes(&self, frame: u64) -> bool
        ensures { result ≡ nat_lt 0 (length (changes_of self.now (frame / 4096))) }
    {
        match self.frames.get(&(frame / FRAME_LEN)) {
            Some(changes) => changes.len() > 0,
            None => false,
        }
    }

    /// The time of the last kept change, 0 where none is kept. It takes no memory.
    pub fn last_time(&self) -> u32
        ensures { result ≡ last_kept_time self.now }
    {
        self.last
    }

    /// The time of the last kept change of the frame at an address, 0 where it has none. It takes no memory.
    pub fn last_time_under(&self, frame: u64) -> u32
        ensures { result ≡ last_time_of (changes_of self.now (frame / 4096)) }
    {
        match self.frames.get(&(frame / FRAME_LEN)) {
            Some(changes) => changes.last_time(),
            None => 0,
        }
    }

    /// Which slots of the frame at an address have a kept change after a time. It takes no memory.
    pub fn changed_after(&self, frame: u64, time: u32) -> ChangedSlots
        ensures value { (i : ℕ) → i < 512 → slice_index_or result i false
            ≡ is_changed_after (changes_of self.now (frame / 4096)) (8 * i) time }
        ensures len { length result ≡ 512 }
    {
        match self.frames.get(&(frame / FRAME_LEN)) {
            Some(changes) => changes.changed_after(time),
            None => ChangedSlots::none(),
        }
    }

    /// The slots of the frame at an address that have a kept change.
    ///
    /// # Errors
    ///
    /// Out of memory.
    pub fn changed_under(&self, alloc: Global, frame: u64) -> Result<Slots, AllocError>
        requires { frame % 4096 ≡ 0 }
        ensures { IfOk result (λ slots. slots ≡ changed_slots self.now frame) }
    {
        let none = FrameChanges::new(alloc);
        let changes = self.frames.get(&(frame / FRAME_LEN)).unwrap_or(&none);
        slots_in(alloc, changes, frame)
    }

    /// How many blocks of the pool the changes stand in. It takes no memory.
    pub fn blocks(&self) -> u64
        ensures { result ≡ kept_blocks self.now }
    {
        self.blocks
    }
}

/// Keeps a change of a frame; tells whether it stands in a new block.
///
/// Out of memory, the changes are as they were, and so are the pool's blocks in use.
fn note_in(
    frames: &mut BTreeMap<u64, FrameChanges>,
    alloc: Global,
    pool: &mut Pool,
    frame: u64,
    change: Change,
) -> Result<bool, AllocError>
    requires { IsSlotOffset change.offset }
    ensures ok { OnOk result (frames.new.entries
        ≡ insert_entry nat_cmp frames.old.entries frame
        (changes_of frames.old.entries frame ++ change ∷ [])) }
    ensures err { OnErr result (frames.new.entries ≡ frames.old.entries) }
    ensures blocks { IfOk result (λ is_new. kept_blocks frames.new.entries
        ≡ kept_blocks frames.old.entries + (if is_new then 1 else 0)) }
    ensures counts { pool.new.live + kept_blocks frames.old.entries
        ≡ pool.old.live + kept_blocks frames.new.entries }
{
    match frames.get_mut(&frame) {
        Some(changes) => changes.push(pool, change),
        None => {
            note_first(frames, alloc, pool, frame, change)?;
            Ok(true)
        }
    }
}

/// Keeps a change of a frame that has none.
///
/// Out of memory, the changes are as they were, and so are the pool's blocks in use.
fn note_first(
    frames: &mut BTreeMap<u64, FrameChanges>,
    alloc: Global,
    pool: &mut Pool,
    frame: u64,
    change: Change,
) -> Result<(), AllocError>
    requires slot { IsSlotOffset change.offset }
    requires none { get nat_cmp frames.old frame ≡ None }
    ensures ok { OnOk result (frames.new.entries
        ≡ insert_entry nat_cmp frames.old.entries frame (change ∷ [])) }
    ensures err { OnErr result (frames.new.entries ≡ frames.old.entries) }
    ensures blocks { OnOk result (kept_blocks frames.new.entries
        ≡ kept_blocks frames.old.entries + 1) }
    ensures counts { pool.new.live + kept_blocks frames.old.entries
        ≡ pool.old.live + kept_blocks frames.new.entries }
{
    let mut changes = FrameChanges::new(alloc);
    changes.push(pool, change)?;
    if let Err(failed) = frames.insert(frame, changes) {
        let (_, changes) = failed.value;
        changes.give_back(pool);
        return Err(AllocError);
    }
    Ok(())
}
