//! Memory as the view shows it.

ghost use Rattle.std.specs.Prelude.{◌≡◌, ℕ, ◌+◌, ◌-◌, ◌%◌, ◌^◌, ◌<◌, ◌≤◌, ◌↔◌, [], length, Some, None, IsSome, IfSome, option_copied};
ghost use Rattle.paging_model.specs.Memory.{byte_in, entry_at};
ghost use Rattle.history_model.specs.Refusals.{first_unknown};
ghost use Rattle.phys_view.specs.Seen.{Seen, bytes_from, memory_of, written_page};
ghost use Rattle.phys_view.specs.Ranges.{IsTogether, StandAt, slot_count};

use crate::steps::{Ledger, Steps};
use block_map::BlockMap;
use byteorder::{ByteOrder, LittleEndian};
use elf_core::{Segments, Stretch};
use std::alloc::Global;
use std::marker::{Model, PhantomData};

/// The length of a page in bytes.
pub(crate) const PAGE_LEN: u64 = 4096;

/// Physical memory. A byte that no segment covers is unknown; where segments overlap, the first in order counts. A page
/// that was written to stands in a block of its own.
#[derive(Drop)]
pub struct View<'a, L: Ledger> {
    pub(crate) segments: Segments<'a>,
    /// The blocks of the pages that were written to.
    pub(crate) written: BlockMap,
    ledger: PhantomData<L>,
}

impl<'a, L: Ledger> Model for View<'a, L> {
    ghost use Rattle.phys_view.specs.Seen.{Seen};

    ghost Value = { Seen };

    ghost view = { λ view. record { extents = view.segments; written = view.written } };
}

impl<'a, L: Ledger> View<'a, L> {
    /// Memory as the segments alone give it. Takes no memory, and copies nothing.
    pub fn new(alloc: Global, segments: Segments<'a>) -> View<'a, L>
        ensures value { result ≡ record { extents = segments.entry; written = [] } }
        ensures memory { (a : ℕ) → memory_of result a ≡ byte_in segments.entry a }
    {
        View {
            segments,
            written: BlockMap::new(alloc),
            ledger: PhantomData,
        }
    }

    /// The byte at a physical address, where it is known.
    pub fn byte(&self, at: u64, steps: &mut Steps<L>) -> Option<u8>
        ensures value { result ≡ memory_of self.now at }
        ensures cost { steps.new ≡ steps.old + 1 }
    {
        steps.tick();
        self.known_byte(at)
    }

    /// The little-endian number in the eight bytes at a multiple of 8, where all of them are known.
    pub fn entry(&self, at: u64, steps: &mut Steps<L>) -> Option<u64>
        requires { at % 8 ≡ 0 }
        ensures value { result ≡ entry_at (memory_of self.now) at }
        ensures cost { steps.new ≡ steps.old + 1 }
    {
        steps.tick();
        self.known_entry(at)
    }

    /// Borrows a range of at most 4,096 bytes in one page, where all of them are known and the page was written to, or
    /// where one segment is the first that covers each of them.
    ///
    /// A step is taken for each slot that the range touches, whatever the answer is.
    pub fn run(&self, at: u64, len: usize, steps: &mut Steps<L>) -> Option<&[u8]>
        requires some { 1 ≤ len }
        requires within { at % 4096 + len ≤ 4096 }
        ensures found { IsSome result ↔ IsTogether self.now at len }
        ensures value { IfSome result (λ bytes. StandAt (memory_of self.now) at len bytes.now) }
        ensures cost { steps.new ≡ steps.old + slot_count at len }
    {
        for _ in 0..((at % 8) as usize + len).div_ceil(8) {
            steps.tick();
        }
        self.together(at, len)
    }

    /// The bytes of a range in one page, where they stand together in what the view keeps.
    pub(crate) fn together(&self, at: u64, len: usize) -> Option<&[u8]>
        requires some { 1 ≤ len }
        requires within { at % 4096 + len ≤ 4096 }
        ensures found { IsSome result ↔ IsTogether self.now at len }
        ensures value { IfSome result (λ bytes. StandAt (memory_of self.now) at len bytes.now) }
    {
        match self.rewritten(at) {
            Some(bytes) => match self.first_unknown(at, len) {
                Some(_) => None,
                None => Some(&bytes[..len]),
            },
            None => match self.segments.stretch(at) {
                Stretch::Known(bytes) => bytes.get(..len),
                Stretch::Unknown(_) => None,
            },
        }
    }

    /// How many pages were written to. Each has one block of the pool.
    pub fn overlaid(&self) -> u64
        ensures { result ≡ length self.now.written }
    {
        self.written.len() as u64
    }

    /// The bytes from an address on in its page, where that was written to.
    fn rewritten(&self, at: u64) -> Option<&[u8]>
        ensures value { option_copied result ≡ bytes_from (written_page self.now at) at }
        ensures len { IfSome result (λ bytes. length bytes.now ≡ 4096 - at % 4096) }
    {
        let block = self.written.get(at / PAGE_LEN)?;
        Some(&block.bytes()[(at % PAGE_LEN) as usize..])
    }

    /// The byte at an address, where it is known.
    fn known_byte(&self, at: u64) -> Option<u8>
        ensures { result ≡ memory_of self.now at }
    {
        let Stretch::Known(bytes) = self.segments.stretch(at) else {
            return None;
        };
        Some(self.rewritten(at).unwrap_or(bytes)[0])
    }

    /// The eight bytes at a multiple of 8 as a little-endian number, where all of them are known.
    pub(crate) fn known_entry(&self, at: u64) -> Option<u64>
        requires { at % 8 ≡ 0 }
        ensures { result ≡ entry_at (memory_of self.now) at }
    {
        let Stretch::Known(bytes) = self.segments.stretch(at) else {
            return None;
        };
        if bytes.len() < 8 {
            return self.entry_by_bytes(at);
        }
        let bytes = self.rewritten(at).unwrap_or(bytes);
        Some(LittleEndian::read_u64(bytes))
    }

    /// The eight bytes at a multiple of 8 as a little-endian number, byte by byte.
    fn entry_by_bytes(&self, at: u64) -> Option<u64>
        requires { at % 8 ≡ 0 }
        ensures { result ≡ entry_at (memory_of self.now) at }
    {
        let mut bytes = [0; 8];
        for i in 0..8 {
            bytes[i] = self.known_byte(at + i as u64)?;
        }
        Some(LittleEndian::read_u64(&bytes))
    }

    /// The address of the first of `len` bytes that isn't known.
    pub(crate) fn first_unknown(&self, at: u64, len: usize) -> Option<u64>
        ensures value { result ≡ first_unknown (memory_of self.now) at len }
        ensures below { result ≡ None → 1 ≤ len → at < 2 ^ 52 }
    {
        let mut next = at;
        let mut left = len as u64;
        while left > 0 {
            let Stretch::Known(bytes) = self.segments.stretch(next) else {
                return Some(next);
            };
            let known = left.min(bytes.len() as u64);
            next += known;
            left -= known;
        }
        None
    }
}
