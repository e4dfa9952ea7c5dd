//! A change of a slot, and the record of it in a block.

ghost use Rattle.std.specs.Prelude.{◌≡◌, ◌≤◌, length};
ghost use Rattle.version_store.specs.Records.{change_from};

use block_pool::BLOCK_LEN;
use byteorder::{ByteOrder, LittleEndian};

/// The length of a slot in bytes.
pub(crate) const SLOT_LEN: usize = 8;

/// How many slots a frame has.
pub(crate) const SLOTS_PER_FRAME: usize = BLOCK_LEN / SLOT_LEN;

/// The length of a change's record in bytes.
pub(crate) const RECORD_LEN: usize = 16;

/// A change of the eight bytes of a slot.
#[derive(Clone, Copy, Debug, PartialEq, Eq)]
pub struct Change {
    /// The slot's place in its frame of 4,096 bytes: an offset in bytes.
    pub offset: u16,
    /// The time from which on the slot has another value: the number of the write that made the change.
    pub time: u32,
    /// The value before, as a little-endian number.
    pub old: u64,
}

impl Change {
    /// The record of the change.
    pub(crate) fn to_bytes(self) -> [u8; RECORD_LEN]
        ensures value { change_from result ≡ self }
        ensures len { length result ≡ 16 }
    {
        let mut bytes = [0u8; RECORD_LEN];
        LittleEndian::write_u16(&mut bytes, self.offset);
        LittleEndian::write_u32(&mut bytes[4..], self.time);
        LittleEndian::write_u64(&mut bytes[8..], self.old);
        bytes
    }

    /// The change whose record the bytes begin with.
    pub(crate) fn from_bytes(bytes: &[u8]) -> Change
        requires { 16 ≤ length bytes.now }
        ensures { result ≡ change_from bytes.now }
    {
        Change {
            offset: LittleEndian::read_u16(bytes),
            time: LittleEndian::read_u32(&bytes[4..]),
            old: LittleEndian::read_u64(&bytes[8..]),
        }
    }
}
