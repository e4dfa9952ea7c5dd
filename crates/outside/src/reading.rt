//! All bytes of a name, up to a limit.

ghost use Rattle.std.specs.Prelude.{◌≡◌, ◌≢◌, ℕ, ◌+◌, ◌<◌, ◌≤◌, List, length, IfOk, OnOk, IsErr, IsErrOf, IsTrue, Ok, vec_len};
ghost use Rattle.outside.specs.Count.{Rose};
ghost use Rattle.outside.specs.Shelf.{missing, has_bytes};
ghost use Rattle.outside.specs.Whole.{IsWhole, IsBytePrefix};
ghost use Rattle.outside.specs.declared.reading.ReadFault.TheVariants.{Device, Memory};

use crate::shelf::{Failed, Shelf};
use std::alloc::{AllocError, Global};
use thiserror::Error;

/// The first bytes of a name, and whether there are more.
#[derive(Drop)]
pub struct Whole {
    pub bytes: Vec<u8>,
    pub cut: bool,
}

/// Why a name wasn't read.
#[derive(Clone, Copy, Debug, PartialEq, Eq, Error)]
pub enum ReadFault {
    /// A read failed.
    #[error("a read failed")]
    Device,

    /// Out of memory.
    #[error("out of memory")]
    Memory,
}

impl From<Failed> for ReadFault {
    ghost from_gives = { λ _ fault. fault ≡ Device };

    fn from(_failed: Failed) -> ReadFault {
        ReadFault::Device
    }
}

impl From<AllocError> for ReadFault {
    ghost from_gives = { λ _ fault. fault ≡ Memory };

    fn from(_error: AllocError) -> ReadFault {
        ReadFault::Memory
    }
}

/// The length of the buffer that bytes are read into: a read of a file gives no more, and it stays in the cache.
///
/// Proofs see no more of it than the clause: from the number itself they would compute a list that long.
fn piece_len() -> usize
    ensures { 0 < result }
{
    1 << 16
}

/// Reads a name from its first byte on: `limit` bytes, or all where there are fewer.
///
/// `cut` says whether there are more than `limit`. Memory can run out at any time.
pub fn read_all<S: Shelf>(
    alloc: Global,
    shelf: &mut S,
    name: &str,
    limit: u64,
) -> Result<Whole, ReadFault>
    // Where the bytes of the name are known.
    ensures whole { (content : List ℕ) → S.known shelf.old name.now ≡ has_bytes content
        → IfOk result (λ whole. IsWhole content limit whole.bytes.items whole.cut) }
    ensures missing { S.known shelf.old name.now ≡ missing → IsErr result }

    // Where they are unknown, too.
    ensures bound { IfOk result (λ whole. vec_len whole.bytes ≤ limit) }
    ensures cut { IfOk result (λ whole. IsTrue whole.cut → vec_len whole.bytes ≡ limit) }
    ensures device { IsErrOf result ReadFault.Device
        → Rose (S.faults shelf.old name.now) (S.faults shelf.new name.now) }

    // What a read changes: the reach and the faults of this name.
    ensures known { (n : List ℕ) → S.known shelf.new n ≡ S.known shelf.old n }
    ensures others { (n : List ℕ) → n ≢ name.now → S.reach shelf.new n ≡ S.reach shelf.old n }
    ensures count { (n : List ℕ) → S.faults shelf.old n ≤ S.faults shelf.new n }
{
    let len = piece_len();
    let mut piece = vec![in alloc; 0u8; len]?;
    let mut bytes = Vec::new(alloc);
    while (bytes.len() as u64) < limit {
        let room = (limit - bytes.len() as u64).min(len as u64) as usize;
        if read_piece(shelf, name, &mut bytes, &mut piece[..room])? == 0 {
            return Ok(Whole { bytes, cut: false });
        }
    }
    let count = shelf.read_at(name, limit, &mut [0u8])?;
    Ok(Whole {
        bytes,
        cut: count > 0,
    })
}

/// Reads the next bytes after those that are there, and gives their count: 0 at the end of the name.
fn read_piece<S: Shelf>(
    shelf: &mut S,
    name: &str,
    bytes: &mut Vec<u8>,
    piece: &mut [u8],
) -> Result<usize, ReadFault>
    requires { 0 < length piece.old }
    ensures prefix { (content : List ℕ) → S.known shelf.old name.now ≡ has_bytes content
        → IsBytePrefix content bytes.old.items
        → OnOk result (IsBytePrefix content bytes.new.items) }
    ensures end { (content : List ℕ) → S.known shelf.old name.now ≡ has_bytes content
        → IsBytePrefix content bytes.old.items → result ≡ Ok 0 → bytes.new.items ≡ content }
    ensures missing { S.known shelf.old name.now ≡ missing → IsErr result }
    ensures length { IfOk result (λ count. (count ≤ length piece.new)
        × (vec_len bytes.new ≡ vec_len bytes.old + count)) }
    ensures device { IsErrOf result ReadFault.Device
        → Rose (S.faults shelf.old name.now) (S.faults shelf.new name.now) }
    ensures known { (n : List ℕ) → S.known shelf.new n ≡ S.known shelf.old n }
    ensures others { (n : List ℕ) → n ≢ name.now → S.reach shelf.new n ≡ S.reach shelf.old n }
    ensures count { (n : List ℕ) → S.faults shelf.old n ≤ S.faults shelf.new n }
{
    let count = shelf.read_at(name, bytes.len() as u64, piece)?;
    bytes.extend_from_slice(&piece[..count])?;
    Ok(count)
}
