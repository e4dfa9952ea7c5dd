//! Buffered output: bytes that wait to be written, so that one call of the system writes many pieces.

ghost use Rattle.std.specs.Prelude.{◌≡◌, ℕ, List, [], ◌++◌, IsOk, OnOk, OnErr};
ghost use Rattle.std.specs.Io.KnownBytes.{Appends, append_known};
ghost use Rattle.outside.specs.Writer.{AppendsBytePrefix};

use crate::shelf::Failed;
use std::alloc::Global;
use std::io::Write;
use std::marker::Model;

/// The number of bytes that are enough for a write.
const ENOUGH: usize = 65_536;

/// Bytes that wait to be written, in the order in which they came.
#[derive(Drop)]
pub struct Buffered {
    bytes: Vec<u8>,
}

impl Model for Buffered {
    ghost Value = { List ℕ };

    ghost view = { λ buffered. buffered.bytes.items };
}

impl Buffered {
    /// No bytes.
    pub fn new(alloc: Global) -> Buffered
        ensures { result ≡ [] }
    {
        Buffered {
            bytes: Vec::new(alloc),
        }
    }

    /// Adds a piece to the buffer. All is written where the buffer has 65,536 bytes or more, and where the memory for
    /// the piece runs out. After a failed write nothing more may be written.
    #[tactic(auto, using(crate::proofs::Writer::prefix_after))]
    pub fn add<W: Write>(&mut self, piece: &[u8], to: &mut W) -> Result<(), Failed>
        // What is written, and after it the buffer, grow by the piece.
        ensures ok { OnOk result (Appends (append_known (W.contents to.old) self.old)
            (append_known (W.contents to.new) self.new) piece.now) }
        ensures err { OnErr result (AppendsBytePrefix (W.contents to.old) (W.contents to.new)
            (self.old ++ piece.now)) }
    {
        if self.bytes.extend_from_slice(piece).is_err() {
            self.write(to)?;
            return write_bytes(piece, to);
        }
        if self.bytes.len() < ENOUGH {
            return Ok(());
        }
        self.write(to)
    }

    /// Writes the buffer. After a failed write nothing more may be written.
    pub fn write<W: Write>(&mut self, to: &mut W) -> Result<(), Failed>
        // An empty buffer is written without fail.
        ensures none { self.old ≡ [] → IsOk result }
        ensures empty { OnOk result (self.new ≡ []) }
        ensures ok { OnOk result (Appends (W.contents to.old) (W.contents to.new) self.old) }
        ensures err { OnErr result (AppendsBytePrefix (W.contents to.old) (W.contents to.new)
            self.old) }
    {
        write_bytes(self.bytes.as_slice(), to)?;
        self.bytes.clear();
        Ok(())
    }
}

/// Writes all of these bytes. An output that takes none of them has failed: asking again could go on for ever.
#[tactic(auto, using(crate::proofs::Writer::appends_next))]
fn write_bytes<W: Write>(bytes: &[u8], to: &mut W) -> Result<(), Failed>
    ensures none { bytes.now ≡ [] → IsOk result }
    ensures ok { OnOk result (Appends (W.contents to.old) (W.contents to.new) bytes.now) }
    ensures err { OnErr result (AppendsBytePrefix (W.contents to.old) (W.contents to.new)
        bytes.now) }
{
    let mut done = 0;
    while done < bytes.len() {
        match to.write(&bytes[done..]) {
            Ok(count) if count > 0 => done += count,
            _ => return Err(Failed),
        }
    }
    Ok(())
}
