//! A sink over a writer.

use crate::buffered::Buffered;
use crate::shelf::Failed;
use crate::sink::Sink;
use std::alloc::Global;
use std::io::Write;

/// Writes to a writer. Pieces that were put are buffered until they are 65,536 bytes together; [`WriterSink::flush`]
/// writes the rest.
///
/// After a failed write nothing more is written, since it would stand after a gap, and each call fails.
#[derive(Drop)]
pub struct WriterSink<W> {
    writer: W,
    buffered: Buffered,
    faults: u64,
}

impl<W: Write> WriterSink<W> {
    ghost use Rattle.std.specs.Prelude.{◌≡◌, ◌<◌, [], IsOk, IsErr, OnOk, OnErr, is_ok};
    ghost use Rattle.std.specs.Io.KnownBytes.{Appends, Keeps};
    ghost use Rattle.outside.specs.Count.{faults_after};
    ghost use Rattle.outside.specs.Writer.{AppendsBytePrefix};
    ghost use Rattle.outside.specs.WriterSink.{write_fault_count, waiting_bytes, written_bytes};

    /// A sink with nothing to write and no faults yet.
    pub fn new(alloc: Global, writer: W) -> WriterSink<W>
        ensures written { written_bytes W.contents result ≡ W.contents writer }
        ensures waiting { waiting_bytes result ≡ [] }
        ensures faults { write_fault_count result ≡ 0 }
    {
        WriterSink {
            writer,
            buffered: Buffered::new(alloc),
            faults: 0,
        }
    }

    /// Writes what was put and isn't written yet.
    pub fn flush(&mut self) -> Result<(), Failed>
        // What was written grows by all that waited, or by a prefix of it.
        ensures waiting { OnOk result (waiting_bytes self.new ≡ []) }
        ensures ok { OnOk result (Appends (written_bytes W.contents self.old)
            (written_bytes W.contents self.new) (waiting_bytes self.old)) }
        ensures err { OnErr result (AppendsBytePrefix (written_bytes W.contents self.old)
            (written_bytes W.contents self.new) (waiting_bytes self.old)) }

        // Where nothing failed and nothing waits, nothing fails.
        ensures none { write_fault_count self.old ≡ 0 → waiting_bytes self.old ≡ [] → IsOk result }

        // The count moves at failures alone. After one, each call fails and nothing is written.
        ensures faults { write_fault_count self.new
            ≡ faults_after (write_fault_count self.old) result }
        ensures later { 0 < write_fault_count self.old → IsErr result
            × Keeps (written_bytes W.contents self.old) (written_bytes W.contents self.new) }
    {
        let is_done = self.faults == 0 && self.buffered.write(&mut self.writer).is_ok();
        self.answer(is_done)
    }

    /// The answer of a call that was done or failed. A failure is counted.
    fn answer(&mut self, is_done: bool) -> Result<(), Failed>
        ensures done { is_ok result ≡ is_done }
        ensures faults { write_fault_count self.new
            ≡ faults_after (write_fault_count self.old) result }
        ensures written { written_bytes W.contents self.new
            ≡ written_bytes W.contents self.old }
        ensures waiting { waiting_bytes self.new ≡ waiting_bytes self.old }
    {
        if is_done {
            return Ok(());
        }
        self.faults = self.faults.saturating_add(1);
        Err(Failed)
    }
}

impl<W: Write> Sink for WriterSink<W> {
    ghost use Rattle.std.specs.Prelude.{◌≡◌, ◌≤◌, ◌<◌, ◌++◌, None, IsErr, OnOk, OnErr};
    ghost use Rattle.std.specs.Io.KnownBytes.{Appends, Keeps};
    ghost use Rattle.outside.specs.Count.{Rose, faults_after};
    ghost use Rattle.outside.specs.Writer.{AppendsBytePrefix};
    ghost use Rattle.outside.specs.WriterSink.{write_fault_count, put_bytes, waiting_bytes, written_bytes};

    ghost pieces = { λ _. None };

    ghost faults = { write_fault_count };

    /// Puts a piece. At `Ok` it is written or buffered.
    fn put(&mut self, bytes: &[u8]) -> Result<(), Failed>
        ensures count { write_fault_count self.old ≤ write_fault_count self.new }
        ensures cause { OnErr result
            (Rose (write_fault_count self.old) (write_fault_count self.new)) }

        // What was written, and after it what waits, grow by the piece. At an error a prefix was
        // written of what waited and of the piece.
        ensures ok { OnOk result (Appends (put_bytes W.contents self.old)
            (put_bytes W.contents self.new) bytes.now) }
        ensures err { OnErr result (AppendsBytePrefix (written_bytes W.contents self.old)
            (written_bytes W.contents self.new) (waiting_bytes self.old ++ bytes.now)) }

        // The count moves at failures alone. After one, each call fails and nothing is written.
        ensures faults { write_fault_count self.new
            ≡ faults_after (write_fault_count self.old) result }
        ensures later { 0 < write_fault_count self.old → IsErr result
            × Keeps (written_bytes W.contents self.old) (written_bytes W.contents self.new) }
    {
        let is_done = self.faults == 0 && self.buffered.add(bytes, &mut self.writer).is_ok();
        self.answer(is_done)
    }
}
