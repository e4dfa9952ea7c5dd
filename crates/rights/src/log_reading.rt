//! A log that is read piece by piece, and answered as its lines end.

ghost use Rattle.std.specs.Prelude.{◌≡◌, ◌≢◌, ◌⊎◌, ℕ, ◌<◌, ◌≤◌, List, length, Err, IfOk};
ghost use Rattle.audit_core.specs.Standing.{StandsFor};
ghost use Rattle.history_model.specs.History.{Start, History, begun as begun_at};
ghost use Rattle.outside.specs.Count.{Rose};
ghost use Rattle.outside.specs.Shelf.{has_bytes};
ghost use Rattle.rights.specs.HandledLines.{log_limit};
ghost use Rattle.rights.specs.LogPieces.{HasRead, ReachesBy, ReadsPiece, StopsAtReach};
ghost use Rattle.rights.specs.Outcome.{end_status};
ghost use Rattle.rights.specs.Reads.{FailedAt, FailsOnlyBy, ReadsOnly};
ghost use Rattle.rights.specs.Run.{IsUnread};
ghost use Rattle.rights.specs.Stopping.{end_of, StopsForLog};

use crate::answering::answer_ready;
use crate::limits::LOG_LIMIT;
use crate::statuses::Status;
use crate::stopping::Stop;
use audit_core::Session;
use edit_log::Lines;
use outside::{Failed, Shelf, Sink};
use phys_view::{Ledger, Steps};
use rights_report::LineBuffer;
use std::alloc::Global;

/// The length of the buffer that the pieces of a log are read into.
///
/// Proofs see no more of it than the clause: from the number itself they would compute a list that long.
fn piece_len() -> usize
    ensures { 0 < result }
{
    65_536
}

/// Reads a log piece by piece, and answers its lines from the first event on. The lines that end in a piece are
/// answered before the next one is read.
pub fn answer_log<S: Shelf, K: Sink, L: Ledger>(
    alloc: Global,
    session: &mut Session<'_, L>,
    log: &str,
    shelf: &mut S,
    out: &mut K,
    steps: &mut Steps<L>,
) -> Result<Status, Stop>
    requires { (start : Start) × StandsFor session.old (begun_at start) }
    ensures ends { (start : History) → StandsFor session.old start
        → IsUnread (K.pieces out.old) (K.pieces out.new) (end_of result)
        ⊎ StopsForLog start (S.known shelf.old log.now)
        (K.pieces out.old) (K.pieces out.new) result }
    ensures read_failed { (start : History) (bytes : List ℕ) → StandsFor session.old start
        → S.known shelf.old log.now ≡ has_bytes bytes → result ≡ Err Stop.Read
        → StopsAtReach start bytes (S.reach shelf.old log.now) (S.reach shelf.new log.now)
        (K.pieces out.old) (K.pieces out.new) }
    ensures causes { FailsOnlyBy
        (FailedAt (S.faults shelf.old) (S.faults shelf.new) log.now)
        (Rose (K.faults out.old) (K.faults out.new)) (end_of result) }
    ensures reads { ReadsOnly (λ n. n ≡ log.now)
        (S.known shelf.old) (S.known shelf.new) (S.reach shelf.old) (S.reach shelf.new)
        (S.faults shelf.old) (S.faults shelf.new) }
    ensures write_count { K.faults out.old ≤ K.faults out.new }

    // For the caller's proof.
    ensures ended { IfOk result (λ status. status ≢ Status.ReadFailed) }
{
    let mut bytes = vec![in alloc; 0u8; piece_len()]?;
    let buffer = bytes.as_mut_slice();
    let mut lines = Lines::new(alloc);
    let mut line = LineBuffer::new();
    let mut read = 0;
    let mut stale = false;
    'pieces: while let Some(count) = next_piece(shelf, log, read, buffer)? {
        lines.feed(&buffer[..count])?;
        read += count as u64;
        stale |= answer_ready(session, &mut lines, &mut line, out, steps)?;
    }
    lines.finish();
    stale |= answer_ready(session, &mut lines, &mut line, out, steps)?;
    Ok(end(stale))
}

/// Reads the next piece of a log into a buffer, after the bytes that were read, and gives its length; none at the log's
/// end. A log that has more bytes than the limit is refused.
fn next_piece<S: Shelf>(
    shelf: &mut S,
    log: &str,
    read: u64,
    buffer: &mut [u8],
) -> Result<Option<usize>, Stop>
    requires room { 0 < length buffer.old }
    requires limit { read ≤ log_limit }
    ensures piece { (before : List ℕ) → length before ≡ read
        → HasRead (S.known shelf.old log.now) before
        → ReadsPiece (S.known shelf.old log.now) before buffer.new result }
    ensures reach { (bytes : List ℕ) → S.known shelf.old log.now ≡ has_bytes bytes
        → ReachesBy (S.reach shelf.old log.now) (S.reach shelf.new log.now) read result }
    ensures cause { result ≡ Err Stop.Read
        → FailedAt (S.faults shelf.old) (S.faults shelf.new) log.now }
    ensures reads { ReadsOnly (λ n. n ≡ log.now)
        (S.known shelf.old) (S.known shelf.new) (S.reach shelf.old) (S.reach shelf.new)
        (S.faults shelf.old) (S.faults shelf.new) }
{
    if read == LOG_LIMIT {
        return match shelf.read_at(log, read, &mut [0u8]) {
            Ok(0) => Ok(None),
            Ok(_) => Err(Stop::LongLog),
            Err(Failed) => Err(Stop::Read),
        };
    }
    let room = (LOG_LIMIT - read).min(buffer.len() as u64) as usize;
    match shelf.read_at(log, read, &mut buffer[..room]) {
        Ok(0) => Ok(None),
        Ok(count) => Ok(Some(count)),
        Err(Failed) => Err(Stop::Read),
    }
}

/// How a run ends after the last line of a log.
pub fn end(stale: bool) -> Status
    ensures { result ≡ end_status stale }
{
    if stale {
        Status::Stale
    } else {
        Status::Answered
    }
}
