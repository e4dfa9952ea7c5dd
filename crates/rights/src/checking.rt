//! What a core states, in one line.

ghost use Rattle.std.specs.Prelude.{◌≡◌, ◌≢◌, ◌⊎◌, ◌≤◌, Err};
ghost use Rattle.outside.specs.Count.{Rose};
ghost use Rattle.rights.specs.Reads.{FailedAt, FailsOnlyBy, ReadsOnly};
ghost use Rattle.rights.specs.Run.{EndsForCore, IsUnread};
ghost use Rattle.rights.specs.Stopping.{ChecksCore};

use crate::limits::CORE_LIMIT;
use crate::statuses::Status;
use crate::stopping::{Stop, finish, put_last};
use elf_core::parse;
use outside::{Shelf, Sink, read_all};
use rights_report::{LineBuffer, write_core_line};
use std::alloc::Global;

/// Puts the line of a core, or the one by which it is refused.
pub fn check<S: Shelf, K: Sink>(alloc: Global, core: &str, shelf: &mut S, out: &mut K) -> Status
    ensures ends { IsUnread (K.pieces out.old) (K.pieces out.new) result
        ⊎ EndsForCore (S.known shelf.old core.now) (K.pieces out.old) (K.pieces out.new) result }
    ensures causes { FailsOnlyBy
        (FailedAt (S.faults shelf.old) (S.faults shelf.new) core.now)
        (Rose (K.faults out.old) (K.faults out.new)) result }
    ensures reads { ReadsOnly (λ n. n ≡ core.now)
        (S.known shelf.old) (S.known shelf.new) (S.reach shelf.old) (S.reach shelf.new)
        (S.faults shelf.old) (S.faults shelf.new) }
    ensures write_count { K.faults out.old ≤ K.faults out.new }

    // For the caller's proof.
    ensures never { result ≢ Status.Usage }
{
    match core_text(alloc, core, shelf) {
        Ok(line) => put_last(line.bytes(), Status::Answered, out),
        Err(stop) => finish(alloc, stop, out),
    }
}

/// Reads a core, and makes its line.
fn core_text<S: Shelf>(alloc: Global, core: &str, shelf: &mut S) -> Result<LineBuffer, Stop>
    ensures checks { ChecksCore (S.known shelf.old core.now) result }
    ensures cause { result ≡ Err Stop.Read
        → FailedAt (S.faults shelf.old) (S.faults shelf.new) core.now }
    ensures reads { ReadsOnly (λ n. n ≡ core.now)
        (S.known shelf.old) (S.known shelf.new) (S.reach shelf.old) (S.reach shelf.new)
        (S.faults shelf.old) (S.faults shelf.new) }
{
    let file = read_all(alloc, shelf, core, CORE_LIMIT)?;
    if file.cut {
        return Err(Stop::LongCore);
    }
    let core = parse(alloc, &file.bytes)?;
    let mut line = LineBuffer::new();
    write_core_line(&mut line, &core);
    Ok(line)
}
