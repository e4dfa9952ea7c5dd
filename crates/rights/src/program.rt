//! The top call.

ghost use Rattle.std.specs.Prelude.{◌≡◌, ◌≢◌, ◌⊎◌, ◌≤◌, ℕ, List, Err, IfOk};
ghost use Rattle.outside.specs.Count.{Rose};
ghost use Rattle.outside.specs.Shelf.{has_bytes};
ghost use Rattle.rights.specs.Arguments.{form_of as form_of_texts, texts, HasNoForm, IsCheck, IsGen, IsNamed, IsRun};
ghost use Rattle.rights.specs.Ends.{AddsOutcome, Ends};
ghost use Rattle.rights_report.specs.FixedLines.{usage_line};
ghost use Rattle.rights.specs.Jobs.{one_line};
ghost use Rattle.rights.specs.LogPieces.{FailsAtReach};
ghost use Rattle.rights.specs.Reads.{FailedToRead, FailedToReadFor, FailsOnlyBy, ReadsOnly};
ghost use Rattle.rights.specs.Run.{EndsBySummary, EndsForCore, EndsForFiles, EndsWith, IsAccepted, IsUnread, check_job, gen_job, job_of};
ghost use Rattle.rights.specs.Stopping.{end_of, StopsForFiles};

use crate::arguments::{Form, form_of};
use crate::checking::check;
use crate::generating::generate;
use crate::limits::CORE_LIMIT;
use crate::log_reading::answer_log;
use crate::statuses::Status;
use crate::stopping::{Stop, finish};
use audit_core::Session;
use elf_core::parse;
use outside::{Shelf, Sink, read_all};
use phys_view::{Ledger, Steps};
use std::alloc::Global;

/// Does all that the program does: answers the lines of a log about a core, or says what a core states.
///
/// The arguments `run CORE LOG` name two files of the shelf. What is written is their outcome: the lines that
/// `IsOutcome` gives for the core's bytes and the log's, each put as one piece. Of `check CORE` it is one line, and of
/// `gen SEED COUNT` the summary of a log that is generated.
///
/// | Exit status | Where | What was written |
/// |---|---|---|
/// | 0 | the log was answered to its end; or the core is accepted | the outcome |
/// | 1 | and some point found a stale translation | the outcome |
/// | 2 | the arguments have no known form | the usage line |
/// | 3 | the core is refused | the outcome: the refusal |
/// | 4 | a line of the log, or its length, is refused | the outcome: the answers before, and the refusal |
/// | 5 | a read of a file failed | the answers to the lines of the log that end in what was read of it |
/// | 6 | a put failed | the lines of what was handled, and of the next ones a part, the last truncated |
/// | 7 | out of memory | the lines of what was handled, and of the next ones a part |
pub fn run<S: Shelf, K: Sink, L: Ledger>(
    alloc: Global,
    arguments: &[&str],
    shelf: &mut S,
    out: &mut K,
    steps: &mut Steps<L>,
) -> u8
    // Arguments of no form: the usage line was written, or its put failed.
    ensures usage { HasNoForm arguments.now → EndsWith result (λ status.
        ((status ≡ Status.Usage) ⊎ (status ≡ Status.WriteFailed))
        × Ends (one_line usage_line Status.Usage) (K.pieces out.old) (K.pieces out.new) status) }

    // Else what the files say was written, as far as the status has it; or nothing, since a file couldn't be read or
    // memory ran out.
    ensures outcome { (core log : List ℕ) → IsRun arguments.now core log
        → EndsWith result (λ status. (status ≢ Status.Usage)
        × (IsUnread (K.pieces out.old) (K.pieces out.new) status
        ⊎ EndsForFiles (S.known shelf.old core) (S.known shelf.old log)
        (K.pieces out.old) (K.pieces out.new) status)) }

    // With status 5 the answers to the lines that end in what was read of the log were written, and nothing else.
    ensures read_failed { (core log bytes : List ℕ) → IsRun arguments.now core log
        → S.known shelf.old log ≡ has_bytes bytes
        → EndsWith result (λ status. status ≡ Status.ReadFailed
        → FailsAtReach core log (S.known shelf.old core) bytes
        (S.reach shelf.old log) (S.reach shelf.new log) (K.pieces out.old) (K.pieces out.new)) }

    // A check writes the core's line or its refusal, as far as the status has it; or nothing.
    ensures checked { (core : List ℕ) → IsCheck arguments.now core
        → EndsWith result (λ status. (status ≢ Status.Usage)
        × (IsUnread (K.pieces out.old) (K.pieces out.new) status
        ⊎ EndsForCore (S.known shelf.old core) (K.pieces out.old) (K.pieces out.new) status)) }

    // A generated run writes its summary, as far as the status has it.
    ensures generated { (seed count : ℕ) → IsGen arguments.now seed count
        → EndsWith result (λ status. EndsBySummary status
        × Ends (gen_job seed count) (K.pieces out.old) (K.pieces out.new) status) }

    // Faults have causes: reads failed of the core, or of the log of an accepted core; a put failed.
    ensures causes { EndsWith result (FailsOnlyBy
        (FailedToReadFor arguments.now
        (S.known shelf.old) (S.faults shelf.old) (S.faults shelf.new))
        (Rose (K.faults out.old) (K.faults out.new))) }

    // Where both files are known and nothing failed, there is an outcome and it was written, or memory ran out.
    ensures complete { (core log core_bytes log_bytes : List ℕ) → IsRun arguments.now core log
        → S.known shelf.old core ≡ has_bytes core_bytes
        → S.known shelf.old log ≡ has_bytes log_bytes
        → ¬ Rose (S.faults shelf.old core) (S.faults shelf.new core)
        → ¬ Rose (S.faults shelf.old log) (S.faults shelf.new log)
        → ¬ Rose (K.faults out.old) (K.faults out.new)
        → EndsWith result (λ status.
        AddsOutcome (job_of core_bytes log_bytes) (K.pieces out.old) (K.pieces out.new) status
        ⊎ (status ≡ Status.OutOfMemory)) }

    ensures check_complete { (core bytes : List ℕ) → IsCheck arguments.now core
        → S.known shelf.old core ≡ has_bytes bytes
        → ¬ Rose (S.faults shelf.old core) (S.faults shelf.new core)
        → ¬ Rose (K.faults out.old) (K.faults out.new)
        → EndsWith result (λ status.
        AddsOutcome (check_job bytes) (K.pieces out.old) (K.pieces out.new) status
        ⊎ (status ≡ Status.OutOfMemory)) }

    ensures gen_complete { (seed count : ℕ) → IsGen arguments.now seed count
        → ¬ Rose (K.faults out.old) (K.faults out.new)
        → EndsWith result (λ status.
        AddsOutcome (gen_job seed count) (K.pieces out.old) (K.pieces out.new) status
        ⊎ (status ≡ Status.OutOfMemory)) }

    // Only the files that the arguments name are read, the log of an accepted core alone; no count of faults falls.
    ensures reads { ReadsOnly (IsNamed (form_of_texts (texts arguments.now)))
        (S.known shelf.old) (S.known shelf.new) (S.reach shelf.old) (S.reach shelf.new)
        (S.faults shelf.old) (S.faults shelf.new) }
    ensures log_unread { (core log bytes : List ℕ)
        → IsRun arguments.now core log → S.known shelf.old core ≡ has_bytes bytes
        → ¬ IsAccepted bytes → log ≢ core
        → S.reach shelf.new log ≡ S.reach shelf.old log }
    ensures write_count { K.faults out.old ≤ K.faults out.new }
{
    match form_of(arguments) {
        Some(Form::Run { core, log }) => answer(alloc, core, log, shelf, out, steps).code(),
        Some(Form::Check { core }) => check(alloc, core, shelf, out).code(),
        Some(Form::Gen { seed, count }) => generate(alloc, seed, count, out, steps).code(),
        None => finish(alloc, Stop::Usage, out).code(),
    }
}

/// Answers a log about a core, up to the line with which the run ends.
fn answer<S: Shelf, K: Sink, L: Ledger>(
    alloc: Global,
    core: &str,
    log: &str,
    shelf: &mut S,
    out: &mut K,
    steps: &mut Steps<L>,
) -> Status
    ensures ends { IsUnread (K.pieces out.old) (K.pieces out.new) result
        ⊎ EndsForFiles (S.known shelf.old core.now) (S.known shelf.old log.now)
        (K.pieces out.old) (K.pieces out.new) result }
    ensures read_failed { (bytes : List ℕ) → S.known shelf.old log.now ≡ has_bytes bytes
        → result ≡ Status.ReadFailed
        → FailsAtReach core.now log.now (S.known shelf.old core.now) bytes
        (S.reach shelf.old log.now) (S.reach shelf.new log.now)
        (K.pieces out.old) (K.pieces out.new) }
    ensures causes { FailsOnlyBy
        (FailedToRead (S.known shelf.old) (S.faults shelf.old) (S.faults shelf.new)
        core.now log.now)
        (Rose (K.faults out.old) (K.faults out.new)) result }
    ensures complete { (core_bytes log_bytes : List ℕ)
        → S.known shelf.old core.now ≡ has_bytes core_bytes
        → S.known shelf.old log.now ≡ has_bytes log_bytes
        → ¬ Rose (S.faults shelf.old core.now) (S.faults shelf.new core.now)
        → ¬ Rose (S.faults shelf.old log.now) (S.faults shelf.new log.now)
        → ¬ Rose (K.faults out.old) (K.faults out.new)
        → AddsOutcome (job_of core_bytes log_bytes) (K.pieces out.old) (K.pieces out.new) result
        ⊎ (result ≡ Status.OutOfMemory) }
    ensures reads { ReadsOnly (λ n. (n ≡ core.now) ⊎ (n ≡ log.now))
        (S.known shelf.old) (S.known shelf.new) (S.reach shelf.old) (S.reach shelf.new)
        (S.faults shelf.old) (S.faults shelf.new) }
    ensures log_unread { (bytes : List ℕ) → S.known shelf.old core.now ≡ has_bytes bytes
        → ¬ IsAccepted bytes → log.now ≢ core.now
        → S.reach shelf.new log.now ≡ S.reach shelf.old log.now }
    ensures write_count { K.faults out.old ≤ K.faults out.new }

    // For the caller's proof.
    ensures never { result ≢ Status.Usage }
{
    match answer_files(alloc, core, log, shelf, out, steps) {
        Ok(status) => status,
        Err(stop) => finish(alloc, stop, out),
    }
}

/// Reads a core and a log, and answers the lines of the log.
fn answer_files<S: Shelf, K: Sink, L: Ledger>(
    alloc: Global,
    core: &str,
    log: &str,
    shelf: &mut S,
    out: &mut K,
    steps: &mut Steps<L>,
) -> Result<Status, Stop>
    ensures ends { IsUnread (K.pieces out.old) (K.pieces out.new) (end_of result)
        ⊎ StopsForFiles (S.known shelf.old core.now) (S.known shelf.old log.now)
        (K.pieces out.old) (K.pieces out.new) result }
    ensures read_failed { (bytes : List ℕ) → S.known shelf.old log.now ≡ has_bytes bytes
        → result ≡ Err Stop.Read
        → FailsAtReach core.now log.now (S.known shelf.old core.now) bytes
        (S.reach shelf.old log.now) (S.reach shelf.new log.now)
        (K.pieces out.old) (K.pieces out.new) }
    ensures causes { FailsOnlyBy
        (FailedToRead (S.known shelf.old) (S.faults shelf.old) (S.faults shelf.new)
        core.now log.now)
        (Rose (K.faults out.old) (K.faults out.new)) (end_of result) }
    ensures reads { ReadsOnly (λ n. (n ≡ core.now) ⊎ (n ≡ log.now))
        (S.known shelf.old) (S.known shelf.new) (S.reach shelf.old) (S.reach shelf.new)
        (S.faults shelf.old) (S.faults shelf.new) }
    ensures log_unread { (bytes : List ℕ) → S.known shelf.old core.now ≡ has_bytes bytes
        → ¬ IsAccepted bytes → log.now ≢ core.now
        → S.reach shelf.new log.now ≡ S.reach shelf.old log.now }
    ensures write_count { K.faults out.old ≤ K.faults out.new }

    // For the caller's proof.
    ensures ended { IfOk result (λ status. status ≢ Status.ReadFailed) }
{
    let file = read_all(alloc, shelf, core, CORE_LIMIT)?;
    if file.cut {
        return Err(Stop::LongCore);
    }
    let core = parse(alloc, &file.bytes)?;
    let mut session: Session<'_, L> = Session::start(alloc, core)?;
    answer_log(alloc, &mut session, log, shelf, out, steps)
}
