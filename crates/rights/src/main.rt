//! Answers the lines of a log about a memory core: `run CORE LOG`. Says what a core states: `check CORE`. Sums up the
//! answers to a generated log: `gen SEED COUNT`.
//!
//! The program is the top call `run` over the host's files and standard output. Its exit status is that of the call, 6
//! where the rest of the output isn't taken, or 9 where it can't get its arguments.
//!
//! No clause can speak of what `main` has from the host, nor of the exit status that it hands back:
//! `tools/test_program.py` runs the built program to see them.
#![tactic(auto)]

ghost use Rattle.std.specs.Prelude.{◌≡◌, ◌≢◌, ◌⊎◌, ◌<◌, ◌≤◌, ℕ, List, [], None};
ghost use Rattle.outside.specs.Count.{Rose};
ghost use Rattle.outside.specs.Shelf.{has_bytes};
ghost use Rattle.outside.specs.WriterSink.{waiting_bytes, write_fault_count};
ghost use Rattle.rights.specs.Arguments.{form_of as form_of_texts, texts, HasNoForm, IsCheck, IsGen, IsNamed, IsRun};
ghost use Rattle.rights.specs.Ends.{AddsOutcome, Ends};
ghost use Rattle.rights.specs.Jobs.{one_line};
ghost use Rattle.rights.specs.LogPieces.{FailsAtReach};
ghost use Rattle.rights.specs.Reads.{FailedToReadFor, FailsOnlyBy, ReadsOnly};
ghost use Rattle.rights.specs.Run.{EndsBySummary, EndsForCore, EndsForFiles, EndsWith, IsAccepted, IsUnread, check_job, gen_job, job_of};
ghost use Rattle.rights_report.specs.FixedLines.{usage_line};

mod answering;
mod arguments;
mod checking;
mod examples;
mod generating;
mod laws;
mod limits;
mod log_reading;
mod program;
mod statuses;
mod stopping;

use outside::{Failed, FileShelf, HostFiles, Shelf, Sink, StreamSink, WriterSink};
use phys_view::{Steps, Uncounted};
use program::run;
use statuses::Status;
use std::alloc::{AllocError, Global};
use std::io::Write;
use std::marker::Brand;
use std::process::ExitCode;
use std::sync::ledger::{Blank, Ledger as Books};
use std::{env, io};

/// The exit status where the program can't get its arguments.
const NO_ARGUMENTS: u8 = 9;

fn main(rt: HostRuntime) -> ExitCode {
    let alloc = rt.alloc();
    let Some(owned) = own_arguments(&rt) else {
        return ExitCode::from(NO_ARGUMENTS);
    };
    let Ok(arguments) = as_strs(alloc, &owned) else {
        return ExitCode::from(NO_ARGUMENTS);
    };
    let mut shelf = FileShelf::new(alloc, HostFiles::new(rt));
    let mut out: StreamSink<'_> = WriterSink::new(alloc, io::writer(&rt));
    ExitCode::from(run_and_flush(alloc, &arguments, &mut shelf, &mut out))
}

/// The arguments after the program's name; none where one isn't text, or where memory ran out.
fn own_arguments(rt: &HostRuntime) -> Option<Vec<String>> {
    match env::args(rt) {
        Ok(args) => args.skip(1).collect(rt.alloc()).ok(),
        Err(_) => None,
    }
}

/// Borrows each argument.
fn as_strs(alloc: Global, arguments: &[String]) -> Result<Vec<&str>, AllocError> {
    arguments.iter().map(|one| one.as_str()).collect(alloc)
}

/// A run, and then the flush of its output: what was put is written, however the run ends.
fn run_and_flush<S: Shelf, W: Write>(
    alloc: Global,
    arguments: &[&str],
    shelf: &mut S,
    out: &mut WriterSink<W>,
) -> u8
    // The status is that of the run, or 6.
    ensures usage { HasNoForm arguments.now → EndsWith result (λ status.
        (status ≡ Status.Usage) ⊎ (status ≡ Status.WriteFailed)) }
    ensures outcome { (core log : List ℕ) → IsRun arguments.now core log
        → EndsWith result (λ status. (status ≡ Status.WriteFailed)
        ⊎ ((status ≢ Status.Usage) × (IsUnread None None status
        ⊎ EndsForFiles (S.known shelf.old core) (S.known shelf.old log) None None status))) }
    ensures checked { (core : List ℕ) → IsCheck arguments.now core
        → EndsWith result (λ status. (status ≡ Status.WriteFailed)
        ⊎ ((status ≢ Status.Usage) × (IsUnread None None status
        ⊎ EndsForCore (S.known shelf.old core) None None status))) }
    ensures generated { (seed count : ℕ) → IsGen arguments.now seed count
        → EndsWith result (λ status. EndsBySummary status
        × ((status ≡ Status.WriteFailed) ⊎ Ends (gen_job seed count) None None status)) }
    ensures causes { EndsWith result (FailsOnlyBy
        (FailedToReadFor arguments.now
        (S.known shelf.old) (S.faults shelf.old) (S.faults shelf.new))
        (Rose (write_fault_count out.old) (write_fault_count out.new))) }
    ensures complete { (core log core_bytes log_bytes : List ℕ) → IsRun arguments.now core log
        → S.known shelf.old core ≡ has_bytes core_bytes
        → S.known shelf.old log ≡ has_bytes log_bytes
        → ¬ Rose (S.faults shelf.old core) (S.faults shelf.new core)
        → ¬ Rose (S.faults shelf.old log) (S.faults shelf.new log)
        → ¬ Rose (write_fault_count out.old) (write_fault_count out.new)
        → EndsWith result (λ status. AddsOutcome (job_of core_bytes log_bytes) None None status
        ⊎ (status ≡ Status.OutOfMemory)) }
    ensures check_complete { (core bytes : List ℕ) → IsCheck arguments.now core
        → S.known shelf.old core ≡ has_bytes bytes
        → ¬ Rose (S.faults shelf.old core) (S.faults shelf.new core)
        → ¬ Rose (write_fault_count out.old) (write_fault_count out.new)
        → EndsWith result (λ status. AddsOutcome (check_job bytes) None None status
        ⊎ (status ≡ Status.OutOfMemory)) }
    ensures gen_complete { (seed count : ℕ) → IsGen arguments.now seed count
        → ¬ Rose (write_fault_count out.old) (write_fault_count out.new)
        → EndsWith result (λ status. AddsOutcome (gen_job seed count) None None status
        ⊎ (status ≡ Status.OutOfMemory)) }
    ensures reads { ReadsOnly (IsNamed (form_of_texts (texts arguments.now)))
        (S.known shelf.old) (S.known shelf.new) (S.reach shelf.old) (S.reach shelf.new)
        (S.faults shelf.old) (S.faults shelf.new) }
    ensures log_unread { (core log bytes : List ℕ)
        → IsRun arguments.now core log → S.known shelf.old core ≡ has_bytes bytes
        → ¬ IsAccepted bytes → log ≢ core
        → S.reach shelf.new log ≡ S.reach shelf.old log }

    // With another status than 6, nothing waits to be written.
    ensures flushed { EndsWith result (λ status.
        (status ≡ Status.WriteFailed) ⊎ (waiting_bytes out.new ≡ [])) }
{
    let code = run_uncounted(alloc, arguments, shelf, out);
    match out.flush() {
        Ok(()) => code,
        Err(Failed) => Status::WriteFailed.code(),
    }
}

/// A run whose steps nobody counts.
///
/// The clauses are those of [`run`]. The program has two functions of its own where `phys_view::answer_of` makes a
/// counter for a reader: what a reader `gives` is said of its answer alone, and the clauses of a run speak of the shelf
/// and the output after it.
fn run_uncounted<S: Shelf, K: Sink>(
    alloc: Global,
    arguments: &[&str],
    shelf: &mut S,
    out: &mut K,
) -> u8
    ensures usage { HasNoForm arguments.now → EndsWith result (λ status.
        ((status ≡ Status.Usage) ⊎ (status ≡ Status.WriteFailed))
        × Ends (one_line usage_line Status.Usage) (K.pieces out.old) (K.pieces out.new) status) }
    ensures outcome { (core log : List ℕ) → IsRun arguments.now core log
        → EndsWith result (λ status. (status ≢ Status.Usage)
        × (IsUnread (K.pieces out.old) (K.pieces out.new) status
        ⊎ EndsForFiles (S.known shelf.old core) (S.known shelf.old log)
        (K.pieces out.old) (K.pieces out.new) status)) }
    ensures checked { (core : List ℕ) → IsCheck arguments.now core
        → EndsWith result (λ status. (status ≢ Status.Usage)
        × (IsUnread (K.pieces out.old) (K.pieces out.new) status
        ⊎ EndsForCore (S.known shelf.old core) (K.pieces out.old) (K.pieces out.new) status)) }
    ensures generated { (seed count : ℕ) → IsGen arguments.now seed count
        → EndsWith result (λ status. EndsBySummary status
        × Ends (gen_job seed count) (K.pieces out.old) (K.pieces out.new) status) }
    ensures read_failed { (core log bytes : List ℕ) → IsRun arguments.now core log
        → S.known shelf.old log ≡ has_bytes bytes
        → EndsWith result (λ status. status ≡ Status.ReadFailed
        → FailsAtReach core log (S.known shelf.old core) bytes
        (S.reach shelf.old log) (S.reach shelf.new log) (K.pieces out.old) (K.pieces out.new)) }
    ensures causes { EndsWith result (FailsOnlyBy
        (FailedToReadFor arguments.now
        (S.known shelf.old) (S.faults shelf.old) (S.faults shelf.new))
        (Rose (K.faults out.old) (K.faults out.new))) }
    ensures complete { (core log core_bytes log_bytes : List ℕ) → IsRun arguments.now core log
        → S.known shelf.old core ≡ has_bytes core_bytes
        → S.known shelf.old log ≡ has_bytes log_bytes
        → ¬ Rose (S.faults shelf.old core) (S.faults shelf.new core)
        → ¬ Rose (S.faults shelf.old log) (S.faults shelf.new log)
        → ¬ Rose (K.faults out.old) (K.faults out.new)
        → EndsWith result (λ status.
        AddsOutcome (job_of core_bytes log_bytes) (K.pieces out.old) (K.pieces out.new) status
        ⊎ (status ≡ Status.OutOfMemory)) }
    ensures check_complete { (core bytes : List ℕ) → IsCheck arguments.now core
        → S.known shelf.old core ≡ has_bytes bytes
        → ¬ Rose (S.faults shelf.old core) (S.faults shelf.new core)
        → ¬ Rose (K.faults out.old) (K.faults out.new)
        → EndsWith result (λ status.
        AddsOutcome (check_job bytes) (K.pieces out.old) (K.pieces out.new) status
        ⊎ (status ≡ Status.OutOfMemory)) }
    ensures gen_complete { (seed count : ℕ) → IsGen arguments.now seed count
        → ¬ Rose (K.faults out.old) (K.faults out.new)
        → EndsWith result (λ status.
        AddsOutcome (gen_job seed count) (K.pieces out.old) (K.pieces out.new) status
        ⊎ (status ≡ Status.OutOfMemory)) }
    ensures reads { ReadsOnly (IsNamed (form_of_texts (texts arguments.now)))
        (S.known shelf.old) (S.known shelf.new) (S.reach shelf.old) (S.reach shelf.new)
        (S.faults shelf.old) (S.faults shelf.new) }
    ensures log_unread { (core log bytes : List ℕ)
        → IsRun arguments.now core log → S.known shelf.old core ≡ has_bytes bytes
        → ¬ IsAccepted bytes → log ≢ core
        → S.reach shelf.new log ≡ S.reach shelf.old log }
    ensures write_count { K.faults out.old ≤ K.faults out.new }
{
    run_with::<S, K, Brand>(alloc, arguments, shelf, out, Blank::new(1))
}

/// A run over steps whose count starts with a blank.
fn run_with<S: Shelf, K: Sink, B: Books>(
    alloc: Global,
    arguments: &[&str],
    shelf: &mut S,
    out: &mut K,
    blank: Blank,
) -> u8
    requires name { blank.name ≡ B.name }
    requires parts { blank.parts ≡ B.parts }
    requires some { 0 < B.parts }
    ensures usage { HasNoForm arguments.now → EndsWith result (λ status.
        ((status ≡ Status.Usage) ⊎ (status ≡ Status.WriteFailed))
        × Ends (one_line usage_line Status.Usage) (K.pieces out.old) (K.pieces out.new) status) }
    ensures outcome { (core log : List ℕ) → IsRun arguments.now core log
        → EndsWith result (λ status. (status ≢ Status.Usage)
        × (IsUnread (K.pieces out.old) (K.pieces out.new) status
        ⊎ EndsForFiles (S.known shelf.old core) (S.known shelf.old log)
        (K.pieces out.old) (K.pieces out.new) status)) }
    ensures checked { (core : List ℕ) → IsCheck arguments.now core
        → EndsWith result (λ status. (status ≢ Status.Usage)
        × (IsUnread (K.pieces out.old) (K.pieces out.new) status
        ⊎ EndsForCore (S.known shelf.old core) (K.pieces out.old) (K.pieces out.new) status)) }
    ensures generated { (seed count : ℕ) → IsGen arguments.now seed count
        → EndsWith result (λ status. EndsBySummary status
        × Ends (gen_job seed count) (K.pieces out.old) (K.pieces out.new) status) }
    ensures read_failed { (core log bytes : List ℕ) → IsRun arguments.now core log
        → S.known shelf.old log ≡ has_bytes bytes
        → EndsWith result (λ status. status ≡ Status.ReadFailed
        → FailsAtReach core log (S.known shelf.old core) bytes
        (S.reach shelf.old log) (S.reach shelf.new log) (K.pieces out.old) (K.pieces out.new)) }
    ensures causes { EndsWith result (FailsOnlyBy
        (FailedToReadFor arguments.now
        (S.known shelf.old) (S.faults shelf.old) (S.faults shelf.new))
        (Rose (K.faults out.old) (K.faults out.new))) }
    ensures complete { (core log core_bytes log_bytes : List ℕ) → IsRun arguments.now core log
        → S.known shelf.old core ≡ has_bytes core_bytes
        → S.known shelf.old log ≡ has_bytes log_bytes
        → ¬ Rose (S.faults shelf.old core) (S.faults shelf.new core)
        → ¬ Rose (S.faults shelf.old log) (S.faults shelf.new log)
        → ¬ Rose (K.faults out.old) (K.faults out.new)
        → EndsWith result (λ status.
        AddsOutcome (job_of core_bytes log_bytes) (K.pieces out.old) (K.pieces out.new) status
        ⊎ (status ≡ Status.OutOfMemory)) }
    ensures check_complete { (core bytes : List ℕ) → IsCheck arguments.now core
        → S.known shelf.old core ≡ has_bytes bytes
        → ¬ Rose (S.faults shelf.old core) (S.faults shelf.new core)
        → ¬ Rose (K.faults out.old) (K.faults out.new)
        → EndsWith result (λ status.
        AddsOutcome (check_job bytes) (K.pieces out.old) (K.pieces out.new) status
        ⊎ (status ≡ Status.OutOfMemory)) }
    ensures gen_complete { (seed count : ℕ) → IsGen arguments.now seed count
        → ¬ Rose (K.faults out.old) (K.faults out.new)
        → EndsWith result (λ status.
        AddsOutcome (gen_job seed count) (K.pieces out.old) (K.pieces out.new) status
        ⊎ (status ≡ Status.OutOfMemory)) }
    ensures reads { ReadsOnly (IsNamed (form_of_texts (texts arguments.now)))
        (S.known shelf.old) (S.known shelf.new) (S.reach shelf.old) (S.reach shelf.new)
        (S.faults shelf.old) (S.faults shelf.new) }
    ensures log_unread { (core log bytes : List ℕ)
        → IsRun arguments.now core log → S.known shelf.old core ≡ has_bytes bytes
        → ¬ IsAccepted bytes → log ≢ core
        → S.reach shelf.new log ≡ S.reach shelf.old log }
    ensures write_count { K.faults out.old ≤ K.faults out.new }
{
    let mut steps = Steps::new(Uncounted::<B>::new(blank));
    run(alloc, arguments, shelf, out, &mut steps)
}

#[cfg(test)]
mod tests;
