//! What a run may write is single, goes line by line, and begins with what was written at a fault: laws of outcomes.
//!
//! Each function is a law: its `ensures` is the statement, and its body is empty.

ghost use Rattle.std.specs.Prelude.{◌≡◌, ℕ, Bool, List, Option};
ghost use Rattle.history_model.specs.History.{History};
ghost use Rattle.rights.specs.Ends.{AddsPrefix, AddsTruncated, Ends};
ghost use Rattle.rights.specs.Jobs.{IsOutcomeOf, Job};
ghost use Rattle.rights.specs.LineByLine.{SaysLineByLine};
ghost use Rattle.rights.specs.Outcome.{Outcome, SaysLog};
ghost use Rattle.rights.specs.Run.{IsOutcome};

use crate::statuses::Status;

/// A core and a log have at most one outcome.
pub fn a_core_and_a_log_have_one_outcome()
    ensures { (core log : List ℕ) (one other : Outcome)
        → IsOutcome core log one → IsOutcome core log other → one ≡ other }
{}

/// What is written for a log goes line by line: each line is skipped, refused, or answered and followed by what is
/// written for the next ones in the moment after it.
pub fn a_log_is_answered_line_by_line()
    ensures { (start : History) (more : Bool) (bytes : List ℕ) (outcome : Outcome)
        → SaysLog start more bytes outcome → SaysLineByLine start more bytes outcome }
{}

/// Where an outcome exists, what was put before a put failed begins it: whole lines, and of the next one a prefix of
/// its bytes at most. Where a read failed or memory ran out, whole lines were put.
pub fn what_was_put_begins_the_outcome()
    ensures write_failed { (job : Job) (outcome : Outcome) (before now : Option (List (List ℕ)))
        → IsOutcomeOf job outcome → Ends job before now Status.WriteFailed
        → AddsTruncated before now outcome.lines }
    ensures read_failed { (job : Job) (outcome : Outcome) (before now : Option (List (List ℕ)))
        → IsOutcomeOf job outcome → Ends job before now Status.ReadFailed
        → AddsPrefix before now outcome.lines }
    ensures out_of_memory { (job : Job) (outcome : Outcome) (before now : Option (List (List ℕ)))
        → IsOutcomeOf job outcome → Ends job before now Status.OutOfMemory
        → AddsPrefix before now outcome.lines }
{}
