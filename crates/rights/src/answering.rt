//! The answers to the lines of a log that have come to their end, one after another.

ghost use Rattle.std.specs.Prelude.{◌≡◌, ◌≢◌, ℕ, ◌+◌, ◌<◌, ◌≤◌, ◌^◌, Bool, List, length, Option, None, Err, IfOk};
ghost use Rattle.audit_core.specs.Standing.{StandsFor};
ghost use Rattle.history_model.specs.History.{History};
ghost use Rattle.rights_report.specs.AnswerLines.{answer_lines as lines_of_answer};
ghost use Rattle.outside.specs.Count.{Rose};
ghost use Rattle.rights.specs.HandledLines.{log_limit};
ghost use Rattle.rights.specs.Outcome.{has_findings as has_some};
ghost use Rattle.rights.specs.Partway.{Handled, IsPartway, IsReady};
ghost use Rattle.rights.specs.Stopping.{HandlesEvent, PutsLines, ReadsNext};

use crate::stopping::{Stop, stop_of_event, stop_of_line};
use audit_core::Session;
use edit_log::Lines;
use history_model::answers::Answer;
use history_model::events::Event;
use outside::Sink;
use phys_view::{Ledger, Steps};
use rights_report::{LineBuffer, line_count, write_line};

/// Answers the lines of a log that have come to their end, up to the first that is refused. Each line of output is one
/// put.
///
/// It answers whether one of these lines is a point that found a stale translation. What `line` holds is no matter.
pub fn answer_ready<K: Sink, L: Ledger>(
    session: &mut Session<'_, L>,
    lines: &mut Lines,
    line: &mut LineBuffer,
    out: &mut K,
    steps: &mut Steps<L>,
) -> Result<bool, Stop>
    requires unrefused { lines.old.refused ≡ None }
    requires stands { (moment : History) × StandsFor session.old moment }
    requires time { session.old.happened + length lines.old.rest ≤ log_limit }
    ensures handled { (start : History) (more : Bool) (log unread : List ℕ)
        (before : Option (List (List ℕ))) (stale : Bool)
        → IsPartway start more log unread session.old before (K.pieces out.old) lines.old stale
        → Handled start more log unread session.new before (K.pieces out.new) lines.new
        stale result }
    ensures ready { IfOk result (λ _. IsReady lines.new) }
    ensures finished { IfOk result (λ _. lines.new.finished ≡ lines.old.finished) }
    ensures time { IfOk result (λ _. session.new.happened + length lines.new.rest
        ≤ session.old.happened + length lines.old.rest) }
    ensures reads { result ≢ Err Stop.Read }
    ensures cause { result ≡ Err Stop.Put → Rose (K.faults out.old) (K.faults out.new) }
    ensures count { K.faults out.old ≤ K.faults out.new }
{
    let mut stale = false;
    'events: while let Some(event) = next_event(lines)? {
        let number = lines.line();
        let answer = step(session, &event, number, steps)?;
        put_answer(&answer, line, out)?;
        stale |= has_findings(&answer);
    }
    Ok(stale)
}

/// The event of the next line that isn't skipped; none where each line that has come to its end is taken.
pub fn next_event(lines: &mut Lines) -> Result<Option<Event>, Stop>
    requires { lines.old.refused ≡ None }
    ensures { ReadsNext lines.old lines.new result }
{
    let event = lines.next();
    let number = lines.line();
    event.map_err(|fault| stop_of_line(number, fault))
}

/// Handles the event of the line of a number.
pub fn step<L: Ledger>(
    session: &mut Session<'_, L>,
    event: &Event,
    number: u64,
    steps: &mut Steps<L>,
) -> Result<Answer, Stop>
    requires { session.old.happened + 1 < 2 ^ 32 }
    ensures { HandlesEvent session.old session.new event.now number result }
{
    let answer = session.step(event, steps);
    answer.map_err(|fault| stop_of_event(number, fault))
}

/// Puts the lines of an answer, each as one piece.
fn put_answer<K: Sink>(answer: &Answer, line: &mut LineBuffer, out: &mut K) -> Result<(), Stop>
    ensures puts { PutsLines (K.pieces out.old) (K.pieces out.new)
        (lines_of_answer answer.now) result }
    ensures cause { result ≡ Err Stop.Put → Rose (K.faults out.old) (K.faults out.new) }
    ensures count { K.faults out.old ≤ K.faults out.new }
{
    for index in 0..line_count(answer) {
        write_line(line, answer, index);
        out.put(line.bytes())?;
    }
    Ok(())
}

/// Whether an answer has stale translations.
fn has_findings(answer: &Answer) -> bool
    ensures { result ≡ has_some answer.now }
{
    match answer {
        Answer::Verdict(findings) => !findings.as_slice().is_empty(),
        _ => false,
    }
}
