//! A generated log that is answered, and the summary of its answers.

ghost use Rattle.std.specs.Prelude.{◌≡◌, ◌≢◌, ◌⊎◌, ◌+◌, ◌<◌, ◌≤◌, ◌^◌, nat_lt, IfOk, IfErr, OnOk, IsErr};
ghost use Rattle.audit_core.specs.Standing.{StandsFor};
ghost use Rattle.history_model.specs.History.{begun};
ghost use Rattle.image_gen.specs.Accepted.{generated_start};
ghost use Rattle.image_gen.specs.LineTexts.{generated_log};
ghost use Rattle.outside.specs.Count.{Rose};
ghost use Rattle.rights_report.specs.SummaryLines.{summary_lines};
ghost use Rattle.rights.specs.Ends.{Ends};
ghost use Rattle.rights.specs.Generated.{IsSummaryOf, with_answer as with_answer_of, with_event as with_event_of};
ghost use Rattle.rights.specs.Run.{EndsBySummary, gen_job};
ghost use Rattle.rights.specs.Stopping.{PutsLines};

use crate::answering::{next_event, step};
use crate::log_reading::end;
use crate::statuses::Status;
use crate::stopping::{Stop, finish};
use audit_core::Session;
use edit_log::Lines;
use elf_core::parse;
use history_model::answers::Answer;
use history_model::events::Event;
use image_gen::make;
use outside::Sink;
use phys_view::{Ledger, Steps};
use rights_report::{LineBuffer, SUMMARY_LINES, Summary, write_summary_line};
use std::alloc::Global;

/// Answers a generated log of so many lines, drawn from a seed, and puts the summary of the answers.
pub fn generate<K: Sink, L: Ledger>(
    alloc: Global,
    seed: u32,
    count: u32,
    out: &mut K,
    steps: &mut Steps<L>,
) -> Status
    requires seed { seed < 2 ^ 31 }
    requires count { (1 ≤ count) × (count ≤ 100000) }
    ensures ends { Ends (gen_job seed count) (K.pieces out.old) (K.pieces out.new) result }
    ensures among { EndsBySummary result }
    ensures cause { result ≡ Status.WriteFailed → Rose (K.faults out.old) (K.faults out.new) }
    ensures write_count { K.faults out.old ≤ K.faults out.new }
{
    let summary = match summarize(alloc, seed, count, steps) {
        Ok(summary) => summary,
        // No line is refused.
        Err(_) => return Status::OutOfMemory,
    };
    match put_summary(&summary, out) {
        Ok(()) => end(summary.no > 0),
        Err(_) => Status::WriteFailed,
    }
}

/// Makes a core and a log, and answers the log.
fn summarize<L: Ledger>(
    alloc: Global,
    seed: u32,
    count: u32,
    steps: &mut Steps<L>,
) -> Result<Summary, Stop>
    requires seed { seed < 2 ^ 31 }
    requires count { (1 ≤ count) × (count ≤ 100000) }
    ensures ok { IfOk result (λ summary. IsSummaryOf seed count summary) }
    ensures err { IfErr result (λ stop. stop ≡ Stop.Memory) }
{
    let made = make(alloc, seed, count)?;
    let core = parse(alloc, &made.core)?;
    let mut session: Session<'_, L> = Session::start(alloc, core)?;
    summarize_log(alloc, &mut session, seed, count, &made.log, steps)
}

/// Answers the lines of a generated log.
fn summarize_log<L: Ledger>(
    alloc: Global,
    session: &mut Session<'_, L>,
    seed: u32,
    count: u32,
    log: &[u8],
    steps: &mut Steps<L>,
) -> Result<Summary, Stop>
    requires count { count ≤ 100000 }
    requires stands { StandsFor session.old (begun generated_start) }
    requires log { log.now ≡ generated_log seed count }
    ensures ok { IfOk result (λ summary. IsSummaryOf seed count summary) }
    ensures err { IfErr result (λ stop. stop ≡ Stop.Memory) }
{
    let mut lines = Lines::new(alloc);
    lines.feed(log)?;
    lines.finish();
    let mut summary = Summary::default();
    'events: while let Some(event) = next_event(&mut lines)? {
        let number = lines.line();
        let answer = step(session, &event, number, steps)?;
        add_event(&mut summary, &event)?;
        add_answer(&mut summary, &answer)?;
    }
    summary.events = u64::from(session.now());
    Ok(summary)
}

/// Counts an event.
fn add_event(summary: &mut Summary, event: &Event) -> Result<(), Stop>
    ensures err { IfErr result (λ stop. stop ≡ Stop.Memory) }
    ensures ok { OnOk result (summary.new ≡ with_event_of event.now summary.old) }
{
    match event {
        Event::Write { .. } => add(&mut summary.writes, 1),
        Event::Set { .. } => add(&mut summary.sets, 1),
        Event::Invlpg { .. } | Event::Invpcid { .. } => add(&mut summary.invalidations, 1),
        _ => Ok(()),
    }
}

/// Counts an answer.
fn add_answer(summary: &mut Summary, answer: &Answer) -> Result<(), Stop>
    ensures err { IfErr result (λ stop. stop ≡ Stop.Memory) }
    ensures ok { OnOk result (summary.new ≡ with_answer_of answer.now summary.old) }
{
    match answer {
        Answer::Asked(Ok(_)) => add(&mut summary.granted, 1),
        Answer::Asked(Err(_)) => add(&mut summary.denied, 1),
        Answer::Listed(areas) => add(&mut summary.areas, areas.as_slice().len() as u64),
        Answer::Verdict(findings) if findings.as_slice().is_empty() => add(&mut summary.yes, 1),
        Answer::Verdict(_) => add(&mut summary.no, 1),
        Answer::Nothing | Answer::ListTooLarge => Ok(()),
    }
}

/// Adds to a count. No memory has so much that it overflows.
fn add(count: &mut u64, more: u64) -> Result<(), Stop>
    ensures err { IfErr result (λ stop. stop ≡ Stop.Memory) }
    ensures ok { OnOk result (count.new ≡ count.old + more) }
{
    match count.checked_add(more) {
        Some(sum) => {
            *count = sum;
            Ok(())
        }
        None => Err(Stop::Memory),
    }
}

/// Puts the lines of a summary, each as one piece.
fn put_summary<K: Sink>(summary: &Summary, out: &mut K) -> Result<(), Stop>
    ensures puts { PutsLines (K.pieces out.old) (K.pieces out.new)
        (summary_lines summary.now) result }
    ensures put { IfErr result (λ stop. stop ≡ Stop.Put) }
    ensures cause { IsErr result → Rose (K.faults out.old) (K.faults out.new) }
    ensures count { K.faults out.old ≤ K.faults out.new }
{
    let mut line = LineBuffer::new();
    for index in 0..SUMMARY_LINES {
        write_summary_line(&mut line, summary, index);
        out.put(line.bytes())?;
    }
    Ok(())
}
