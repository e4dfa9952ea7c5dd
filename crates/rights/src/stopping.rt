//! Why a run stops, and the line that it then writes.

ghost use Rattle.std.specs.Prelude.{◌≡◌, ◌⊎◌, ℕ, ◌≤◌, List, IfOk};
ghost use Rattle.outside.specs.Count.{Rose};
ghost use Rattle.rights.specs.Ends.{Ends};
ghost use Rattle.rights.specs.Jobs.{one_line};
ghost use Rattle.rights.specs.Stopping.{EndsByLine, line_of, status_of, stop_of_event as stop_at_event, stop_of_line as stop_at_line, WritesLast};

use crate::statuses::Status;
use edit_log::LineFault;
use elf_core::CoreFault;
use history_model::faults::StepFault;
use outside::{Failed, ReadFault, Sink};
use paging_model::byte_strings::Text;
use rights_report::{Cause, core_refusal, core_too_long, log_refusal, log_too_long, usage};
use std::alloc::{AllocError, Global};

/// Why a run stops before the end of its log.
#[derive(Clone, Copy, Debug)]
pub enum Stop {
    /// The arguments have no known form.
    Usage,
    /// The core is over its limit.
    LongCore,
    /// The core is refused.
    Core(CoreFault),
    /// A line of the log is refused, by its number from 1.
    Line(u64, Cause),
    /// The log is over its limit.
    LongLog,
    /// A read failed.
    Read,
    /// A put failed.
    Put,
    /// Out of memory.
    Memory,
}

impl From<AllocError> for Stop {
    ghost use Rattle.rights.specs.declared.stopping.Stop.TheVariants.{Memory};

    ghost from_gives = { λ _ stop. stop ≡ Memory };

    fn from(_: AllocError) -> Stop {
        Stop::Memory
    }
}

impl From<Failed> for Stop {
    ghost use Rattle.rights.specs.declared.stopping.Stop.TheVariants.{Put};

    ghost from_gives = { λ _ stop. stop ≡ Put };

    fn from(_: Failed) -> Stop {
        Stop::Put
    }
}

impl From<ReadFault> for Stop {
    ghost use Rattle.rights.specs.Stopping.{stop_of_read};

    ghost from_gives = { λ fault stop. stop ≡ stop_of_read fault };

    fn from(fault: ReadFault) -> Stop {
        match fault {
            ReadFault::Device => Stop::Read,
            ReadFault::Memory => Stop::Memory,
        }
    }
}

impl From<CoreFault> for Stop {
    ghost use Rattle.rights.specs.Stopping.{stop_of_core};

    ghost from_gives = { λ fault stop. stop ≡ stop_of_core fault };

    fn from(fault: CoreFault) -> Stop {
        match fault {
            CoreFault::Memory => Stop::Memory,
            fault => Stop::Core(fault),
        }
    }
}

/// A line gives no event.
pub fn stop_of_line(number: u64, fault: LineFault) -> Stop
    ensures { result ≡ stop_at_line number fault }
{
    match fault {
        LineFault::TooLong => Stop::Line(number, Cause::TooLong),
        LineFault::Syntax => Stop::Line(number, Cause::Syntax),
        LineFault::Memory => Stop::Memory,
    }
}

/// A line's event isn't accepted.
pub fn stop_of_event(number: u64, fault: StepFault) -> Stop
    ensures { result ≡ stop_at_event number fault }
{
    match fault {
        StepFault::Memory => Stop::Memory,
        fault => Stop::Line(number, Cause::Step(fault)),
    }
}

/// Puts the last line of a run that stops, if it has one.
pub fn finish<K: Sink>(alloc: Global, stop: Stop, out: &mut K) -> Status
    ensures puts { WritesLast (K.pieces out.old) (K.pieces out.new)
        (line_of stop) (status_of stop) result }
    ensures cause { result ≡ Status.WriteFailed
        → (status_of stop ≡ Status.WriteFailed) ⊎ Rose (K.faults out.old) (K.faults out.new) }
    ensures count { K.faults out.old ≤ K.faults out.new }

    // For the callers' proofs.
    ensures among { (result ≡ status_of stop) ⊎ (result ≡ Status.WriteFailed)
        ⊎ (result ≡ Status.OutOfMemory) }
    ensures usage { stop ≡ Stop.Usage → (result ≡ Status.Usage) ⊎ (result ≡ Status.WriteFailed) }
{
    match stop {
        Stop::Usage => put_last(usage(), Status::Usage, out),
        Stop::LongCore => put_last(core_too_long(), Status::CoreRefused, out),
        Stop::Core(fault) => put_text(core_refusal(alloc, &fault), Status::CoreRefused, out),
        Stop::Line(number, cause) => put_text(
            log_refusal(alloc, number, &cause),
            Status::LogRefused,
            out,
        ),
        Stop::LongLog => put_last(log_too_long(), Status::LogRefused, out),
        Stop::Read => Status::ReadFailed,
        Stop::Put => Status::WriteFailed,
        Stop::Memory => Status::OutOfMemory,
    }
}

/// Puts a line that was made, where there was memory for it.
fn put_text<K: Sink>(text: Result<Text, AllocError>, status: Status, out: &mut K) -> Status
    requires { EndsByLine status }
    ensures puts { (line : List ℕ) → IfOk text (λ made. made ≡ line)
        → Ends (one_line line status) (K.pieces out.old) (K.pieces out.new) result }
    ensures cause { result ≡ Status.WriteFailed → Rose (K.faults out.old) (K.faults out.new) }
    ensures count { K.faults out.old ≤ K.faults out.new }

    // For the caller's proof.
    ensures among { (result ≡ status) ⊎ (result ≡ Status.WriteFailed)
        ⊎ (result ≡ Status.OutOfMemory) }
{
    match text {
        Ok(text) => put_last(text.as_slice(), status, out),
        Err(AllocError) => Status::OutOfMemory,
    }
}

/// Puts the line with which a run ends in a status.
pub fn put_last<K: Sink>(line: &[u8], status: Status, out: &mut K) -> Status
    requires { EndsByLine status }
    ensures puts { Ends (one_line line.now status) (K.pieces out.old) (K.pieces out.new) result }
    ensures cause { result ≡ Status.WriteFailed → Rose (K.faults out.old) (K.faults out.new) }
    ensures count { K.faults out.old ≤ K.faults out.new }

    // For the caller's proof.
    ensures among { (result ≡ status) ⊎ (result ≡ Status.WriteFailed) }
{
    match out.put(line) {
        Ok(()) => status,
        Err(Failed) => Status::WriteFailed,
    }
}
