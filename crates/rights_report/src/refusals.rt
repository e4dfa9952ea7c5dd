//! The refusals of cores and of the lines of a log, each with its LF.

ghost use Rattle.std.specs.Prelude.{◌≡◌, ◌≢◌, ◌++◌, IfOk, OnOk, codes};
ghost use Rattle.std.specs.Fmt.{decimal};
ghost use Rattle.rights_report.specs.Characters.{hexadecimal};
ghost use Rattle.rights_report.specs.CoreRefusals.{core_refusal_line, note_rule_text, note_text};
ghost use Rattle.rights_report.specs.LogRefusals.{fault_text, log_refusal_line};
ghost use Rattle.rights_report.specs.RefusalLines.{core_refusal as core_refusal_by, line_refusal as line_refusal_by, register_rule_text};

use crate::lines::text_of;
use elf_core::{CoreFault, NoteRule};
use history_model::faults::StepFault;
use paging_model::byte_strings::Text;
use paging_model::registers::RegRule;
use std::alloc::{AllocError, Global};
use thiserror::Error;

/// Why a line of a log is refused. It is printed as the program's lines have it.
#[derive(Clone, Copy, Debug, PartialEq, Eq, Error)]
pub enum Cause {
    /// The line has more than 8,300 bytes.
    #[error("too long")]
    TooLong,
    /// The line has none of the forms.
    #[error("syntax")]
    Syntax,
    /// The line's event is refused.
    #[error("{0}")]
    Step(StepFault),
}

/// The refusal of a core. `Memory` alone is no refusal, and has no text.
pub fn core_refusal(alloc: Global, fault: &CoreFault) -> Result<Text, AllocError>
    ensures value { IfOk result (λ text. text ≡ core_refusal_line fault.now) }
    ensures refusal { OnOk result (fault.now ≢ CoreFault.Memory) }
{
    match *fault {
        CoreFault::Short => core_refusal_for(alloc, "short"),
        CoreFault::NotElf => core_refusal_for(alloc, "not elf"),
        CoreFault::Class => core_refusal_for(alloc, "class"),
        CoreFault::Encoding => core_refusal_for(alloc, "encoding"),
        CoreFault::FileType => core_refusal_for(alloc, "type"),
        CoreFault::FileMachine => core_refusal_for(alloc, "machine"),
        CoreFault::HeaderSize => core_refusal_for(alloc, "header size"),
        CoreFault::HeaderCount => core_refusal_for(alloc, "header count"),
        CoreFault::HeaderRange => core_refusal_for(alloc, "header range"),
        CoreFault::SegmentRange(number) => header_refusal(alloc, "segment range ", number),
        CoreFault::SegmentAddress(number) => header_refusal(alloc, "segment address ", number),
        CoreFault::NoteRange(number) => header_refusal(alloc, "note range ", number),
        CoreFault::NoteState(number, rule) => note_refusal(alloc, number, note_rule(rule)),
        CoreFault::Memory => Err(AllocError),
    }
}

/// The refusal of a core by a text alone.
fn core_refusal_for(alloc: Global, why: &str) -> Result<Text, AllocError>
    ensures { IfOk result (λ text. text ≡ core_refusal_by why.now) }
{
    let line = format!(in alloc; "core refused: {why}\n")?;
    Ok(text_of(line))
}

/// The refusal of a core by the number of a program header.
fn header_refusal(alloc: Global, why: &str, number: u16) -> Result<Text, AllocError>
    ensures { IfOk result (λ text. text ≡ core_refusal_by (why.now ++ decimal number)) }
{
    let line = format!(in alloc; "core refused: {why}{number}\n")?;
    Ok(text_of(line))
}

/// The refusal of a core by a state note under the program header of a number.
fn note_refusal(alloc: Global, number: u16, rule: &str) -> Result<Text, AllocError>
    ensures { IfOk result (λ text. text ≡ core_refusal_by (note_text number rule.now)) }
{
    let line = format!(in alloc; "core refused: note state {number} {rule}\n")?;
    Ok(text_of(line))
}

/// The refusal of a line of a log, by its number from 1. `Memory` alone is no refusal, and has no text.
pub fn log_refusal(alloc: Global, line: u64, cause: &Cause) -> Result<Text, AllocError>
    ensures value { IfOk result (λ text. text ≡ log_refusal_line line cause.now) }
    ensures refusal { OnOk result (cause.now ≢ Cause.Step StepFault.Memory) }
{
    match *cause {
        Cause::TooLong => line_refusal(alloc, line, "too long"),
        Cause::Syntax => line_refusal(alloc, line, "syntax"),
        Cause::Step(fault) => event_refusal(alloc, line, fault),
    }
}

/// The refusal of a line whose event is refused.
fn event_refusal(alloc: Global, line: u64, fault: StepFault) -> Result<Text, AllocError>
    ensures value { IfOk result (λ text. text ≡ line_refusal_by line (fault_text fault)) }
    ensures refusal { OnOk result (fault ≢ StepFault.Memory) }
{
    match fault {
        StepFault::LateState => line_refusal(alloc, line, "late state"),
        StepFault::DoubleProcessor(cpu) => {
            refusal_with_processor(alloc, line, "double processor ", cpu)
        }
        StepFault::TooManyProcessors => line_refusal(alloc, line, "too many processors"),
        StepFault::NoProcessor(cpu) => refusal_with_processor(alloc, line, "no processor ", cpu),
        StepFault::BadType => line_refusal(alloc, line, "bad type"),
        StepFault::BadPcid => line_refusal(alloc, line, "bad pcid"),
        StepFault::NotCanonical => line_refusal(alloc, line, "not canonical"),
        StepFault::Illegal(rule) => refusal_with_rule(alloc, line, register_rule(rule)),
        StepFault::Unknown(address) => refusal_with_address(alloc, line, "unknown ", address),
        StepFault::Crosses(address) => refusal_with_address(alloc, line, "crosses ", address),
        StepFault::OverlayFull => line_refusal(alloc, line, "overlay full"),
        StepFault::Memory => Err(AllocError),
    }
}

/// The refusal of a line by a text alone.
fn line_refusal(alloc: Global, line: u64, why: &str) -> Result<Text, AllocError>
    ensures { IfOk result (λ text. text ≡ line_refusal_by line why.now) }
{
    let line = format!(in alloc; "line {line} refused: {why}\n")?;
    Ok(text_of(line))
}

/// The refusal of a line by the number of a processor.
fn refusal_with_processor(alloc: Global, line: u64, why: &str, cpu: u32) -> Result<Text, AllocError>
    ensures { IfOk result (λ text. text ≡ line_refusal_by line (why.now ++ decimal cpu)) }
{
    let line = format!(in alloc; "line {line} refused: {why}{cpu}\n")?;
    Ok(text_of(line))
}

/// The refusal of a line by a physical address.
fn refusal_with_address(
    alloc: Global,
    line: u64,
    why: &str,
    address: u64,
) -> Result<Text, AllocError>
    ensures { IfOk result (λ text. text ≡ line_refusal_by line (why.now ++ hexadecimal address)) }
{
    let line = format!(in alloc; "line {line} refused: {why}0x{address:x}\n")?;
    Ok(text_of(line))
}

/// The refusal of a line by the rule that registers break.
fn refusal_with_rule(alloc: Global, line: u64, rule: &str) -> Result<Text, AllocError>
    ensures { IfOk result (λ text. text ≡ line_refusal_by line (codes "illegal " ++ rule.now)) }
{
    let line = format!(in alloc; "line {line} refused: illegal {rule}\n")?;
    Ok(text_of(line))
}

/// The name of a rule for state notes.
fn note_rule(rule: NoteRule) -> &'static str
    ensures { result.now ≡ note_rule_text rule }
{
    match rule {
        NoteRule::Kind => "kind",
        NoteRule::Size => "size",
        NoteRule::Zero => "zero",
        NoteRule::Range => "range",
        NoteRule::Late => "late",
        NoteRule::Twice => "twice",
        NoteRule::TooMany => "too many",
        NoteRule::Regs(rule) => register_rule(rule),
    }
}

/// The name of a rule for registers.
fn register_rule(rule: RegRule) -> &'static str
    ensures { result.now ≡ register_rule_text rule }
{
    match rule {
        RegRule::PagingOff => "paging-off",
        RegRule::NotLong => "not-long",
        RegRule::NoPae => "no-pae",
        RegRule::La57Changed => "la57-changed",
        RegRule::PcidNotZero => "pcid-not-zero",
        RegRule::KeepBitWithoutPcid => "keep-bit-without-pcid",
        RegRule::Cr3Reserved => "cr3-reserved",
    }
}
