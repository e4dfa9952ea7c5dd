//! The notes that state the machine and its processors.

ghost use Rattle.std.specs.Prelude.{◌≡◌, ◌≤◌, length};
ghost use Rattle.elf_core.specs.NoteViews.{parts};
ghost use Rattle.elf_core.specs.StateNotes.{is_state_note, machine_stated, regs_at, has_zeros, processor_stated, statement_of};

use crate::core_file::{Core, Statement};
use crate::faults::NoteRule;
use crate::fields::{word_at, xword_at};
use crate::notes::Note;
use paging_model::registers::{Machine, PROCESSOR_LIMIT, Processor, Regs};
use proc_regs::bit_ranges::bit;
use proc_regs::check;
use proc_regs::register_bits::RFLAGS_AC;

/// The owner of state notes.
const OWNER: [u8; 10] = *b"X86RIGHTS\0";
/// The type of the note of the machine.
const MACHINE_TYPE: u32 = 1;
/// The bytes of the machine's description.
const MACHINE_SIZE: usize = 8;
/// The type of a processor's note.
const PROCESSOR_TYPE: u32 = 2;
/// The bytes of a processor's description.
const PROCESSOR_SIZE: usize = 64;

/// Whether a note is one that states the machine or a processor.
pub fn is_state_note(note: &Note<'_>) -> bool
    ensures { result ≡ is_state_note (parts note.now) }
{
    note.name == OWNER.as_slice()
}

/// The machine that a description states, after what is known.
#[tactic(auto, unfolding(crate::specs::StateNotes::machine_stated))]
fn machine_stated(core: &Core<'_>, description: &[u8]) -> Result<Machine, NoteRule>
    ensures { result ≡ machine_stated core.now description.now }
{
    if description.len() != MACHINE_SIZE {
        return Err(NoteRule::Size);
    }
    let m = word_at(description, 0);
    let big = word_at(description, 4);
    if m < 32 || m > 52 || big > 1 {
        return Err(NoteRule::Range);
    }
    if !core.processors.as_slice().is_empty() {
        return Err(NoteRule::Late);
    }
    if core.stated {
        return Err(NoteRule::Twice);
    }
    Ok(Machine::new(m as u8, big == 1))
}

/// The registers in a processor's description.
fn regs_at(description: &[u8]) -> Regs
    requires { 64 ≤ length description.now }
    ensures { result ≡ regs_at description.now }
{
    Regs {
        cr0: xword_at(description, 8),
        cr3: xword_at(description, 16),
        cr4: xword_at(description, 24),
        efer: xword_at(description, 32),
        ac: bit(xword_at(description, 40), RFLAGS_AC),
        pkru: word_at(description, 48),
        pkrs: word_at(description, 52),
    }
}

/// Whether the fields of a processor's description that are 0 by the layout are 0.
fn has_zeros(description: &[u8]) -> bool
    requires { 64 ≤ length description.now }
    ensures { result ≡ has_zeros description.now }
{
    word_at(description, 4) == 0 && xword_at(description, 56) == 0
}

/// The processor that a description states, after what is known.
#[tactic(auto, unfolding(crate::specs::StateNotes::processor_stated))]
fn processor_stated(core: &Core<'_>, description: &[u8]) -> Result<Processor, NoteRule>
    ensures { result ≡ processor_stated core.now description.now }
{
    if description.len() != PROCESSOR_SIZE {
        return Err(NoteRule::Size);
    }
    if !has_zeros(description) {
        return Err(NoteRule::Zero);
    }
    let number = word_at(description, 0);
    if core.processors.has_number(number) {
        return Err(NoteRule::Twice);
    }
    if core.processors.as_slice().len() >= PROCESSOR_LIMIT {
        return Err(NoteRule::TooMany);
    }
    let regs = regs_at(description);
    check(&core.machine, &regs).map_err(NoteRule::Regs)?;
    Ok(Processor { number, regs })
}

/// What a state note states, after what is known.
///
/// # Errors
///
/// The first rule that the note breaks.
#[tactic(auto, unfolding(crate::specs::StateNotes::statement_of))]
pub fn statement_of(core: &Core<'_>, note: &Note<'_>) -> Result<Statement, NoteRule>
    ensures { result ≡ statement_of core.now (parts note.now) }
{
    match note.kind {
        MACHINE_TYPE => Ok(Statement::Machine(machine_stated(core, note.description)?)),
        PROCESSOR_TYPE => Ok(Statement::Processor(processor_stated(core, note.description)?)),
        _ => Err(NoteRule::Kind),
    }
}
