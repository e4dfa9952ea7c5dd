//! The reading of a core's file: its header, then each program header, and of each segment of notes each note.

ghost use Rattle.std.specs.Prelude.{◌≡◌, ◌+◌, ◌*◌, ◌<◌, ◌≤◌, Ok, Err, Some, OnOk, IfOk, IfErr, length};
ghost use Rattle.elf_core.specs.FileHeader.{e_phoff, e_phnum};
ghost use Rattle.elf_core.specs.NoteViews.{parts};
ghost use Rattle.elf_core.specs.Notes.{all_notes};
ghost use Rattle.elf_core.specs.Cores.{blank_core, after_note, after_notes, after_header, after_headers, indices_from, core_of, IsRefusalOf, IsConsistent};

use crate::core_file::Core;
use crate::faults::CoreFault;
use crate::headers::{PT_LOAD, PT_NOTE, check_file_header, header_count, program_header};
use crate::notes::{Note, Notes};
use crate::state_notes::{is_state_note, statement_of};
use std::alloc::Global;

/// Reads a core. Its segments borrow their bytes from the file's.
///
/// # Errors
///
/// The first refusal in the order of the file; one that is about a program header has its index. `Memory` where memory
/// ran out.
#[tactic(auto, unfolding(crate::specs::Cores::core_of))]
pub fn parse<'a>(alloc: Global, bytes: &'a [u8]) -> Result<Core<'a>, CoreFault>
    ensures ok { IfOk result (λ core. core_of bytes.now ≡ Ok core) }
    ensures refused { IfErr result (IsRefusalOf (core_of bytes.now)) }
    ensures consistent { IfOk result IsConsistent }
{
    check_file_header(bytes)?;
    let mut core = Core::blank(alloc);
    'headers: for index in 0..header_count(bytes) {
        add_header(&mut core, bytes, index)?;
    }
    core.segments.index(alloc)?;
    Ok(core)
}

/// Adds what the program header of an index states.
#[tactic(auto, unfolding(crate::specs::Cores::after_header))]
fn add_header<'a>(core: &mut Core<'a>, bytes: &'a [u8], index: u16) -> Result<(), CoreFault>
    requires long { 64 ≤ length bytes.now }
    requires headers { e_phoff bytes.now + 56 * e_phnum bytes.now ≤ length bytes.now }
    requires index { index < e_phnum bytes.now }
    ensures ok { OnOk result (after_header bytes.now core.old index ≡ Ok core.new) }
    ensures refused { IfErr result (IsRefusalOf (after_header bytes.now core.old index)) }
{
    let header = program_header(bytes, index);
    match header.kind {
        PT_LOAD => {
            if let Some(segment) = header.segment(bytes, index)? {
                core.segments.push(segment)?;
            }
            Ok(())
        }
        PT_NOTE => add_notes(core, index, header.notes(bytes, index)?),
        _ => Ok(()),
    }
}

/// Adds what the notes of a segment state, under the header of an index.
#[tactic(auto, using(crate::proofs::Refusals::no_steps, crate::proofs::Refusals::step_on, crate::proofs::Refusals::step_refused), unfolding(crate::specs::Cores::after_note, crate::specs::Steps::steps_over))]
fn add_notes(core: &mut Core<'_>, index: u16, bytes: &[u8]) -> Result<(), CoreFault>
    ensures ok { OnOk result (after_notes index core.old (all_notes bytes.now) ≡ Ok core.new) }
    ensures refused { IfErr result
        (IsRefusalOf (after_notes index core.old (all_notes bytes.now))) }
{
    let mut notes = Notes::new(bytes);
    'notes: while let Some(note) = notes.next().map_err(|_| CoreFault::NoteRange(index))? {
        add_note(core, index, &note)?;
    }
    Ok(())
}

/// Adds what a note under the header of an index states.
#[tactic(auto, unfolding(crate::specs::Cores::after_note))]
fn add_note(core: &mut Core<'_>, index: u16, note: &Note<'_>) -> Result<(), CoreFault>
    ensures ok { OnOk result (after_note index core.old (Some (parts note.now)) ≡ Ok core.new) }
    ensures refused { IfErr result
        (IsRefusalOf (after_note index core.old (Some (parts note.now)))) }
{
    if !is_state_note(note) {
        return Ok(());
    }
    let statement = statement_of(core, note).map_err(|rule| CoreFault::NoteState(index, rule))?;
    core.add_statement(statement)?;
    Ok(())
}
