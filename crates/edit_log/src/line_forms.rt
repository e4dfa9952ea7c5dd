//! The forms of a line, and the event that a line spells.
//!
//! The functions of the forms aren't inlined. Each makes its event where the caller wants it; a function that holds all
//! nine would move it on the way.

ghost use Rattle.std.specs.Prelude.{◌≡◌, ◌≢◌, ◌↔◌, Ok, None, IsTrue};
ghost use Rattle.std.specs.Result.{result_ok};
ghost use Rattle.edit_log.specs.LogLine.{event_of, event_of_words, if_event, machine_line, regs_line, cpu_line, write_line, set_line, change_of_words, invlpg_line, invpcid_line, ask_line, list_line, point_line};
ghost use Rattle.edit_log.specs.Reading.{IsRead, IsReadOf};
ghost use Rattle.edit_log.specs.declared.line_forms.LineFault.TheVariants.{Memory, Syntax};

use crate::payloads::payload;
use crate::words::{Misspelling, Words, access, flag, width, word_of_32, word_of_64};
use history_model::events::Event;
use paging_model::registers::{Machine, RegChange, Regs};
use proc_regs::bit_ranges::bit;
use proc_regs::register_bits::RFLAGS_AC;
use std::alloc::{AllocError, Global};
use thiserror::Error;

/// The greatest length of a line in bytes, without its LF.
pub(crate) const LINE_LIMIT: usize = 8300;

/// Why the next line gives no event. It is printed as the program's lines have it.
#[derive(Clone, Copy, Debug, PartialEq, Eq, Error)]
pub enum LineFault {
    /// The line has more than 8,300 bytes.
    #[error("too long")]
    TooLong,
    /// The line has none of the forms.
    #[error("syntax")]
    Syntax,
    /// Out of memory for the bytes of a write.
    #[error("out of memory")]
    Memory,
}

impl From<AllocError> for LineFault {
    ghost from_gives = { λ _ e. e ≡ Memory };

    fn from(_error: AllocError) -> LineFault {
        LineFault::Memory
    }
}

impl From<Misspelling> for LineFault {
    ghost from_gives = { λ _ e. e ≡ Syntax };

    fn from(_misspelling: Misspelling) -> LineFault {
        LineFault::Syntax
    }
}

/// Whether a line without its LF is skipped: an empty line, or a comment.
#[tactic(auto, unfolding(crate::specs::LogLine::event_of))]
pub(crate) fn is_skipped(line: &[u8]) -> bool
    ensures { IsTrue result ↔ (event_of line.now ≡ Ok None) }
{
    line.len() <= LINE_LIMIT && matches!(line.first(), None | Some(b'#'))
}

/// The event of a line without its LF, which isn't skipped.
#[tactic(auto, unfolding(crate::specs::LogLine::event_of))]
pub(crate) fn event_of(alloc: Global, line: &[u8]) -> Result<Option<Event>, LineFault>
    requires { event_of line.now ≢ Ok None }
    ensures { IsRead line.now result }
{
    if line.len() > LINE_LIMIT {
        return Err(LineFault::TooLong);
    }
    event_of_words(alloc, Words::of(line))
}

/// The event that words spell, by the first. Most lines are an `ask` or a `write`. The compiler tests the words as for
/// a `match`, on which the prover leaves goals open, since there are so many.
#[tactic(auto, unfolding(crate::specs::LogLine::event_of_words), using(crate::proofs::SpelledEvents::lone_word))]
fn event_of_words(alloc: Global, mut words: Words) -> Result<Option<Event>, LineFault>
    ensures { IsReadOf (event_of_words words.entry) result }
{
    if let Some(rest) = words.after_ask() {
        return ask(rest);
    }
    if let Some(rest) = words.after_write() {
        return write(alloc, rest);
    }
    let word = words.next()?;
    if word == b"ask".as_slice() {
        return ask(words);
    }
    if word == b"machine".as_slice() {
        return machine(words);
    }
    if word == b"cpu".as_slice() {
        return cpu(words);
    }
    if word == b"write".as_slice() {
        return write(alloc, words);
    }
    if word == b"set".as_slice() {
        return set(words);
    }
    if word == b"invlpg".as_slice() {
        return invlpg(words);
    }
    if word == b"invpcid".as_slice() {
        return invpcid(words);
    }
    if word == b"list".as_slice() {
        return list(words);
    }
    if word == b"point".as_slice() {
        return point(words);
    }
    Err(LineFault::Syntax)
}

/// `machine M BIG`
#[inline(never)]
#[tactic(auto, unfolding(crate::specs::LogLine::machine_line), using(crate::proofs::LastWords::machine_last))]
fn machine(mut words: Words) -> Result<Option<Event>, LineFault>
    ensures { result ≡ if_event (machine_line words.entry) }
{
    let m = width(words.next()?)?;
    let big = flag(words.last())?;
    Ok(Some(Event::Machine(Machine::new(m, big))))
}

/// `cpu P CR0 CR3 CR4 EFER RFLAGS PKRU PKRS`
#[inline(never)]
#[tactic(auto, unfolding(crate::specs::LogLine::cpu_line, crate::specs::LogLine::regs_line))]
fn cpu(mut words: Words) -> Result<Option<Event>, LineFault>
    ensures { result ≡ if_event (cpu_line words.entry) }
{
    let cpu = word_of_32(words.next()?)?;
    Ok(Some(Event::Cpu(cpu, regs(words)?)))
}

/// `CR0 CR3 CR4 EFER RFLAGS PKRU PKRS`; of RFLAGS only AC is kept.
#[tactic(auto, unfolding(crate::specs::LogLine::regs_line), using(crate::proofs::LastWords::regs_last, crate::proofs::LastWords::regs_none))]
fn regs(mut words: Words) -> Result<Regs, Misspelling>
    ensures { result_ok result ≡ regs_line words.entry }
{
    Ok(Regs {
        cr0: word_of_64(words.next()?)?,
        cr3: word_of_64(words.next()?)?,
        cr4: word_of_64(words.next()?)?,
        efer: word_of_64(words.next()?)?,
        ac: bit(word_of_64(words.next()?)?, RFLAGS_AC),
        pkru: word_of_32(words.next()?)?,
        pkrs: word_of_32(words.last())?,
    })
}

/// `write ADDR HEX`. Out of memory comes only where the line has this form.
#[inline(never)]
#[tactic(auto, unfolding(crate::specs::LogLine::write_line), using(crate::proofs::LastWords::write_last))]
fn write(alloc: Global, mut words: Words) -> Result<Option<Event>, LineFault>
    ensures { IsReadOf (write_line words.entry) result }
{
    let at = word_of_64(words.next()?)?;
    match payload(alloc, words.last())? {
        Some(bytes) => Ok(Some(Event::Write { at, bytes })),
        None => Err(LineFault::Syntax),
    }
}

/// `set P REG VALUE`
#[inline(never)]
#[tactic(auto, unfolding(crate::specs::LogLine::set_line), using(crate::proofs::LastWords::set_last))]
fn set(mut words: Words) -> Result<Option<Event>, LineFault>
    ensures { result ≡ if_event (set_line words.entry) }
{
    let cpu = word_of_32(words.next()?)?;
    let register = words.next()?;
    let change = change(register, words.last())?;
    Ok(Some(Event::Set { cpu, change }))
}

/// A register by name, and its new value.
#[tactic(auto, unfolding(crate::specs::LogLine::change_of_words))]
fn change(register: &[u8], value: &[u8]) -> Result<RegChange, Misspelling>
    ensures { result_ok result ≡ change_of_words register.now value.now }
{
    match register {
        b"cr0" => word_of_64(value).map(RegChange::Cr0),
        b"cr3" => word_of_64(value).map(RegChange::Cr3),
        b"cr4" => word_of_64(value).map(RegChange::Cr4),
        b"efer" => word_of_64(value).map(RegChange::Efer),
        b"ac" => flag(value).map(RegChange::Ac),
        b"pkru" => word_of_32(value).map(RegChange::Pkru),
        b"pkrs" => word_of_32(value).map(RegChange::Pkrs),
        _ => Err(Misspelling),
    }
}

/// `invlpg P ADDR`
#[inline(never)]
#[tactic(auto, unfolding(crate::specs::LogLine::invlpg_line), using(crate::proofs::LastWords::invlpg_last))]
fn invlpg(mut words: Words) -> Result<Option<Event>, LineFault>
    ensures { result ≡ if_event (invlpg_line words.entry) }
{
    Ok(Some(Event::Invlpg {
        cpu: word_of_32(words.next()?)?,
        address: word_of_64(words.last())?,
    }))
}

/// `invpcid P TYPE PCID ADDR`
#[inline(never)]
#[tactic(auto, unfolding(crate::specs::LogLine::invpcid_line), using(crate::proofs::LastWords::invpcid_last))]
fn invpcid(mut words: Words) -> Result<Option<Event>, LineFault>
    ensures { result ≡ if_event (invpcid_line words.entry) }
{
    Ok(Some(Event::Invpcid {
        cpu: word_of_32(words.next()?)?,
        kind: word_of_64(words.next()?)?,
        pcid: word_of_64(words.next()?)?,
        address: word_of_64(words.last())?,
    }))
}

/// `ask P KIND ADDR`
#[inline(never)]
#[tactic(auto, unfolding(crate::specs::LogLine::ask_line), using(crate::proofs::LastWords::ask_last))]
fn ask(mut words: Words) -> Result<Option<Event>, LineFault>
    ensures { result ≡ if_event (ask_line words.entry) }
{
    Ok(Some(Event::Ask {
        cpu: word_of_32(words.next()?)?,
        access: access(words.next()?)?,
        pointer: word_of_64(words.last())?,
    }))
}

/// `list P`
#[inline(never)]
#[tactic(auto, unfolding(crate::specs::LogLine::list_line), using(crate::proofs::LastWords::list_last))]
fn list(words: Words) -> Result<Option<Event>, LineFault>
    ensures { result ≡ if_event (list_line words.entry) }
{
    Ok(Some(Event::List {
        cpu: word_of_32(words.last())?,
    }))
}

/// `point current` or `point all`
#[inline(never)]
#[tactic(auto, unfolding(crate::specs::LogLine::point_line), using(crate::proofs::LastWords::point_last))]
fn point(words: Words) -> Result<Option<Event>, LineFault>
    ensures { result ≡ if_event (point_line words.entry) }
{
    let scope = words.last();
    if scope == b"current".as_slice() {
        return Ok(Some(Event::Point { all: false }));
    }
    if scope == b"all".as_slice() {
        return Ok(Some(Event::Point { all: true }));
    }
    Err(LineFault::Syntax)
}
