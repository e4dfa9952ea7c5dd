//! The moments of a log, and what holds at each: memory, the machine, processors and their registers.

ghost use Rattle.std.specs.Prelude.{◌≡◌, List, IfOk};
ghost use Rattle.paging_model.specs.declared.registers.Processor.{Processor};
ghost use Rattle.paging_model.specs.Memory.{Memory};
ghost use Rattle.paging_model.specs.RegisterRules.{with_change as with_change_of};
ghost use Rattle.history_model.specs.History.{machine as machine_of, memory as memory_of, memory_after, next, processors_after, regs as regs_of, regs_in};
ghost use Rattle.history_reference.specs.Moments.{history_of};

use history_model::events::Event;
use paging_model::registers::{Machine, Processor, RegChange, Regs};
use paging_reference::physical_memory::{KnownBytes, PhysicalMemory, first_byte};
use proc_regs::bit_ranges::field;
use std::alloc::{AllocError, Global};

/// What the core and the state lines of a log state.
#[derive(Debug, Drop)]
pub struct Beginning {
    /// Known memory: of parts that overlap, the first counts.
    pub extents: Vec<KnownBytes>,
    /// Whether the machine is stated.
    pub stated: bool,
    pub machine: Machine,
    pub processors: Vec<Processor>,
}

/// A moment of a log: before the first event, or after another event.
#[derive(Debug, Drop)]
pub enum Moment {
    First(Beginning),
    After(Box<Moment>, Event),
}

impl PhysicalMemory for Moment {
    ghost use Rattle.history_model.specs.History.{memory as memory_of};
    ghost use Rattle.history_reference.specs.Moments.{history_of};

    ghost contents = { λ moment. memory_of (history_of moment) };

    fn byte(&self, address: u64) -> Option<u8> {
        byte_at(self, address)
    }
}

/// The moment after another event, which is no state line.
pub fn moment_after(alloc: Global, before: Moment, event: Event) -> Result<Moment, AllocError>
    ensures { IfOk result
        (λ moment. history_of moment ≡ next (history_of before) event) }
{
    Ok(Moment::After(Box::new(alloc, before)?, event))
}

/// The byte at a physical address.
fn byte_at(moment: &Moment, address: u64) -> Option<u8>
    ensures { result ≡ memory_of (history_of moment.now) address }
{
    match moment {
        Moment::First(beginning) => first_byte(&beginning.extents, address),
        Moment::After(before, event) => byte_after(event, byte_at(before, address), address),
    }
}

/// What an event makes of a byte. One that isn't known stays unknown.
fn byte_after(event: &Event, before: Option<u8>, address: u64) -> Option<u8>
    ensures { (memory : Memory) → memory address ≡ before
        → result ≡ memory_after event.now memory address }
{
    let Event::Write { at, bytes } = event else {
        return before;
    };
    let bytes = bytes.as_slice();
    if before.is_some() && *at <= address && address - *at < bytes.len() as u64 {
        return Some(bytes[(address - *at) as usize]);
    }
    before
}

/// The machine.
pub fn machine(moment: &Moment) -> Machine
    ensures { result ≡ machine_of (history_of moment.now) }
{
    match moment {
        Moment::First(beginning) => beginning.machine,
        Moment::After(before, _) => machine(before),
    }
}

/// The registers of a processor, where it is known.
pub fn regs(moment: &Moment, cpu: u32) -> Option<Regs>
    ensures { result ≡ regs_of (history_of moment.now) cpu }
{
    match moment {
        Moment::First(beginning) => first_regs(&beginning.processors, cpu),
        Moment::After(before, event) => regs_after(event, regs(before, cpu), cpu),
    }
}

/// The registers of the first processor of a number.
fn first_regs(processors: &[Processor], cpu: u32) -> Option<Regs>
    ensures { result ≡ regs_in processors.now cpu }
{
    for processor in processors {
        if processor.number == cpu {
            return Some(processor.regs);
        }
    }
    None
}

/// What an event makes of a processor's registers.
fn regs_after(event: &Event, before: Option<Regs>, cpu: u32) -> Option<Regs>
    ensures { (processors : List Processor) → regs_in processors cpu ≡ before
        → result ≡ regs_in (processors_after event.now processors) cpu }
{
    let Event::Set { cpu: of, change } = event else {
        return before;
    };
    if *of != cpu {
        return before;
    }
    let known = before?;
    Some(with_change(*change, known))
}

/// The registers with one of them changed.
pub(crate) fn with_change(change: RegChange, regs: Regs) -> Regs
    ensures { result ≡ with_change_of change regs }
{
    match change {
        RegChange::Cr0(value) => Regs { cr0: value, ..regs },
        RegChange::Cr3(value) => Regs {
            cr3: field(value, 62, 0),
            ..regs
        },
        RegChange::Cr4(value) => Regs { cr4: value, ..regs },
        RegChange::Efer(value) => Regs {
            efer: value,
            ..regs
        },
        RegChange::Ac(value) => Regs { ac: value, ..regs },
        RegChange::Pkru(value) => Regs {
            pkru: value,
            ..regs
        },
        RegChange::Pkrs(value) => Regs {
            pkrs: value,
            ..regs
        },
    }
}
