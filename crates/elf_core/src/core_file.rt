//! What the file of a core states.

ghost use Rattle.std.specs.Prelude.{◌≡◌, OnOk, OnErr};
ghost use Rattle.elf_core.specs.Cores.{blank_core, with_statement};

use crate::processors::Processors;
use crate::segments::Segments;
use paging_model::registers::{Machine, Processor};
use std::alloc::{AllocError, Global};

/// What a core's file states: known memory, the machine and its processors.
#[derive(Debug, Drop)]
pub struct Core<'a> {
    pub segments: Segments<'a>,
    /// Whether a note states the machine.
    pub stated: bool,
    /// The machine that a note states, or else the one of 52 bits with 1-GByte pages.
    pub machine: Machine,
    pub processors: Processors,
}

/// What a note states.
#[derive(Clone, Copy, Debug)]
pub enum Statement {
    Machine(Machine),
    Processor(Processor),
}

impl<'a> Core<'a> {
    /// What is known before the first program header.
    pub fn blank(alloc: Global) -> Core<'a>
        ensures { result ≡ blank_core }
    {
        Core {
            segments: Segments::new(alloc),
            stated: false,
            machine: Machine::new(52, true),
            processors: Processors::new(alloc),
        }
    }

    /// Adds what a note states.
    pub fn add_statement(&mut self, statement: Statement) -> Result<(), AllocError>
        ensures ok { OnOk result (self.new ≡ with_statement self.old statement) }
        ensures err { OnErr result (self.new ≡ self.old) }
    {
        match statement {
            Statement::Machine(machine) => {
                self.stated = true;
                self.machine = machine;
            }
            Statement::Processor(processor) => self.processors.push(processor)?,
        }
        Ok(())
    }
}
