//! The processors of a core, with their registers.

ghost use Rattle.std.specs.Prelude.{◌≡◌, ◌++◌, [], ◌∷◌, OnOk, OnErr};
ghost use Rattle.std.specs.List.{list_any};

use paging_model::registers::Processor;
use std::alloc::{AllocError, Global};
use std::marker::Model;

/// Processors in the order of their notes.
#[derive(Debug, Drop)]
pub struct Processors {
    items: Vec<Processor>,
}

impl Model for Processors {
    ghost use Rattle.std.specs.Prelude.{List};
    ghost use Rattle.paging_model.specs.declared.registers.Processor.{Processor};

    ghost Value = { List Processor };

    ghost view = { λ p. p.items.items };
}

impl Processors {
    ghost use Rattle.elf_core.specs.ProcessorLists.{has_number};

    /// No processors.
    pub fn new(alloc: Global) -> Processors
        ensures { result ≡ [] }
    {
        Processors {
            items: Vec::new(alloc),
        }
    }

    /// Takes ownership of the list.
    pub fn from_vec(items: Vec<Processor>) -> Processors
        ensures { result ≡ items.items }
    {
        Processors { items }
    }

    /// Borrows the list.
    pub fn as_slice(&self) -> &[Processor]
        ensures { result.now ≡ self.now }
    {
        self.items.as_slice()
    }

    /// Whether there is a processor of a number.
    pub fn has_number(&self, number: u32) -> bool
        ensures { result ≡ list_any (has_number number) self.now }
    {
        self.items
            .iter()
            .any(|processor| processor.number == number)
    }

    /// Adds a processor after the others.
    pub fn push(&mut self, processor: Processor) -> Result<(), AllocError>
        ensures ok { OnOk result (self.new ≡ self.old ++ processor ∷ []) }
        ensures err { OnErr result (self.new ≡ self.old) }
    {
        self.items.push(processor)?;
        Ok(())
    }
}
