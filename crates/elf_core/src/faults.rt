//! Why a file is no core.

ghost use Rattle.std.specs.Prelude.{◌≡◌};
ghost use Rattle.elf_core.specs.declared.faults.CoreFault.TheVariants.{Memory};

use paging_model::registers::RegRule;
use std::alloc::AllocError;
use thiserror::Error;

/// The rule that a state note breaks, the first in this order. It is printed as the program's lines have it.
#[derive(Clone, Copy, Debug, PartialEq, Eq, Error)]
pub enum NoteRule {
    /// Its type is neither 1, the machine, nor 2, a processor.
    #[error("kind")]
    Kind,
    /// Its description isn't of 8 bytes for the machine or of 64 for a processor.
    #[error("size")]
    Size,
    /// A field that is 0 by the layout isn't 0.
    #[error("zero")]
    Zero,
    /// The physical width isn't from 32 to 52, or the flag of 1-GByte pages is neither 0 nor 1.
    #[error("range")]
    Range,
    /// It states the machine after a processor.
    #[error("late")]
    Late,
    /// It states the machine, or a processor of its number, for the second time.
    #[error("twice")]
    Twice,
    /// It states a 65th processor.
    #[error("too many")]
    TooMany,
    /// Its registers break this rule of the machine.
    #[error("{0}")]
    Regs(RegRule),
}

/// Why a file is no core: the first rule that is broken, in the order of the file. It is printed as the program's lines
/// have it.
#[derive(Clone, Copy, Debug, PartialEq, Eq, Error)]
pub enum CoreFault {
    /// The file has fewer than 64 bytes.
    #[error("short")]
    Short,
    /// The file doesn't begin as ELF files do.
    #[error("not elf")]
    NotElf,
    /// EI_CLASS isn't 2, the 64-bit class.
    #[error("class")]
    Class,
    /// EI_DATA isn't 1, little-endian.
    #[error("encoding")]
    Encoding,
    /// e_type isn't 4, a core.
    #[error("type")]
    FileType,
    /// e_machine isn't 62, x86-64.
    #[error("machine")]
    FileMachine,
    /// e_phentsize isn't 56.
    #[error("header size")]
    HeaderSize,
    /// e_phnum is 0xFFFF, so the count of program headers stands elsewhere.
    #[error("header count")]
    HeaderCount,
    /// The program headers pass the end of the file.
    #[error("header range")]
    HeaderRange,
    /// The segment of the program header of this index passes the end of the file.
    #[error("segment range {0}")]
    SegmentRange(u16),
    /// The segment of the program header of this index passes physical address 2 to the 52.
    #[error("segment address {0}")]
    SegmentAddress(u16),
    /// The notes of the program header of this index pass the end of the file, or one passes their end.
    #[error("note range {0}")]
    NoteRange(u16),
    /// A state note of the program header of this index breaks this rule.
    #[error("note state {0} {1}")]
    NoteState(u16, NoteRule),
    /// Out of memory.
    #[error("out of memory")]
    Memory,
}

impl From<AllocError> for CoreFault {
    ghost from_gives = { λ _ e. e ≡ Memory };

    fn from(_error: AllocError) -> CoreFault {
        CoreFault::Memory
    }
}
