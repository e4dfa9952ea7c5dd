//! The registers that paging goes by, and what they set.

ghost use Rattle.std.specs.Prelude.{◌≡◌, ◌≤◌};

use thiserror::Error;

/// What a processor model fixes.
#[derive(Clone, Copy, Debug, PartialEq, Eq)]
pub struct Machine {
    /// The physical-address width in bits, called M: 32 to 52.
    pub m: u8,
    /// Whether there are 1-GByte pages.
    pub big: bool,
    ghost least: { 32 ≤ m },
    ghost most: { m ≤ 52 },
}

impl Machine {
    ghost use Rattle.paging_model.specs.Registers.{machine_of};

    /// The machine of a physical width in bits, with 1-GByte pages or without.
    pub fn new(m: u8, big: bool) -> Machine
        requires least { 32 ≤ m }
        requires most { m ≤ 52 }
        ensures { result ≡ machine_of m big }
    {
        Machine { m, big }
    }
}

/// What the meaning of an entry and the length of a walk depend on.
#[derive(Clone, Copy, Debug, PartialEq, Eq)]
pub struct Settings {
    /// The physical-address width in bits, called M: 32 to 52.
    pub m: u8,
    /// Whether there are 1-GByte pages.
    pub big: bool,
    /// 5-level paging (CR4.LA57).
    pub la57: bool,
    /// Execute-disable (EFER.NXE).
    pub nxe: bool,
    ghost least: { 32 ≤ m },
    ghost most: { m ≤ 52 },
}

/// The registers of one processor.
#[derive(Clone, Copy, Debug, PartialEq, Eq)]
pub struct Regs {
    pub cr0: u64,
    /// CR3 without bit 63, which only a write to it may carry.
    pub cr3: u64,
    pub cr4: u64,
    pub efer: u64,
    /// RFLAGS.AC.
    pub ac: bool,
    /// The protection keys of user pages.
    pub pkru: u32,
    /// The protection keys of supervisor pages.
    pub pkrs: u32,
}

/// A processor by its number.
#[derive(Clone, Copy, Debug, PartialEq, Eq)]
pub struct Processor {
    pub number: u32,
    pub regs: Regs,
}

/// The greatest number of processors.
pub const PROCESSOR_LIMIT: usize = 64;

/// A change of one register to a new value.
#[derive(Clone, Copy, Debug, PartialEq, Eq)]
pub enum RegChange {
    Cr0(u64),
    Cr3(u64),
    Cr4(u64),
    Efer(u64),
    Ac(bool),
    Pkru(u32),
    Pkrs(u32),
}

/// A rule that a register state or a change breaks. It is printed as the program's lines have it.
#[derive(Clone, Copy, Debug, PartialEq, Eq, Error)]
pub enum RegRule {
    /// CR0.PE or CR0.PG is 0.
    #[error("paging-off")]
    PagingOff,
    /// EFER.LME or EFER.LMA is 0.
    #[error("not-long")]
    NotLong,
    /// CR4.PAE is 0.
    #[error("no-pae")]
    NoPae,
    /// A change of CR4.LA57.
    #[error("la57-changed")]
    La57Changed,
    /// CR4.PCIDE is set while CR3 bits 11:0 aren't 0.
    #[error("pcid-not-zero")]
    PcidNotZero,
    /// CR3 bit 63 is written while CR4.PCIDE is 0.
    #[error("keep-bit-without-pcid")]
    KeepBitWithoutPcid,
    /// A reserved bit of CR3 is 1.
    #[error("cr3-reserved")]
    Cr3Reserved,
}
