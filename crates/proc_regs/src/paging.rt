//! What the registers set: the root, the settings of a walk, and which addresses are canonical.

ghost use Rattle.std.specs.Prelude.{◌≡◌, ◌%◌, ◌^◌, ◌<◌};
ghost use Rattle.paging_model.specs.Registers.{pcid_of, root_of, settings_of};
ghost use Rattle.paging_model.specs.LinearAddress.{is_canonical};

use crate::bit_ranges::{bit, field, in_place};
use crate::register_bits::{CR4_LA57, CR4_PCIDE, EFER_NXE};
use paging_model::registers::{Machine, Regs, Settings};

/// The physical address of the top table.
pub fn root(regs: &Regs, machine: &Machine) -> u64
    ensures value { result ≡ root_of regs.now machine.now }
    ensures aligned { result % 4096 ≡ 0 }
    ensures below { result < 2 ^ 52 }
{
    in_place(regs.cr3, machine.m - 1, 12)
}

/// The current process-context identifier, 12 bits; 0 where CR4.PCIDE is 0.
pub fn pcid(regs: &Regs) -> u16
    ensures value { result ≡ pcid_of regs.now }
    ensures below { result < 2 ^ 12 }
{
    if bit(regs.cr4, CR4_PCIDE) {
        field(regs.cr3, 11, 0) as u16
    } else {
        0
    }
}

/// What the meaning of an entry and the length of a walk depend on.
pub fn settings(regs: &Regs, machine: &Machine) -> Settings
    ensures { result ≡ settings_of regs.now machine.now }
{
    Settings {
        m: machine.m,
        big: machine.big,
        la57: bit(regs.cr4, CR4_LA57),
        nxe: bit(regs.efer, EFER_NXE),
    }
}

/// Whether a linear address is canonical, with 5-level paging (`la57`) or with 4-level paging.
pub fn canonical(la57: bool, address: u64) -> bool
    ensures { result ≡ is_canonical la57 address }
{
    if la57 {
        let top = field(address, 63, 56);
        top == 0 || top == (1 << 8) - 1
    } else {
        let top = field(address, 63, 47);
        top == 0 || top == (1 << 17) - 1
    }
}
