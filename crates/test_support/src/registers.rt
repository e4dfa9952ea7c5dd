//! The registers of the processor of the example core.

use paging_model::registers::Regs;

/// 64-bit paging with 4 levels, write protection and execute-disable, from the table at 0x1000, and nothing else that
/// refuses an access.
pub const REGS: Regs = Regs {
    cr0: 0x8001_0001,
    cr3: 0x1000,
    cr4: 0x20,
    efer: 0xd00,
    ac: false,
    pkru: 0,
    pkrs: 0,
};
