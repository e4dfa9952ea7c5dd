//! Why an event is refused.

use paging_model::registers::RegRule;
use thiserror::Error;

/// Why an event is refused: the first reason in this order. It is printed as the program's lines have it.
#[derive(Clone, Copy, Debug, PartialEq, Eq, Error)]
pub enum StepFault {
    /// The state line comes too late: after an event, or, where it states the machine, after a processor or a machine.
    #[error("late state")]
    LateState,
    /// The processor of this number is stated already.
    #[error("double processor {0}")]
    DoubleProcessor(u32),
    /// There are 64 processors already.
    #[error("too many processors")]
    TooManyProcessors,
    /// There is no processor of this number.
    #[error("no processor {0}")]
    NoProcessor(u32),
    /// The type of an INVPCID is over 3.
    #[error("bad type")]
    BadType,
    /// The PCID of an INVPCID is out of range: over 4,095, or, of type 0 or 1, over 0 while CR4.PCIDE is 0.
    #[error("bad pcid")]
    BadPcid,
    /// The address of an INVPCID of type 0 isn't canonical.
    #[error("not canonical")]
    NotCanonical,
    /// The registers break this rule, or their change does.
    #[error("illegal {0}")]
    Illegal(RegRule),
    /// The byte at this physical address isn't known, so the write can't change it.
    #[error("unknown {0:#x}")]
    Unknown(u64),
    /// The write goes on to the page at this physical address.
    #[error("crosses {0:#x}")]
    Crosses(u64),
    /// The write is to one page too many: 262,144 others have been written to.
    #[error("overlay full")]
    OverlayFull,
    /// Out of memory.
    #[error("out of memory")]
    Memory,
}
