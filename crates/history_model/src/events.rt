//! The events of a log.

use paging_model::access::Access;
use paging_model::byte_strings::Payload;
use paging_model::registers::{Machine, RegChange, Regs};

/// An event: one line of the log that isn't empty and no comment. A processor is named by its number.
#[derive(Debug, Drop)]
pub enum Event {
    /// The machine. A state line: it belongs to the moment before the first event.
    Machine(Machine),
    /// A processor and its registers. A state line: it belongs to the moment before the first event.
    Cpu(u32, Regs),
    /// Bytes are written to physical memory.
    Write {
        at: u64,
        bytes: Payload,
    },
    /// A register of a processor is changed.
    Set {
        cpu: u32,
        change: RegChange,
    },
    /// A processor executes INVLPG.
    Invlpg {
        cpu: u32,
        address: u64,
    },
    /// A processor executes INVPCID.
    Invpcid {
        cpu: u32,
        kind: u64,
        pcid: u64,
        address: u64,
    },
    /// Whether a processor is granted an access by a pointer, and at which physical address.
    Ask {
        cpu: u32,
        access: Access,
        pointer: u64,
    },
    /// Which ranges a processor's present space maps, with their rights.
    List {
        cpu: u32,
    },
    /// Whether some processor may still use a translation that the present tables don't justify: under all PCIDs that
    /// it visited, or under its current one alone.
    Point {
        all: bool,
    },
}
