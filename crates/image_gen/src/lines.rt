//! The lines of the generated log.

use paging_model::access::Access;

/// A line of the generated log.
#[derive(Clone, Copy, Debug, PartialEq, Eq)]
pub enum Line {
    /// The check of all processors, under the PCIDs that they are in.
    Point,
    /// A processor loses all that it holds.
    LoseAll {
        cpu: u32,
    },
    /// The listing of the space of processor 0.
    List,
    /// An entry of a table is written.
    Write {
        slot: u64,
        entry: u64,
    },
    /// A processor loses what it holds of a page.
    Invlpg {
        cpu: u32,
        address: u64,
    },
    /// A processor asks for an access.
    Ask {
        cpu: u32,
        access: Access,
        pointer: u64,
    },
    /// A processor writes the root that it has to CR3.
    SetRoot {
        cpu: u32,
    },
}
