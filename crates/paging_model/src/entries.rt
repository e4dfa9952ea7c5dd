//! What one paging-structure entry means.

/// The bits that a walk joins over its entries.
#[derive(Clone, Copy, Debug, PartialEq, Eq)]
pub struct Bits {
    /// R/W: writes are allowed.
    pub write: bool,
    /// U/S: user accesses are allowed.
    pub user: bool,
    /// XD: instruction fetches are refused.
    pub xd: bool,
}

/// What one entry means.
#[derive(Clone, Copy, Debug, PartialEq, Eq)]
pub enum Entry {
    /// Bit 0, P, is 0.
    Absent,
    /// P is 1 and a reserved bit is set.
    Reserved,
    /// The entry references the table of the level below.
    Table {
        frame: u64,
        bits: Bits,
    },
    /// The entry maps a page.
    Leaf {
        frame: u64,
        bits: Bits,
        /// The protection key, under 16.
        key: u8,
        /// Bit 8, G.
        global: bool,
    },
}
