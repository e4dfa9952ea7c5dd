//! What is walked again of a space after a write.

use paging_model::spaces::TableUse;

/// Some entries of a table, as one use of the table has them.
#[derive(Clone, Copy, Debug, PartialEq, Eq)]
pub struct Patch {
    /// The table. Its prefix is the address from which on its entry 0 serves, or would serve where it is the top table.
    pub table: TableUse,
    /// The first of the entries, 0 to 511.
    pub from: usize,
    /// How many entries: at least one, of which entry 511 is the last at most.
    pub count: usize,
}
