//! What is known of one use of a table.

use paging_model::spaces::TableUse;

/// A use of a table, and how many entries of the table map a page.
#[derive(Clone, Copy, Debug, PartialEq, Eq)]
pub struct CountedUse {
    pub table: TableUse,
    /// How many of the table's 512 entries map a page, of any size.
    pub pages: u16,
}
