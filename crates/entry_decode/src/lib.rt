//! What one paging-structure entry means, and how the bits of the entries of a walk are joined.
//!
//! Levels are 5 (PML5E), 4 (PML4E), 3 (PDPTE), 2 (PDE) and 1 (PTE). An entry of a level stands in a table of that
//! level.
#![tactic(auto)]

mod decoding;
mod entry_bits;

pub use decoding::{decode, join};

#[cfg(test)]
mod tests;
