//! The processor's paging, as types and definitions.
//!
//! What holds of one moment: physical memory with unknown bytes, the registers that paging goes by and the rules for
//! them, what one paging-structure entry means, the walk of one linear address, the accesses that a page permits, and
//! what a whole linear-address space maps and uses. The definitions stand in `specs/`, one subject a file, in the words
//! of Intel's Software Developer's Manual, volume 3A; every contract above cites them.
#![tactic(auto)]

pub mod access;
pub mod access_sets;
pub mod byte_strings;
pub mod entries;
pub mod examples;
pub mod registers;
pub mod spaces;
#[cfg(test)]
mod tests;
pub mod walks;
