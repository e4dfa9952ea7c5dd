//! The walk of one linear address through the paging structures.
//!
//! A walk begins at the table of the top level, which stands at the root. At each level it reads the one entry that the
//! address selects, and it ends where that entry maps a page, isn't present, has a reserved bit set or isn't known.
#![tactic(auto)]

mod linear_addresses;
mod walking;

pub use linear_addresses::{entry_address, span};
pub use walking::walk;

#[cfg(test)]
mod tests;
