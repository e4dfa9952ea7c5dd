//! The registers of a processor: the rules for them, and what they set.
#![tactic(auto)]

pub mod bit_ranges;
mod paging;
pub mod register_bits;
mod rules;

pub use paging::{canonical, pcid, root, settings};
pub use rules::{change, check};

#[cfg(test)]
mod tests;
