//! The areas of a linear-address space: what the registers grant of its regions, in ranges that are as long as they can
//! be.
//!
//! A region is mapped alike throughout: by its joined bits and its protection key. An area is granted alike: by the
//! accesses that the registers permit there. Regions of different bits or keys are one area where their accesses are
//! the same, and one region is two areas where an access reaches one part of it and not the other.
#![tactic(auto)]

mod appending;
mod grants;
mod listing;
mod protections;
mod zones;

pub use listing::{areas_of, keys_of_a_space_are_below_16};

#[cfg(test)]
mod tests;
