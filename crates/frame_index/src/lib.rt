//! The uses of the tables of one space, by their places and by their frames.
//!
//! Each use stands once, as a record in a slot. Two maps lead to it: one from its level and its prefix, and one from
//! its frame. So it takes logarithmic time to add a use, to find one, and to remove one, however many there are.
#![tactic(auto)]

mod counted_use;
mod filing;
mod finding;
mod frame_filter;
mod index;
mod records;
mod removing;
mod uses;

pub use counted_use::CountedUse;
pub use index::Index;
pub use uses::Uses;

#[cfg(test)]
mod tests;
