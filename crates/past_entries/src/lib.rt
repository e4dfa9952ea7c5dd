//! The different entries that one slot of a table made over time, each with the times at which it was made.
//!
//! A slot is eight aligned bytes of memory. Times are numbers of events. What a processor holds of an entry depends on
//! the slot's value, the level of its table, the settings, CR4.PGE and the bits that were joined above it.
#![tactic(auto)]

mod entries;
mod fills;
mod merging;

pub use entries::PastEntry;
pub use fills::{Fill, fill_of};
pub use merging::{entries_of, spans_of_values_make_what_the_values_make};

#[cfg(test)]
mod tests;
