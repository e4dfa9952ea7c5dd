//! What events remove of what a processor may hold, and what is kept of each processor's past.
//!
//! An event removes by one row of a table (`kills`). A `Host` keeps one processor: its registers, the stays that it
//! made under them, what its events removed, and the root that it had last in each PCID. What a host has to do with a
//! history of events stands in `specs/Standing.antt`, and the laws on it in `laws`.
#![tactic(auto)]

mod homes;
mod host;
mod invalidations;
mod keys;
pub mod laws;
mod removals;
mod stays;

pub use host::Host;
pub use invalidations::{kills, removal_of};
pub use removals::{Removal, Removed};
pub use stays::Stay;

#[cfg(test)]
mod tests;
