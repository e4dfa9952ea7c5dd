//! Physical memory as a map from address to byte, over the segments of a core, and the counter of the reads of it.
#![tactic(auto)]

mod entries;
mod ledgers;
mod readers;
mod steps;
mod view;
mod writes;

pub use entries::Entries;
pub use ledgers::{Counted, Uncounted};
pub use readers::{Reader, answer_and_steps, answer_of};
pub use steps::{Ledger, Steps};
pub use view::View;
pub use writes::WriteFault;

#[cfg(test)]
mod tests;
