//! What the present tables make of a range of addresses, and where a held translation exceeds them.
//!
//! A range is that of one entry: as long as its level says, at a multiple of its length. It is mapped by one page as
//! large or larger, by a table of the level below, or by nothing.
#![tactic(auto)]

mod granting;
mod ranges;
mod stale_pages;

pub use granting::rights_at;
pub use ranges::{PresentPage, PresentRange, There, slot_there};
pub use stale_pages::{HeldPage, excess_at, first_stale};

#[cfg(test)]
mod tests;
