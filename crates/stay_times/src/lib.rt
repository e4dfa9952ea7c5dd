//! The times of a processor's stays: when it was in a PCID, with which NXE, and under which root.
//!
//! Stays stand in ascending order, and each lasts until the next begins. So one pass over them is enough, and each set
//! of times grows at its end alone.
#![tactic(auto)]

mod periods;
mod roots;
mod wanted;

pub use periods::times_of;
pub use roots::roots_of;
pub use wanted::Wanted;

#[cfg(test)]
mod tests;
