//! The old values of memory: what each slot held before the writes that changed it, by time.
//!
//! A slot is eight bytes of memory at a multiple of 8. A change of it says at which time it came, and what the slot
//! held before. So the present memory and the changes since a time give what each slot held at each time from then on.
#![tactic(auto)]

mod change;
mod changed_slots;
mod frame_changes;
pub mod laws;
mod slots;
mod spans;
mod store;

pub use change::Change;
pub use changed_slots::ChangedSlots;
pub use slots::Slots;
pub use spans::Spans;
pub use store::Store;

#[cfg(test)]
mod tests;
