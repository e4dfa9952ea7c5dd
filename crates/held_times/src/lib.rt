//! When a processor held what it made of an entry: from each time at which it made it until the next removal of it.
#![tactic(auto)]

mod times;

pub use times::{held_times, is_held};

#[cfg(test)]
mod tests;
