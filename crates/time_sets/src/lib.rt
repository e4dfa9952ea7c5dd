//! Sets of times, as intervals in ascending order.
//!
//! A time is the number of an event. A set grows at its end in constant time, and a search in it is logarithmic.
#![tactic(auto)]

mod intersection;
mod intervals;
mod times;
mod union;

pub use intervals::Interval;
pub use times::Times;

#[cfg(test)]
mod tests;
