//! Laws of what a write leaves of a space as it was, and of what is walked again.
#![tactic(auto)]

pub mod patches;
pub mod writes;
