//! Laws of the patches that a write makes of a space.
#![tactic(auto)]

pub mod plans;
