//! Which accesses a mapped page permits: the access rights of its joined entry bits, and its protection key.
//!
//! An access is refused by rules: a user access to a supervisor page, SMEP, SMAP, R/W, XD and the protection key, in
//! this order. `rights` gives the set of accesses that none of them refuses, and `denial` the first rule that refuses
//! an access. They are the rules of the manual's "Determination of Access Rights" and "Protection Keys".
#![tactic(auto)]

mod granting;
pub mod kinds;
mod rules;

pub use granting::{denial, rights};

#[cfg(test)]
mod tests;
