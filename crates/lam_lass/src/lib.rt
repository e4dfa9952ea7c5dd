//! From a pointer to the linear address that is walked: linear-address masking (LAM), canonicality, and linear-address
//! space separation (LASS), in this order.
//!
//! `aim` gives the address that an access by a pointer goes to, or why it is refused before any table is read. `reach`
//! gives the accesses that go to an address by the pointer that spells it. They are the rules of the manual's
//! "Linear-Address Masking" and "Linear-Address Space Separation".
#![tactic(auto)]

mod aiming;
mod masking;

pub use aiming::{aim, reach};

#[cfg(test)]
mod tests;
