//! What the tests of several crates share: registers, an example core, and a setter of bytes.
//!
//! No code but tests uses this crate. What a test compares with stands in the test.
#![tactic(auto)]

pub mod cores;
pub mod fields;
pub mod registers;
