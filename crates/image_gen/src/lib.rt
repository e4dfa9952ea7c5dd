//! A generated core, and a generated log about it: a load test that anyone can run.
//!
//! [`make`] gives both as files. The log's lines are drawn by a plain generator from a seed, so that each run over one
//! seed has the same. What stands in the core, which lines are drawn and how they are spelled stands in `specs/`:
//! `GeneratedCore`, `GeneratedLog` and `LineTexts`.
#![tactic(auto)]

mod core_bytes;
mod drawing;
pub mod examples;
pub mod laws;
mod lines;
mod making;
mod tables;
mod texts;

pub use lines::Line;
pub use making::{Generated, make};

#[cfg(test)]
mod tests;
