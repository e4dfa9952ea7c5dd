//! From the bytes of a log to the events that its lines spell.
//!
//! [`Lines`] is fed the bytes of a log in pieces, however they are cut, and gives one event after another. What a line
//! is, what it spells and what a number is stands in `specs/`: `Log`, `LogLine` and `Numbers`.
#![tactic(auto)]

pub mod examples;
mod line_forms;
mod lines;
mod numbers;
mod payloads;
mod words;

pub use line_forms::LineFault;
pub use lines::Lines;
pub use numbers::number;
pub use words::kind;

#[cfg(test)]
mod tests;
