//! Every line that the program writes, each with its LF.
//!
//! The lines of an answer and of a summary, the line of a core, the refusals of cores and of logs, and the lines that
//! are the same in each run. What each says is defined in `specs/`, one subject a file.
#![tactic(auto)]

mod answers;
mod core_lines;
pub mod examples;
mod fixed;
mod line_buffer;
mod lines;
mod refusals;
mod summaries;

pub use answers::{line, line_count, write_line};
pub use core_lines::write_core_line;
pub use fixed::{core_too_long, log_too_long, usage};
pub use line_buffer::LineBuffer;
pub use refusals::{Cause, core_refusal, log_refusal};
pub use summaries::{SUMMARY_LINES, Summary, write_summary_line};

#[cfg(test)]
mod tests;
