//! An ELF64 memory core as borrowed segments and the state that its notes give.
//!
//! `parse` reads a core whole, in one pass: it borrows the segments from the file's bytes and copies none of them. The
//! format stands in `specs/`, field by field.
#![tactic(auto)]

mod changes;
mod core_file;
mod faults;
mod fields;
mod headers;
mod notes;
mod parsing;
mod processors;
mod segment;
mod segments;
mod state_notes;
mod stretches;

pub use core_file::Core;
pub use faults::{CoreFault, NoteRule};
pub use parsing::parse;
pub use processors::Processors;
pub use segment::Segment;
pub use segments::Segments;
pub use stretches::Stretch;

#[cfg(test)]
mod tests;
