//! The spaces that are kept after they were listed, each true of memory.
//!
//! `KeptSpaces::list` puts the space of a key first: one that is kept already without a read of memory, any other by
//! building it. `KeptSpaces::update` goes with each write to memory.
#![tactic(auto)]

mod kept;
mod updating;

pub use kept::KeptSpaces;
