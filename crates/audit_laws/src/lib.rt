//! Laws about what a processor may hold, in the form in which an audit goes down the tables:
//! from the roots, by the times at which each table was in use.
//!
//! Each function is a law: its `ensures` is the statement, and its body is empty. The words are
//! defined in this crate's `specs/` and in the crates of the model; the lemmas that prove the laws
//! stand in `proofs/`, for later crates to cite. The one type, `StalePage`, is what an audit compares.
#![tactic(auto)]

pub mod descents;
pub mod leads;
pub mod ranges;
pub mod stale_pages;
pub mod steady;
