//! Laws that hold of every history.
//!
//! Each function is a law: its `ensures` is the statement, and its body is empty. The words are defined in
//! `paging_model`, `history_model` and in this crate's `specs/`; the lemmas that prove the laws stand in `proofs/`, for
//! later crates to cite.
#![tactic(auto)]

pub mod bounds;
pub mod points;
pub mod spaces;
pub mod times;
pub mod translations;
pub mod writes;
