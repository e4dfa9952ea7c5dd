//! Laws of what is found from the patches of a space, after a write and before it.
//!
//! Each function is a law: its `ensures` is the statement, and its body is empty. The words are
//! defined in `kept_laws` and in the crates of the model; the lemmas that prove the laws stand in
//! `proofs/`, for other crates to cite.
#![tactic(auto)]

pub mod updates;
