//! Laws that pin the definitions of paging.
//!
//! Each is the contract of a function with an empty body: two ways to say one thing that agree, or something that a
//! definition has to determine. Their lemmas stand in `proofs/`, for later crates to cite.
#![tactic(auto)]

pub mod counts;
pub mod denials;
pub mod entries;
pub mod examples;
pub mod leaves;
pub mod listings;
pub mod pointers;
pub mod spaces;
pub mod walks;
