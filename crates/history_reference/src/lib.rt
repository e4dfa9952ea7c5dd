//! What a processor may hold and use after a list of events, and what of it is stale: each computed plainly from its
//! definition, by recursion over the events.
//!
//! It is for tests on small histories, which compare quick bodies with it. Nothing is kept from one call to the next.
#![tactic(auto)]

pub mod cache_entries;
pub mod findings;
pub mod invalidations;
pub mod made_entries;
pub mod moments;
pub mod stale_pages;
#[cfg(test)]
mod tests;
pub mod visits;
