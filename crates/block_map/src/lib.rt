//! A map from pages' numbers to their blocks. A page of low addresses is found without a search.
#![tactic(auto)]

mod map;
mod row;
mod rows;

pub use map::BlockMap;

#[cfg(test)]
mod tests;
