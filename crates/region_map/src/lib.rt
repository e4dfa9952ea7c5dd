//! The map of one linear-address space: ranges of pages, each as long as it can be, in one list.
#![tactic(auto)]

mod adding;
mod copying;
mod edits;
mod places;
mod putting;
mod regions;

pub use regions::Regions;

#[cfg(test)]
mod tests;
