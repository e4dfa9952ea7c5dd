//! Laws of how many pages a space maps, by the entries of each table.
#![tactic(auto)]

pub mod entries;
pub mod maps;
pub mod writes;
