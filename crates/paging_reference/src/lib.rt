//! The definitions of one moment, computed one by one from the definitions' own text: memory byte by byte, the walk of
//! one address, and the present translation of one page.
//!
//! Nothing here is quick, and nothing is kept from one call to the next. It is for tests, which compare quick bodies
//! with it, and each function has a definition of `paging_model` as its contract.
#![tactic(auto)]

pub mod listings;
pub mod physical_memory;
pub mod table_uses;
#[cfg(test)]
mod tests;
pub mod translations;
pub mod walking;
