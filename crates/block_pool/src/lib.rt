//! Blocks of the bytes of a page, and a pool that takes the memory for them before they are needed.
#![tactic(auto)]

mod block;
mod pool;

pub use block::{BLOCK_LEN, Block};
pub use pool::Pool;

#[cfg(test)]
mod tests;
