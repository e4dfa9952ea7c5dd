//! The limits of the files.

/// The greatest length of a core in bytes.
pub const CORE_LIMIT: u64 = 2_147_483_648;

/// The greatest length of a log in bytes.
pub const LOG_LIMIT: u64 = 268_435_456;
