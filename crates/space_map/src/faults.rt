//! Why a space isn't built.

use thiserror::Error;

/// Why a space isn't built.
#[derive(Clone, Copy, Debug, PartialEq, Eq, Error)]
pub enum SpaceFault {
    /// It has more than 262,144 uses of tables, or more than 2,097,152 mapped pages.
    #[error("too large")]
    TooLarge,
    /// Out of memory.
    #[error("out of memory")]
    Memory,
}
