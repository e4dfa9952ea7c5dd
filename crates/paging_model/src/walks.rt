//! How the walk of one linear address ends.

use crate::entries::Bits;

/// The 4-KByte page that a walk ends at.
#[derive(Clone, Copy, Debug, PartialEq, Eq)]
pub struct Page {
    /// The physical address of the linear address's own 4-KByte page.
    pub frame: u64,
    /// The level of the leaf: 1 for 4-KByte, 2 for 2-MByte and 3 for 1-GByte pages.
    pub level: u8,
    /// The bits that were joined over all entries of the walk.
    pub bits: Bits,
    /// The leaf's protection key, under 16.
    pub key: u8,
    /// The leaf's bit G.
    pub global: bool,
}

/// How a walk ends; the number is the level at which it stopped, 5 to 1.
#[derive(Clone, Copy, Debug, PartialEq, Eq)]
pub enum Walk {
    Mapped(Page),
    /// The entry's P is 0.
    Absent(u8),
    /// The entry has a reserved bit set.
    Reserved(u8),
    /// A byte of the entry isn't known.
    Unknown(u8),
}
