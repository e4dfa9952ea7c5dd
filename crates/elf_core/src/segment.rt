//! A part of a core that is known memory.

/// A part of a core's file, and the physical address of its first byte.
#[derive(Clone, Copy, Debug)]
pub struct Segment<'a> {
    pub phys: u64,
    pub bytes: &'a [u8],
}
