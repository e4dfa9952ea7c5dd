//! Physical memory, byte by byte, and the entries in it.

ghost use Rattle.std.specs.Prelude.{◌≡◌, ℕ, ◌+◌, ◌*◌, ◌^◌, ◌<◌, ◌≤◌, Option, IfSome};
ghost use Rattle.paging_model.specs.Memory.{byte_in, entry_at as entry_in, number_at as number_in};
ghost use Rattle.paging_reference.specs.Extents.{extents_of};

/// A part of memory whose bytes are known, from its first physical address on.
#[derive(Debug, Drop)]
pub struct KnownBytes {
    pub start: u64,
    pub bytes: Vec<u8>,
}

/// What is known of the bytes of physical memory.
pub trait PhysicalMemory {
    ghost contents: { Self → ℕ → Option ℕ };

    /// The byte at a physical address.
    fn byte(&self, address: u64) -> Option<u8>
        ensures { result ≡ contents self.now address };
}

/// Memory by the parts of it that are known.
#[derive(Debug, Drop)]
pub struct KnownMemory {
    /// Of parts that overlap, the first counts.
    pub extents: Vec<KnownBytes>,
}

impl PhysicalMemory for KnownMemory {
    ghost contents = { λ memory. byte_in (extents_of memory.extents.items) };

    fn byte(&self, address: u64) -> Option<u8> {
        first_byte(&self.extents, address)
    }
}

/// The byte of the first part that covers the address.
pub fn first_byte(extents: &[KnownBytes], address: u64) -> Option<u8>
    ensures { result ≡ byte_in (extents_of extents.now) address }
{
    for extent in extents {
        if extent.start <= address && address - extent.start < extent.bytes.len() as u64 {
            return Some(extent.bytes[(address - extent.start) as usize]);
        }
    }
    None
}

/// The little-endian number in so many bytes from an address on.
pub fn number_at<M: PhysicalMemory>(memory: &M, size: u8, address: u64) -> Option<u64>
    requires size { size ≤ 8 }
    requires ends { address + size < 2 ^ 64 }
    ensures value { result ≡ number_in (M.contents memory.now) size address }
    ensures below { IfSome result (λ number. number < 2 ^ (8 * size)) }
{
    if size == 0 {
        return Some(0);
    }
    let low = memory.byte(address)?;
    let high = number_at(memory, size - 1, address + 1)?;
    Some(u64::from(low) + 256 * high)
}

/// The entry at a physical address.
pub fn entry_at<M: PhysicalMemory>(memory: &M, address: u64) -> Option<u64>
    requires { address + 8 < 2 ^ 64 }
    ensures { result ≡ entry_in (M.contents memory.now) address }
{
    number_at(memory, 8, address)
}
