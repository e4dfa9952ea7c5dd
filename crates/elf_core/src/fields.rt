//! The little-endian numbers of a file, by their offset in its bytes.

ghost use Rattle.std.specs.Prelude.{◌≡◌, ◌+◌, ◌≤◌, length};
ghost use Rattle.elf_core.specs.Fields.{half_at, word_at, xword_at};

use byteorder::{ByteOrder, LittleEndian};

/// A field of 2 bytes.
pub fn half_at(bytes: &[u8], offset: usize) -> u16
    requires { offset + 2 ≤ length bytes.now }
    ensures { result ≡ half_at bytes.now offset }
{
    LittleEndian::read_u16(&bytes[offset..])
}

/// A field of 4 bytes.
pub fn word_at(bytes: &[u8], offset: usize) -> u32
    requires { offset + 4 ≤ length bytes.now }
    ensures { result ≡ word_at bytes.now offset }
{
    LittleEndian::read_u32(&bytes[offset..])
}

/// A field of 8 bytes.
pub fn xword_at(bytes: &[u8], offset: usize) -> u64
    requires { offset + 8 ≤ length bytes.now }
    ensures { result ≡ xword_at bytes.now offset }
{
    LittleEndian::read_u64(&bytes[offset..])
}
