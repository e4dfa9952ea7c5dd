//! Fields of a file or of memory.

/// A field: its offset, its size in bytes (at most 8) and its value.
pub type Field = (usize, usize, u64);

/// Sets the bytes of a field, the least significant first, as far as it lies in `bytes`.
pub fn put(bytes: &mut [u8], field: Field) {
    let (offset, size, value) = field;
    let field = bytes.iter_mut().skip(offset).take(size);
    for (byte, new) in field.zip(value.to_le_bytes()) {
        *byte = new;
    }
}

/// Sets the bytes of fields, one after the other.
pub fn put_all(bytes: &mut [u8], fields: &[Field]) {
    for field in fields {
        put(bytes, *field);
    }
}
