//! Byte strings, which contracts see as lists of numbers: the payload of a write, and a line of output.

ghost use Rattle.std.specs.Prelude.{◌≡◌, ◌≤◌, length};

use std::marker::Model;

/// The bytes of one write to memory: 1 to 4,096.
#[derive(Debug, Drop)]
pub struct Payload {
    bytes: Vec<u8>,
}

impl Model for Payload {
    ghost use Rattle.std.specs.Prelude.{ℕ, ◌≤◌, List, length};

    ghost Value = { List ℕ };

    ghost view = { λ p. p.bytes.items };

    ghost invariant = { λ p. (1 ≤ length p.bytes.items) × (length p.bytes.items ≤ 4096) };
}

impl Payload {
    /// Takes ownership of the bytes.
    pub fn from_vec(items: Vec<u8>) -> Payload
        requires some { 1 ≤ length items.items }
        requires one_page { length items.items ≤ 4096 }
        ensures { result ≡ items.items }
    {
        Payload { bytes: items }
    }

    /// Borrows the bytes.
    pub fn as_slice(&self) -> &[u8]
        ensures value { result.now ≡ self.now }
        ensures some { 1 ≤ length self.now }
        ensures one_page { length self.now ≤ 4096 }
    {
        self.bytes.as_slice()
    }
}

/// The bytes of a line of output.
#[derive(Debug, Drop)]
pub struct Text {
    bytes: Vec<u8>,
}

impl Model for Text {
    ghost use Rattle.std.specs.Prelude.{ℕ, List};

    ghost Value = { List ℕ };

    ghost view = { λ t. t.bytes.items };
}

impl Text {
    /// Takes ownership of the bytes.
    pub fn from_vec(items: Vec<u8>) -> Text
        ensures { result ≡ items.items }
    {
        Text { bytes: items }
    }

    /// Borrows the bytes.
    pub fn as_slice(&self) -> &[u8]
        ensures { result.now ≡ self.now }
    {
        self.bytes.as_slice()
    }
}
