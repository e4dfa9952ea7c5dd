//! The line of output that is being written.

ghost use Rattle.std.specs.Prelude.{◌≡◌, ◌+◌, ◌<◌, ◌≤◌, [], ◌∷◌, ◌++◌, false, codes, length};
ghost use Rattle.std.specs.Fmt.{decimal, digit_glyph, digits};
ghost use Rattle.rights_report.specs.Characters.{hexadecimal};

use std::marker::Model;

/// How many bytes a line may have.
const ROOM: usize = 128;

/// The digits up to base 16.
const DIGITS: [u8; 16] = *b"0123456789abcdef";

/// A line of output of at most 128 bytes, kept from line to line. It takes no other memory.
///
/// It is written from its end on, as the digits of a number come, the last one first: what is put stands before all
/// that was put so far.
#[derive(Drop)]
pub struct LineBuffer {
    bytes: [u8; ROOM],
    /// Where the line begins. It goes on to the end of the bytes.
    start: usize,
}

impl Model for LineBuffer {
    ghost use Rattle.std.specs.Prelude.{ℕ, ◌≤◌, List, drop};

    ghost Value = { List ℕ };

    ghost view = { λ line. drop line.start line.bytes };

    ghost invariant = { λ line. line.start ≤ 128 };
}

impl LineBuffer {
    /// An empty line.
    pub fn new() -> LineBuffer
        ensures { result ≡ [] }
    {
        LineBuffer {
            bytes: [0; ROOM],
            start: ROOM,
        }
    }

    /// Borrows the line.
    pub fn bytes(&self) -> &[u8]
        ensures { result.now ≡ self.now }
    {
        &self.bytes[self.start..]
    }

    /// Makes the line empty.
    pub(crate) fn clear(&mut self)
        ensures { self.new ≡ [] }
    {
        self.start = ROOM;
    }

    /// Puts these bytes.
    #[inline(always)]
    pub(crate) fn put(&mut self, bytes: &[u8])
        requires room { length bytes.now + length self.old ≤ 128 }
        ensures value { self.new ≡ bytes.now ++ self.old }
    {
        let start = self.start - bytes.len();
        self.bytes[start..self.start].copy_from_slice(bytes);
        self.start = start;
    }

    /// Puts a number in decimal.
    pub(crate) fn put_decimal(&mut self, number: u64)
        requires room { 20 + length self.old ≤ 128 }
        ensures value { self.new ≡ decimal number ++ self.old }
        ensures len { length self.new ≤ 20 + length self.old }
    {
        self.put_digits(10, number);
    }

    /// Puts `0x` and the lower-case digits of a number, without leading zeros.
    pub(crate) fn put_hexadecimal(&mut self, number: u64)
        requires room { 22 + length self.old ≤ 128 }
        ensures value { self.new ≡ hexadecimal number ++ self.old }
        ensures len { length self.new ≤ 22 + length self.old }
    {
        self.put_digits(16, number);
        self.put(b"0x");
    }

    /// Puts the digits of a number, of which there are at most 20.
    #[inline(always)]
    fn put_digits(&mut self, base: u64, number: u64)
        requires least { 10 ≤ base }
        requires most { base ≤ 16 }
        requires room { 20 + length self.old ≤ 128 }
        ensures value { self.new ≡ digits base false number ++ self.old }
        ensures len { length self.new ≤ 20 + length self.old }
    {
        let mut at = self.start;
        let mut rest = number;
        loop {
            at -= 1;
            self.bytes[at] = digit(rest % base);
            rest /= base;
            if rest == 0 {
                break;
            }
        }
        self.start = at;
    }
}

/// A digit, as it is shown.
#[inline(always)]
fn digit(value: u64) -> u8
    requires { value < 16 }
    ensures { result ≡ digit_glyph false value }
{
    DIGITS[value as usize]
}
