//! The bytes of a write, as pairs of hexadecimal digits.

ghost use Rattle.std.specs.Prelude.{◌≡◌, ◌*◌, length, is_some, option_map, IfOk, IfErr, IfSome, IsSome};
ghost use Rattle.edit_log.specs.LogLine.{payload_of, bytes_of};

use crate::numbers::{hex_digit, two_digits};
use paging_model::byte_strings::Payload;
use std::alloc::{AllocError, Global};

/// The bytes of a write that a word spells, 1 to 4,096.
///
/// They are read in one pass. Only out of memory is a word looked at once more, since one that spells no bytes is
/// refused for that.
#[tactic(auto, using(crate::proofs::Options::none_is))]
pub(crate) fn payload(alloc: Global, word: &[u8]) -> Result<Option<Payload>, AllocError>
    ensures ok { IfOk result (λ bytes. bytes ≡ payload_of word.now) }
    ensures err { IfErr result (λ _. IsSome (payload_of word.now)) }
{
    if word.len() < 2 || word.len() > 8192 {
        return Ok(None);
    }
    match bytes_in(alloc, word) {
        Ok(Some(bytes)) => Ok(Some(Payload::from_vec(bytes))),
        Ok(None) => Ok(None),
        Err(error) if spells_bytes(word) => Err(error),
        Err(_) => Ok(None),
    }
}

/// Whether a word is pairs of hexadecimal digits.
fn spells_bytes(word: &[u8]) -> bool
    ensures { result ≡ is_some (bytes_of word.now) }
{
    if word.len() % 2 != 0 {
        return false;
    }
    for character in word {
        let Some(_) = hex_digit(*character) else {
            return false;
        };
    }
    true
}

/// The bytes that pairs of hexadecimal digits spell.
fn bytes_in(alloc: Global, word: &[u8]) -> Result<Option<Vec<u8>>, AllocError>
    ensures value { IfOk result (λ bytes. option_map (λ b. b.items) bytes ≡ bytes_of word.now) }
    ensures count { IfOk result
        (λ bytes. IfSome bytes (λ b. 2 * length b.items ≡ length word.now)) }
{
    let count = word.len() / 2;
    if 2 * count != word.len() {
        return Ok(None);
    }
    let mut bytes = Vec::with_capacity(alloc, count)?;
    for i in 0..count {
        let Some(byte) = two_digits(word[2 * i], word[2 * i + 1]) else {
            return Ok(None);
        };
        bytes.push_reserved(byte);
    }
    Ok(Some(bytes))
}
