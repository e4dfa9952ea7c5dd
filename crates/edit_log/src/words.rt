//! The words of a line, and what a word by itself spells: a kind of access, a flag, a width, a number of 32 bits.

ghost use Rattle.std.specs.Prelude.{◌≡◌, ◌≢◌, ◌≤◌, ◌<◌, ◌∷◌, All, codes, length, take, slice_index, IfSome, IfNone, IfOk, IfErr};
ghost use Rattle.std.specs.Result.{result_ok};
ghost use Rattle.edit_log.specs.Log.{words_of};
ghost use Rattle.edit_log.specs.LogLine.{access_of_word, flag_of, width_of, word_of_32 as number_of_32};
ghost use Rattle.edit_log.specs.Numbers.{number_of};
ghost use Rattle.edit_log.specs.Words.{IsOneWord};

use crate::numbers::number;
use paging_model::access::Access;
use std::marker::Model;

/// Words that spell nothing of what is asked for.
#[derive(Clone, Copy, Debug)]
pub(crate) struct Misspelling;

/// The words of a line that aren't taken yet.
#[derive(Drop)]
pub(crate) struct Words<'a> {
    line: &'a [u8],
}

impl<'a> Model for Words<'a> {
    ghost use Rattle.std.specs.Prelude.{ℕ, List};
    ghost use Rattle.edit_log.specs.Log.{words_of};

    ghost Value = { List (List ℕ) };

    ghost view = { λ words. words_of words.line.now };
}

impl<'a> Words<'a> {
    /// The words of a line.
    pub(crate) fn of(line: &'a [u8]) -> Words<'a>
        ensures { result ≡ words_of line.now }
    {
        Words { line }
    }

    /// Takes the next word, where another one follows it.
    pub(crate) fn next(&mut self) -> Result<&'a [u8], Misspelling>
        ensures ok { IfOk result (λ word. self.old ≡ word.now ∷ self.new) }
        ensures err { IfErr result (λ _. IsOneWord self.old) }
    {
        let line = self.line;
        match first_space(line) {
            Some(end) => {
                self.line = &line[end + 1..];
                Ok(&line[..end])
            }
            None => Err(Misspelling),
        }
    }

    /// The words after the first, where that is `ask` and others follow it: most lines begin so, and it isn't searched
    /// for its end.
    pub(crate) fn after_ask(&self) -> Option<Words<'a>>
        ensures { IfSome result (λ rest. self.now ≡ codes "ask" ∷ rest) }
    {
        match self.line {
            [b'a', b's', b'k', b' ', line @ ..] => Some(Words { line }),
            _ => None,
        }
    }

    /// The words after the first, where that is `write` and others follow it, found as those after `ask`.
    pub(crate) fn after_write(&self) -> Option<Words<'a>>
        ensures { IfSome result (λ rest. self.now ≡ codes "write" ∷ rest) }
    {
        match self.line {
            [b'w', b'r', b'i', b't', b'e', b' ', line @ ..] => Some(Words { line }),
            _ => None,
        }
    }

    /// What is left, as one word. Where it is more than one, it has a space, and no word with a space spells anything:
    /// so it isn't searched for one.
    pub(crate) fn last(self) -> &'a [u8]
        ensures { self.entry ≡ words_of result.now }
    {
        self.line
    }
}

/// The index of the first space.
fn first_space(line: &[u8]) -> Option<usize>
    ensures within { IfSome result (λ at. at < length line.now) }
    ensures space { IfSome result (λ at. slice_index line.now at ≡ 32) }
    ensures before { IfSome result (λ at. All (λ b. b ≢ 32) (take at line.now)) }
    ensures none { IfNone result (All (λ b. b ≢ 32) line.now) }
{
    line.iter().position(|b| *b == b' ')
}

/// The kind of access that a word names: `ur`, `uw`, `ux`, `sr`, `sw`, `sx`, `ir` or `iw`.
#[tactic(auto, unfolding(crate::specs::LogLine::access_of_word))]
pub fn kind(word: &[u8]) -> Option<Access>
    ensures { result ≡ access_of_word word.now }
{
    match word {
        b"ur" => Some(Access::Ur),
        b"uw" => Some(Access::Uw),
        b"ux" => Some(Access::Ux),
        b"sr" => Some(Access::Sr),
        b"sw" => Some(Access::Sw),
        b"sx" => Some(Access::Sx),
        b"ir" => Some(Access::Ir),
        b"iw" => Some(Access::Iw),
        _ => None,
    }
}

/// A kind of access.
pub(crate) fn access(word: &[u8]) -> Result<Access, Misspelling>
    ensures { result_ok result ≡ access_of_word word.now }
{
    kind(word).ok_or(Misspelling)
}

/// A number of 64 bits.
pub(crate) fn word_of_64(word: &[u8]) -> Result<u64, Misspelling>
    ensures { result_ok result ≡ number_of word.now }
{
    number(word).ok_or(Misspelling)
}

/// A processor's number or a key register, of 32 bits.
pub(crate) fn word_of_32(word: &[u8]) -> Result<u32, Misspelling>
    ensures { result_ok result ≡ number_of_32 word.now }
{
    match number(word) {
        Some(n) if n < 1 << 32 => Ok(n as u32),
        _ => Err(Misspelling),
    }
}

/// 0 or 1.
pub(crate) fn flag(word: &[u8]) -> Result<bool, Misspelling>
    ensures { result_ok result ≡ flag_of word.now }
{
    match number(word) {
        Some(0) => Ok(false),
        Some(1) => Ok(true),
        _ => Err(Misspelling),
    }
}

/// A physical width, from 32 to 52.
pub(crate) fn width(word: &[u8]) -> Result<u8, Misspelling>
    ensures value { result_ok result ≡ width_of word.now }
    ensures least { IfOk result (λ m. 32 ≤ m) }
    ensures most { IfOk result (λ m. m ≤ 52) }
{
    match number(word) {
        Some(n) if (32..=52).contains(&n) => Ok(n as u8),
        _ => Err(Misspelling),
    }
}
