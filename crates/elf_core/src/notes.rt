//! Notes, one after another from the start of their segment.

ghost use Rattle.std.specs.Prelude.{◌≡◌, ◌⊎◌, ◌+◌, ◌<◌, ◌≤◌, ◌^◌, length, drop, slice_range, option_map, Some, None, [], ◌∷◌, IfOk, IsSome, IfSome, IfNone, ◌↔◌, OnErr};
ghost use Rattle.elf_core.specs.Notes.{all_notes, first_note};
ghost use Rattle.elf_core.specs.NoteViews.{parts};

use crate::fields::word_at;
use std::marker::Model;

/// The bytes of the fields before a note's name.
const FIELDS_SIZE: usize = 12;

/// A note.
#[derive(Clone, Copy, Debug)]
pub struct Note<'a> {
    pub kind: u32,
    /// The name of its owner.
    pub name: &'a [u8],
    pub description: &'a [u8],
}

/// A note passes the end of its segment.
#[derive(Clone, Copy, Debug)]
pub struct PastEnd;

/// The notes of a segment that are still to be read. They end where fewer bytes are left than the fields of a note.
///
/// Contracts see the list of them; a note that passes the end of the segment stands in it as none, and is the last.
#[derive(Debug, Drop)]
pub struct Notes<'a> {
    bytes: &'a [u8],
}

impl<'a> Model for Notes<'a> {
    ghost use Rattle.std.specs.Prelude.{List, Option};
    ghost use Rattle.elf_core.specs.Notes.{NoteParts, all_notes};

    ghost Value = { List (Option NoteParts) };

    ghost view = { λ notes. all_notes notes.bytes.now };
}

impl<'a> Notes<'a> {
    /// The notes of a segment of these bytes.
    pub fn new(bytes: &'a [u8]) -> Notes<'a>
        ensures { result ≡ all_notes bytes.now }
    {
        Notes { bytes }
    }

    /// The next note. There is none at the end.
    ///
    /// # Errors
    ///
    /// It passes the end of the segment. Then it is still the next one.
    pub fn next(&mut self) -> Result<Option<Note<'a>>, PastEnd>
        ensures note { IfOk result
            (λ next. IfSome next (λ note. self.old ≡ Some (parts note) ∷ self.new)) }
        ensures end { IfOk result (λ next. IfNone next (self.old ≡ [])) }
        ensures over { IfOk result (λ next. IfNone next (self.new ≡ [])) }
        ensures past { OnErr result (self.old ≡ None ∷ []) }
        ensures stays { OnErr result (self.new ≡ self.old) }
    {
        if self.bytes.len() < FIELDS_SIZE {
            return Ok(None);
        }
        let Some((note, rest)) = first_note(self.bytes) else {
            return Err(PastEnd);
        };
        self.bytes = rest;
        Ok(Some(note))
    }
}

/// The note that bytes begin with, and the bytes from the next note on. There is none where it passes their end.
#[tactic(auto, unfolding(crate::specs::Notes::first_note))]
fn first_note(bytes: &[u8]) -> Option<(Note<'_>, &[u8])>
    requires { 12 ≤ length bytes.now }
    ensures { option_map (λ found. (parts found.0, found.1.now)) result ≡ first_note bytes.now }
{
    let name_size = word_at(bytes, 0) as usize;
    let description_size = word_at(bytes, 4) as usize;
    let name_end = FIELDS_SIZE + name_size;
    let start = name_end.next_multiple_of(4);
    let end = start + description_size;
    let note = Note {
        kind: word_at(bytes, 8),
        name: bytes.get(FIELDS_SIZE..name_end)?,
        description: part(bytes, start, description_size)?,
    };
    Some((note, bytes_from(bytes, end.next_multiple_of(4))))
}

/// The bytes from an offset on, which may be past the end.
fn bytes_from(bytes: &[u8], offset: usize) -> &[u8]
    ensures { result.now ≡ drop offset bytes.now }
{
    bytes.get(offset..).unwrap_or_default()
}

/// So many bytes from an offset on, where they don't pass the end. Zero bytes never do.
fn part(bytes: &[u8], start: usize, size: usize) -> Option<&[u8]>
    requires { start + size < 2 ^ 64 }
    ensures found { IsSome result ↔ ((size ≡ 0) ⊎ (start + size ≤ length bytes.now)) }
    ensures value { IfSome result (λ part. part.now ≡ slice_range bytes.now start (start + size)) }
{
    if size == 0 {
        return Some(&[]);
    }
    bytes.get(start..start + size)
}
