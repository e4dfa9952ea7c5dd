//! Worked cases of kept spaces, and of what a write touches of one.

ghost use Rattle.history_model.specs.WorkedKeptSpaces.{OfListedSpaces, OfKeptSpaces, OfLargeSpaces, OfWrittenSlots, OfTouchedUses, OfWrittenEntries};

/// The order of spaces that are listed, and how many there are.
pub fn listed_spaces()
    ensures { OfListedSpaces }
{}

/// Lists and a write, of spaces that aren't too large.
pub fn kept_spaces()
    ensures { OfKeptSpaces }
{}

/// Spaces that are too large.
pub fn large_spaces()
    ensures { OfLargeSpaces }
{}

/// Slots of memory that a write touches.
pub fn written_slots()
    ensures { OfWrittenSlots }
{}

/// Uses that are reached by a written entry.
pub fn touched_uses()
    ensures { OfTouchedUses }
{}

/// Entries that are written.
pub fn written_entries()
    ensures { OfWrittenEntries }
{}
