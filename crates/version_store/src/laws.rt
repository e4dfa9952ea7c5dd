//! What kept changes tell of a history.

ghost use Rattle.std.specs.Prelude.{◌≡◌, ℕ, ◌+◌, ◌*◌, ◌/◌, ◌<◌, ◌≤◌, false, List, length, slice_index_or, Option, None};
ghost use Rattle.paging_model.specs.Memory.{Memory, entry_at};
ghost use Rattle.history_model.specs.History.{History, memory, next, time};
ghost use Rattle.history_model.specs.Horizons.{is_memory_write};
ghost use Rattle.history_model.specs.declared.events.Event.{Event};
ghost use Rattle.history_model.specs.declared.events.Event.TheVariants.{Write};
ghost use Rattle.history_laws.specs.MomentsByTime.{moment_at};
ghost use Rattle.version_store.specs.Changes.{KeptChanges, change_count, frame_count, kept_blocks, with_changes};
ghost use Rattle.version_store.specs.WrittenChanges.{TellValues, entries_from, first_slot, kept_changes, touched_entries};

/// The changes that the writes of a history make tell, with the present memory, what each known slot held at each time.
pub fn kept_changes_tell_values()
    ensures { (history : History) → TellValues (kept_changes history) 0 history }
{}

/// Where the changes of a history are kept and those of a write are noted, the changes of the history after it are
/// kept.
pub fn noted_writes_are_kept()
    ensures { (before : History) (at : ℕ) (bytes : List ℕ) (kept : KeptChanges) →
        kept ≡ kept_changes before
        → with_changes kept (first_slot at) (touched_entries (memory before) at (length bytes))
        (time before + 1)
        ≡ kept_changes (next before (Write at bytes)) }
{}

/// What slots hold one after another is known from what each of them holds.
pub fn entries_are_read_one_by_one()
    ensures { (memory : Memory) (slot : ℕ) (entries : List (Option ℕ)) →
        ((i : ℕ) → i < length entries
        → slice_index_or entries i None ≡ entry_at memory (slot + 8 * i))
        → entries ≡ entries_from memory slot (length entries) }
{}

/// An event that writes nothing makes no change.
pub fn events_without_a_write_make_no_change()
    ensures { (before : History) (happened : Event) → is_memory_write happened ≡ false
        → kept_changes (next before happened) ≡ kept_changes before }
{}

/// What isn't known of memory was never known, and what isn't known at some moment never will be.
pub fn nothing_becomes_known()
    ensures past { (history : History) (slot t : ℕ) → entry_at (memory history) slot ≡ None
        → entry_at (memory (moment_at history t)) slot ≡ None }
    ensures future { (history : History) (slot t : ℕ) →
        entry_at (memory (moment_at history t)) slot ≡ None
        → entry_at (memory history) slot ≡ None }
{}

/// There are no more blocks than full ones and one for each frame.
pub fn blocks_are_few()
    ensures { (kept : KeptChanges) → kept_blocks kept ≤ change_count kept / 256 + frame_count kept }
{}
