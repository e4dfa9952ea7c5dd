//! What a write leaves of memory, and of walks.

ghost use Rattle.std.specs.Prelude.{◌≡◌, ℕ, ◌%◌, List, length};
ghost use Rattle.paging_model.specs.Memory.{Memory, entry_at};
ghost use Rattle.paging_model.specs.Walking.{walk};
ghost use Rattle.paging_model.specs.declared.registers.Settings.{Settings};
ghost use Rattle.history_model.specs.History.{with_bytes};
ghost use Rattle.history_model.specs.KeptSpaces.{IsWrittenSlot};
ghost use Rattle.history_laws.specs.WrittenSlots.{ReadsNoWrittenSlot};

/// A write changes the entries in the slots that it touches, and no others.
pub fn a_write_changes_its_slots_alone()
    ensures { (before : Memory) (at : ℕ) (bytes : List ℕ) (slot : ℕ) →
        slot % 8 ≡ 0 → ¬ IsWrittenSlot at (length bytes) slot
        → entry_at (with_bytes at bytes before) slot ≡ entry_at before slot }
{}

/// A walk that reads no written slot in the memory before a write, or in the memory after it, is the same in both.
pub fn walks_past_a_write_are_as_before()
    ensures before { (before : Memory) (at : ℕ) (bytes : List ℕ) (settings : Settings)
        (root x : ℕ) → root % 4096 ≡ 0 → ReadsNoWrittenSlot before settings root x at (length bytes)
        → walk (with_bytes at bytes before) settings root x ≡ walk before settings root x }
    ensures after { (before : Memory) (at : ℕ) (bytes : List ℕ) (settings : Settings)
        (root x : ℕ) → root % 4096 ≡ 0
        → ReadsNoWrittenSlot (with_bytes at bytes before) settings root x at (length bytes)
        → walk (with_bytes at bytes before) settings root x ≡ walk before settings root x }
{}
