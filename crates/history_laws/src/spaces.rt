//! The spaces that are kept, and what a write leaves of one.

ghost use Rattle.std.specs.Prelude.{◌≡◌, ◌↔◌, ℕ, ◌%◌, ◌≤◌, true, List, length};
ghost use Rattle.paging_model.specs.Counting.{AreDistinct, IsIn};
ghost use Rattle.paging_model.specs.Memory.{Memory};
ghost use Rattle.paging_model.specs.declared.spaces.SpaceKey.{SpaceKey};
ghost use Rattle.paging_model.specs.declared.spaces.TableUse.{TableUse};
ghost use Rattle.history_model.specs.History.{History, memory, with_bytes};
ghost use Rattle.history_model.specs.KeptSpaces.{AreKept, WithinIn, kept_limit, same_key};
ghost use Rattle.history_laws.specs.UntouchedUses.{IsUntouched};

/// Two keys are compared by their values: root, and settings.
pub fn keys_are_compared_by_value()
    ensures { (one other : SpaceKey) → (same_key one other ≡ true) ↔ (one ≡ other) }
{}

/// One list at most is that of the kept spaces. It has 16 at most, each of them once and none too large.
pub fn one_list_of_spaces_is_kept()
    ensures one_list { (history : History) (some other : List SpaceKey) →
        AreKept history some → AreKept history other → some ≡ other }
    ensures few { (history : History) (keys : List SpaceKey) →
        AreKept history keys → length keys ≤ kept_limit }
    ensures distinct { (history : History) (keys : List SpaceKey) →
        AreKept history keys → AreDistinct keys }
    ensures within { (history : History) (keys : List SpaceKey) (key : SpaceKey) →
        AreKept history keys → IsIn key keys → WithinIn (memory history) key }
{}

/// The uses that a write doesn't touch are the same before and after it: the walk to such a use reads no written slot.
pub fn untouched_uses_stood_before()
    ensures { (before : Memory) (at : ℕ) (bytes : List ℕ) (key : SpaceKey) (table : TableUse) →
        key.root % 4096 ≡ 0
        → (IsUntouched (with_bytes at bytes before) key at (length bytes) table
        ↔ IsUntouched before key at (length bytes) table) }
{}
