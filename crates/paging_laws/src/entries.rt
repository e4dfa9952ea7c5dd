//! What a walk down finds at entries of a table.

ghost use Rattle.std.specs.Prelude.{◌≡◌, ℕ, ◌+◌, ◌<◌, ◌≤◌, [], ◌++◌};
ghost use Rattle.paging_model.specs.Counting.{AreAll, AreDistinct, IsIn};
ghost use Rattle.paging_model.specs.Memory.{Memory};
ghost use Rattle.paging_model.specs.TableUses.{IsUse, Leaf};
ghost use Rattle.paging_model.specs.Walking.{top_level};
ghost use Rattle.paging_model.specs.declared.entries.Bits.{Bits};
ghost use Rattle.paging_model.specs.declared.registers.Settings.{Settings};
ghost use Rattle.paging_model.specs.declared.spaces.TableUse.{TableUse};
ghost use Rattle.paging_laws.specs.EntryParts.{uses_at, leaves_at, TableLiesIn, PageLiesIn};
ghost use Rattle.paging_laws.specs.ReachedSlots.{AreReached, IsUseWithin, IsLeafWithin};
ghost use Rattle.paging_laws.specs.SpaceParts.{slot_prefix, slot_read, uses_in, leaves_in};

/// Nothing is found at no entry.
pub fn no_entry_has_parts()
    ensures uses { (memory : Memory) (settings : Settings) (level table prefix : ℕ) (above : Bits)
        (from : ℕ) → uses_in memory settings level table prefix above from 0 ≡ [] }
    ensures leaves { (memory : Memory) (settings : Settings) (level table prefix : ℕ) (above : Bits)
        (from : ℕ) → leaves_in memory settings level table prefix above from 0 ≡ [] }
{}

/// What is found at some entries and at the next ones is found at all of them, in this order.
pub fn parts_follow_one_another()
    ensures uses { (memory : Memory) (settings : Settings) (level table prefix : ℕ) (above : Bits)
        (from count more : ℕ) →
        uses_in memory settings level table prefix above from (count + more)
        ≡ uses_in memory settings level table prefix above from count
        ++ uses_in memory settings level table prefix above (from + count) more }
    ensures leaves { (memory : Memory) (settings : Settings) (level table prefix : ℕ) (above : Bits)
        (from count more : ℕ) →
        leaves_in memory settings level table prefix above from (count + more)
        ≡ leaves_in memory settings level table prefix above from count
        ++ leaves_in memory settings level table prefix above (from + count) more }
{}

/// One entry gives what it means: its page, or its table and what that one gives.
pub fn an_entry_has_the_parts_of_its_meaning()
    ensures uses { (memory : Memory) (settings : Settings) (level table prefix : ℕ) (above : Bits)
        (i : ℕ) → 1 ≤ level
        → uses_in memory settings level table prefix above i 1
        ≡ uses_at memory settings level (slot_prefix level prefix i) above
        (slot_read memory settings level table i) }
    ensures leaves { (memory : Memory) (settings : Settings) (level table prefix : ℕ) (above : Bits)
        (i : ℕ) → 1 ≤ level
        → leaves_in memory settings level table prefix above i 1
        ≡ leaves_at memory settings level (slot_prefix level prefix i) above
        (slot_read memory settings level table i) }
{}

/// What is found at entries lies in the ranges that they serve, whatever memory holds.
pub fn parts_lie_in_the_ranges_of_their_entries()
    ensures uses { (memory : Memory) (settings : Settings) (level table prefix : ℕ) (above : Bits)
        (from count : ℕ) (one : TableUse) →
        IsIn one (uses_in memory settings level table prefix above from count)
        → TableLiesIn level (slot_prefix level prefix from)
        (slot_prefix level prefix (from + count)) one }
    ensures leaves { (memory : Memory) (settings : Settings) (level table prefix : ℕ) (above : Bits)
        (from count : ℕ) (one : Leaf) →
        IsIn one (leaves_in memory settings level table prefix above from count)
        → PageLiesIn level (slot_prefix level prefix from)
        (slot_prefix level prefix (from + count)) one }
{}

/// Nothing is found twice, whatever memory holds.
pub fn parts_are_distinct()
    ensures uses { (memory : Memory) (settings : Settings) (level table prefix : ℕ) (above : Bits)
        (from count : ℕ) →
        AreDistinct (uses_in memory settings level table prefix above from count) }
    ensures leaves { (memory : Memory) (settings : Settings) (level table prefix : ℕ) (above : Bits)
        (from count : ℕ) →
        AreDistinct (leaves_in memory settings level table prefix above from count) }
{}

/// Where walks come to entries, what is found at them is all uses below their level, and all pages, of their range.
pub fn parts_of_reached_entries_are_all_of_their_range()
    ensures uses { (memory : Memory) (settings : Settings) (root level table prefix : ℕ)
        (above : Bits) (from count : ℕ) →
        AreReached memory settings root level table prefix above from count
        → AreAll (IsUseWithin memory settings root level (slot_prefix level prefix from)
        (slot_prefix level prefix (from + count)))
        (uses_in memory settings level table prefix above from count) }
    ensures leaves { (memory : Memory) (settings : Settings) (root level table prefix : ℕ)
        (above : Bits) (from count : ℕ) →
        AreReached memory settings root level table prefix above from count
        → AreAll (IsLeafWithin memory settings root (slot_prefix level prefix from)
        (slot_prefix level prefix (from + count)))
        (leaves_in memory settings level table prefix above from count) }
{}

/// The walks of all addresses that a table below the top one serves come to it.
pub fn entries_of_a_use_are_reached()
    ensures { (memory : Memory) (settings : Settings) (root : ℕ) (table : TableUse)
        (from count : ℕ) → IsUse memory settings root table → table.level < top_level settings
        → from + count ≤ 512
        → AreReached memory settings root table.level table.frame table.prefix table.bits
        from count }
{}
