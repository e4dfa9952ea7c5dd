//! How many tables and pages a space has.

ghost use Rattle.std.specs.Prelude.{ℕ, ◌≤◌, List, length};
ghost use Rattle.paging_model.specs.Counting.{AreAll, AreSome};
ghost use Rattle.paging_model.specs.Memory.{Memory};
ghost use Rattle.paging_model.specs.TableUses.{IsLeaf, IsTooLarge, IsUse, IsWithinLimits, Leaf};
ghost use Rattle.paging_model.specs.declared.registers.Settings.{Settings};
ghost use Rattle.paging_model.specs.declared.spaces.TableUse.{TableUse};

/// A list of distinct uses is no longer than the list of all uses.
pub fn some_uses_are_no_more_than_all()
    ensures { (memory : Memory) (settings : Settings) (root : ℕ) (some all : List TableUse) →
        AreSome (IsUse memory settings root) some → AreAll (IsUse memory settings root) all
        → length some ≤ length all }
{}

/// A list of distinct pages is no longer than the list of all pages.
pub fn some_leaves_are_no_more_than_all()
    ensures { (memory : Memory) (settings : Settings) (root : ℕ) (some all : List Leaf) →
        AreSome (IsLeaf memory settings root) some → AreAll (IsLeaf memory settings root) all
        → length some ≤ length all }
{}

/// No space is both too large and within the limits.
pub fn too_large_is_not_within_limits()
    ensures { (memory : Memory) (settings : Settings) (root : ℕ) →
        IsTooLarge memory settings root → IsWithinLimits memory settings root → ⊥ }
{}
