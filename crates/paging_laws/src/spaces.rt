//! What a walk down finds of a whole space.

ghost use Rattle.std.specs.Prelude.{ℕ, ◌^◌, ◌<◌, ◌≤◌, ◌⊎◌, ◌↔◌, IsTrue, length};
ghost use Rattle.paging_model.specs.Counting.{AreAll};
ghost use Rattle.paging_model.specs.Entries.{root_bits};
ghost use Rattle.paging_model.specs.LinearAddress.{is_canonical};
ghost use Rattle.paging_model.specs.Memory.{Memory};
ghost use Rattle.paging_model.specs.TableUses.{IsLeaf, IsTooLarge, IsUse, IsWithinLimits, leaf_limit, use_limit};
ghost use Rattle.paging_model.specs.Walking.{top_level};
ghost use Rattle.paging_model.specs.declared.registers.Settings.{Settings};
ghost use Rattle.paging_laws.specs.ReachedSlots.{AreReached, LiesInHalf};
ghost use Rattle.paging_laws.specs.SpaceParts.{upper_prefix, uses_of, leaves_of};

/// Each half of the canonical addresses is served by one half of the top table.
pub fn half_of_the_top_table_serves_half_of_the_space()
    ensures lower { (memory : Memory) (settings : Settings) (root : ℕ) →
        AreReached memory settings root (top_level settings) root 0 root_bits 0 256 }
    ensures upper { (memory : Memory) (settings : Settings) (root : ℕ) →
        AreReached memory settings root (top_level settings) root (upper_prefix settings)
        root_bits 256 256 }
{}

/// Each canonical address lies in one of the two halves.
pub fn canonical_addresses_lie_in_the_halves()
    ensures { (settings : Settings) (x : ℕ) → x < 2 ^ 64 → IsTrue (is_canonical settings.la57 x)
        → LiesInHalf settings 0 0 x ⊎ LiesInHalf settings (upper_prefix settings) 256 x }
{}

/// The uses that are found from the root down are all uses of the space, each once.
pub fn uses_found_of_a_space_are_all()
    ensures { (memory : Memory) (settings : Settings) (root : ℕ) →
        AreAll (IsUse memory settings root) (uses_of memory settings root) }
{}

/// The pages that are found from the root down are all pages of the space, each once.
pub fn leaves_found_of_a_space_are_all()
    ensures { (memory : Memory) (settings : Settings) (root : ℕ) →
        AreAll (IsLeaf memory settings root) (leaves_of memory settings root) }
{}

/// The numbers of uses and of pages that are found decide whether a space is too large.
pub fn found_numbers_decide_the_size()
    ensures too_large { (memory : Memory) (settings : Settings) (root : ℕ) →
        IsTooLarge memory settings root
        ↔ ((use_limit < length (uses_of memory settings root))
        ⊎ (leaf_limit < length (leaves_of memory settings root))) }
    ensures within { (memory : Memory) (settings : Settings) (root : ℕ) →
        IsWithinLimits memory settings root
        ↔ ((length (uses_of memory settings root) ≤ use_limit)
        × (length (leaves_of memory settings root) ≤ leaf_limit)) }
{}
