//! What a map of pages says of the entries of a patch.

ghost use Rattle.std.specs.Prelude.{◌≡◌, ℕ, ◌+◌, ◌<◌, ◌≤◌, Bool, List, Option, Some, None};
ghost use Rattle.kept_laws.specs.PageNumbers.{pages_of_entry};
ghost use Rattle.kept_laws.specs.Patches.{IsPatch};
ghost use Rattle.kept_laws.specs.declared.patches.Patch.{Patch};
ghost use Rattle.page_laws.specs.PatchEntries.{IsBelowEntry, IsMapOf};
ghost use Rattle.paging_laws.specs.SpaceParts.{slot_prefix, slot_read};
ghost use Rattle.paging_model.specs.Counting.{AreAll, IsIn};
ghost use Rattle.paging_model.specs.Memory.{Memory};
ghost use Rattle.paging_model.specs.TableUses.{IsUse};
ghost use Rattle.paging_model.specs.Translations.{Protection, Target};
ghost use Rattle.paging_model.specs.declared.registers.Settings.{Settings};
ghost use Rattle.paging_model.specs.declared.spaces.TableUse.{TableUse};

/// An entry of a patch maps a page exactly where its first address is mapped and no table that it references is used.
pub fn map_and_uses_decide_whether_an_entry_maps_a_page()
    ensures unmapped { (written : ℕ → Bool) (memory : Memory) (settings : Settings) (root : ℕ)
        (patch : Patch) (target : ℕ → Option (Target Protection)) (i : ℕ) →
        IsPatch memory written settings root patch → IsMapOf memory settings root target
        → patch.from ≤ i → i < patch.from + patch.count
        → target (slot_prefix patch.table.level patch.table.prefix i) ≡ None
        → pages_of_entry (slot_read memory settings patch.table.level patch.table.frame i) ≡ 0 }
    ensures table { (written : ℕ → Bool) (memory : Memory) (settings : Settings) (root : ℕ)
        (patch : Patch) (tables : List TableUse) (i : ℕ) (table : TableUse) →
        IsPatch memory written settings root patch → AreAll (IsUse memory settings root) tables
        → patch.from ≤ i → i < patch.from + patch.count
        → IsIn table tables → IsBelowEntry patch i table
        → pages_of_entry (slot_read memory settings patch.table.level patch.table.frame i) ≡ 0 }
    ensures page { (written : ℕ → Bool) (memory : Memory) (settings : Settings) (root : ℕ)
        (patch : Patch) (target : ℕ → Option (Target Protection)) (tables : List TableUse) (i : ℕ)
        (to : Target Protection) →
        IsPatch memory written settings root patch → IsMapOf memory settings root target
        → AreAll (IsUse memory settings root) tables
        → patch.from ≤ i → i < patch.from + patch.count
        → target (slot_prefix patch.table.level patch.table.prefix i) ≡ Some to
        → ((table : TableUse) → IsIn table tables → IsBelowEntry patch i table → ⊥)
        → pages_of_entry (slot_read memory settings patch.table.level patch.table.frame i) ≡ 1 }
{}
