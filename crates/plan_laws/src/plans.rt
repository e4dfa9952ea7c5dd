//! Which entries of a space are walked again after a write to slots of one frame.

ghost use Rattle.std.specs.Prelude.{◌≡◌, ℕ, ◌+◌, ◌-◌, ◌*◌, ◌%◌, ◌<◌, ◌≤◌, List};
ghost use Rattle.history_model.specs.KeptSpaces.{IsWrittenEntry};
ghost use Rattle.kept_laws.specs.Patches.{ArePatches, entries_of};
ghost use Rattle.kept_laws.specs.WrittenPlaces.{AreAlikeBut, meets_slots};
ghost use Rattle.kept_laws.specs.declared.patches.Patch.{Patch};
ghost use Rattle.paging_model.specs.Counting.{AreAll, AtLeast, IsIn};
ghost use Rattle.paging_model.specs.Memory.{Memory};
ghost use Rattle.paging_model.specs.TableUses.{IsUse};
ghost use Rattle.paging_model.specs.Walking.{top_level};
ghost use Rattle.paging_model.specs.declared.registers.Settings.{Settings};
ghost use Rattle.paging_model.specs.declared.spaces.SpaceKey.{SpaceKey};
ghost use Rattle.paging_model.specs.declared.spaces.TableUse.{TableUse};
ghost use Rattle.plan_laws.specs.Plans.{ArePlanned};

/// A plan has exactly the canonical addresses whose walks read a written entry.
pub fn a_plan_has_what_is_written()
    ensures { (memory : Memory) (settings : Settings) (root : ℕ) (patches : List Patch)
        (frame first last : ℕ) (tables : List TableUse) →
        first ≤ last → last < 512 → frame % 4096 ≡ 0 → root % 4096 ≡ 0
        → AreAll (IsUse memory settings root) tables
        → ArePlanned settings first last frame tables patches
        → ArePatches memory (meets_slots frame first last) settings root patches }
{}

/// One patch at most of a plan is of a level and a prefix, and the tables of its lower patches are
/// among those that it was made from.
pub fn patches_of_a_plan_have_their_own_tables()
    ensures own { (memory : Memory) (settings : Settings) (root : ℕ) (patches : List Patch)
        (frame first last : ℕ) (tables : List TableUse) →
        AreAll (IsUse memory settings root) tables
        → ArePlanned settings first last frame tables patches
        → (one other : Patch) → IsIn one patches → IsIn other patches
        → one.table.level ≡ other.table.level → one.table.prefix ≡ other.table.prefix
        → one ≡ other }
    ensures listed { (settings : Settings) (patches : List Patch) (frame first last : ℕ)
        (tables : List TableUse) →
        ArePlanned settings first last frame tables patches
        → (patch : Patch) → IsIn patch patches → patch.table.level < top_level settings
        → IsIn patch.table tables }
{}

/// At least as many entries are written as the patches of a plan have.
pub fn entries_of_a_plan_are_written()
    ensures { (one other : Memory) (key : SpaceKey) (patches : List Patch) (frame first last : ℕ)
        (tables : List TableUse) →
        first ≤ last → last < 512 → frame % 4096 ≡ 0 → key.root % 4096 ≡ 0
        → AreAlikeBut (meets_slots frame first last) one other
        → AreAll (IsUse one key.settings key.root) tables
        → ArePlanned key.settings first last frame tables patches
        → AtLeast (entries_of patches)
        (IsWrittenEntry other key (frame + 8 * first) (8 * (last + 1 - first))) }
{}
