//! A space whose patches are walked again is the space after the write.

ghost use Rattle.std.specs.Prelude.{◌≡◌, ℕ, ◌%◌, ◌++◌, Bool, IsTrue, List, Option, None};
ghost use Rattle.history_model.specs.KeptSpaces.{IsTouched};
ghost use Rattle.kept_laws.specs.Patches.{AreSeparate, ArePatches, AreUsesLeft, IsBeneath, IsPatchedMap, uses_in_patch, uses_in_patches};
ghost use Rattle.kept_laws.specs.WrittenPlaces.{AreAlikeBut, meets};
ghost use Rattle.kept_laws.specs.declared.patches.Patch.{Patch};
ghost use Rattle.paging_model.specs.Counting.{AreAll, IsIn};
ghost use Rattle.paging_model.specs.LinearAddress.{IsPage, is_canonical};
ghost use Rattle.paging_model.specs.Memory.{Memory};
ghost use Rattle.paging_model.specs.TableUses.{IsUse};
ghost use Rattle.paging_model.specs.Translations.{Target, Protection, raw_target};
ghost use Rattle.paging_model.specs.declared.registers.Settings.{Settings};
ghost use Rattle.paging_model.specs.declared.spaces.SpaceKey.{SpaceKey};
ghost use Rattle.paging_model.specs.declared.spaces.TableUse.{TableUse};

/// The patches of a space before a write are its patches after it.
pub fn patches_stay()
    ensures { (written : ℕ → Bool) (one other : Memory) (settings : Settings) (root : ℕ)
        (patches : List Patch) →
        AreAlikeBut written one other → ArePatches one written settings root patches
        → ArePatches other written settings root patches }
{}

/// A map of the space before a write, walked again in the patches, maps each page as the walks
/// after the write do, and canonical addresses alone.
pub fn map_walked_again_is_the_map_after()
    ensures pages { (written : ℕ → Bool) (one other : Memory) (settings : Settings) (root : ℕ)
        (patches : List Patch) (old new : ℕ → Option (Target Protection)) →
        AreAlikeBut written one other → ArePatches one written settings root patches
        → IsPatchedMap other settings patches old new
        → ((page : ℕ) → IsPage settings.la57 page → old page ≡ raw_target one settings root page)
        → (page : ℕ) → IsPage settings.la57 page → new page ≡ raw_target other settings root page }
    ensures canonical { (written : ℕ → Bool) (one other : Memory) (settings : Settings) (root : ℕ)
        (patches : List Patch) (old new : ℕ → Option (Target Protection)) →
        ArePatches one written settings root patches
        → IsPatchedMap other settings patches old new
        → ((x : ℕ) → (old x ≡ None → ⊥) → IsTrue (is_canonical settings.la57 x))
        → (x : ℕ) → (new x ≡ None → ⊥) → IsTrue (is_canonical settings.la57 x) }
{}

/// The uses that are left, and those found from the patches after the write, are all uses after
/// it, each once.
pub fn uses_left_and_found_are_all()
    ensures { (written : ℕ → Bool) (one other : Memory) (settings : Settings) (root : ℕ)
        (patches : List Patch) (all left : List TableUse) →
        AreAlikeBut written one other → ArePatches one written settings root patches
        → AreAll (IsUse one settings root) all → AreUsesLeft patches all left
        → AreAll (IsUse other settings root) (left ++ uses_in_patches other settings patches) }
{}

/// The uses found from the patches after a write are exactly those that the write touches, each
/// once.
pub fn uses_found_are_the_touched_ones()
    ensures { (at n : ℕ) (one other : Memory) (key : SpaceKey) (patches : List Patch) →
        AreAlikeBut (meets at n) one other
        → ArePatches one (meets at n) key.settings key.root patches → key.root % 8 ≡ 0
        → AreAll (IsTouched other key at n) (uses_in_patches other key.settings patches) }
{}

/// A use that is found from a patch is beneath it, whatever memory holds, and beneath no other
/// patch.
pub fn uses_found_are_beneath_their_patch()
    ensures beneath { (memory : Memory) (settings : Settings) (patch : Patch) (table : TableUse) →
        IsIn table (uses_in_patch memory settings patch) → IsBeneath patch table }
    ensures one { (patches : List Patch) (first second : Patch) (table : TableUse) →
        AreSeparate patches → IsIn first patches → IsIn second patches
        → IsBeneath first table → IsBeneath second table → first ≡ second }
{}
