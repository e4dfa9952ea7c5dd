//! How many pages the entries of tables map before a write and after it.

ghost use Rattle.std.specs.Prelude.{◌≡◌, ℕ, ◌+◌, ◌++◌, ◌<◌, Bool, List, length};
ghost use Rattle.kept_laws.specs.PageNumbers.{page_number, page_numbers, pages_in_patch, pages_in_patches};
ghost use Rattle.kept_laws.specs.Patches.{ArePatches, AreUsesLeft, IsBeneathOne, leaves_in_patches, uses_in_patches};
ghost use Rattle.kept_laws.specs.WrittenPlaces.{AreAlikeBut};
ghost use Rattle.kept_laws.specs.declared.patches.Patch.{Patch};
ghost use Rattle.page_laws.specs.PatchEntries.{HaveOwnTables};
ghost use Rattle.paging_model.specs.Counting.{AreAll, Count, IsIn};
ghost use Rattle.paging_model.specs.Memory.{Memory};
ghost use Rattle.paging_model.specs.TableUses.{IsLeaf, IsUse};
ghost use Rattle.paging_model.specs.Walking.{top_level};
ghost use Rattle.paging_model.specs.declared.registers.Settings.{Settings};
ghost use Rattle.paging_model.specs.declared.spaces.TableUse.{TableUse};

/// The entries of a table map as many pages as before, where no patch is one of the table and none is above it.
pub fn tables_without_patches_map_as_many_pages()
    ensures { (written : ℕ → Bool) (one other : Memory) (settings : Settings) (root : ℕ)
        (patches : List Patch) (table : TableUse) →
        AreAlikeBut written one other → ArePatches one written settings root patches
        → IsUse one settings root table → (IsBeneathOne patches table → ⊥)
        → ((patch : Patch) → IsIn patch patches → patch.table.level ≡ table.level
        → patch.table.prefix ≡ table.prefix → ⊥)
        → table.level < top_level settings
        → page_number other settings table ≡ page_number one settings table }
{}

/// The entries of a table that don't belong to its patch map as many pages as before.
pub fn tables_with_a_patch_change_by_its_entries()
    ensures { (written : ℕ → Bool) (one other : Memory) (settings : Settings) (root : ℕ)
        (patches : List Patch) (patch : Patch) →
        AreAlikeBut written one other → ArePatches one written settings root patches
        → HaveOwnTables settings patches → IsIn patch patches
        → patch.table.level < top_level settings
        → page_number other settings patch.table + pages_in_patch one settings patch
        ≡ page_number one settings patch.table + pages_in_patch other settings patch }
{}

/// The tables that are left map as many pages as before, but for the entries of the patches.
pub fn tables_left_change_by_the_patches()
    ensures { (written : ℕ → Bool) (one other : Memory) (settings : Settings) (root : ℕ)
        (patches : List Patch) (all left : List TableUse) →
        AreAlikeBut written one other → ArePatches one written settings root patches
        → HaveOwnTables settings patches → AreAll (IsUse one settings root) all
        → AreUsesLeft patches all left
        → page_numbers other settings left + pages_in_patches one settings patches
        ≡ page_numbers one settings left + pages_in_patches other settings patches }
{}

/// A space has after a write the pages that the tables left mapped outside the patches, and those that are found from
/// the patches.
pub fn pages_after_a_write_are_those_left_and_those_found()
    ensures { (written : ℕ → Bool) (one other : Memory) (settings : Settings) (root : ℕ)
        (patches : List Patch) (all left : List TableUse) (n : ℕ) →
        AreAlikeBut written one other → ArePatches one written settings root patches
        → HaveOwnTables settings patches → AreAll (IsUse one settings root) all
        → AreUsesLeft patches all left
        → AreAll (IsUse other settings root) (left ++ uses_in_patches other settings patches)
        → n + pages_in_patches one settings patches ≡ page_numbers one settings left
        → Count (IsLeaf other settings root)
        (n + length (leaves_in_patches other settings patches)) }
{}
