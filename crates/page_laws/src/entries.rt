//! How many entries map a page, and how many pages are found.

ghost use Rattle.std.specs.Prelude.{◌≡◌, ℕ, ◌+◌, ◌≤◌, List, length};
ghost use Rattle.kept_laws.specs.PageNumbers.{page_numbers, pages_in};
ghost use Rattle.paging_laws.specs.SpaceParts.{leaves_in, uses_in};
ghost use Rattle.paging_model.specs.Counting.{AreAll, Count};
ghost use Rattle.paging_model.specs.Memory.{Memory};
ghost use Rattle.paging_model.specs.TableUses.{IsLeaf, IsUse};
ghost use Rattle.paging_model.specs.declared.entries.Bits.{Bits};
ghost use Rattle.paging_model.specs.declared.registers.Settings.{Settings};
ghost use Rattle.paging_model.specs.declared.spaces.TableUse.{TableUse};

/// The pages that are found at entries are those of the entries and those of the tables below them.
pub fn pages_found_are_those_of_the_entries()
    ensures { (memory : Memory) (settings : Settings) (level table prefix : ℕ) (above : Bits)
        (from count : ℕ) → length (leaves_in memory settings level table prefix above from count)
        ≡ pages_in memory settings level table from count
        + page_numbers memory settings
        (uses_in memory settings level table prefix above from count) }
{}

/// No entry of level 4 or 5 maps a page.
pub fn high_entries_map_no_pages()
    ensures { (memory : Memory) (settings : Settings) (level table from count : ℕ) →
        4 ≤ level → pages_in memory settings level table from count ≡ 0 }
{}

/// A space has as many pages as the entries of all its tables map, as each use has them.
pub fn pages_of_a_space_are_those_of_its_tables()
    ensures { (memory : Memory) (settings : Settings) (root : ℕ) (uses : List TableUse) →
        AreAll (IsUse memory settings root) uses
        → Count (IsLeaf memory settings root) (page_numbers memory settings uses) }
{}
