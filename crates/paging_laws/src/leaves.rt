//! The pages that a space maps.

ghost use Rattle.std.specs.Prelude.{◌≡◌, ℕ, ◌<◌, ◌^◌, IsTrue};
ghost use Rattle.paging_model.specs.LinearAddress.{is_canonical};
ghost use Rattle.paging_model.specs.Memory.{Memory};
ghost use Rattle.paging_model.specs.TableUses.{IsLeaf, Leaf};
ghost use Rattle.paging_model.specs.Walking.{walk};
ghost use Rattle.paging_model.specs.declared.registers.Settings.{Settings};
ghost use Rattle.paging_model.specs.declared.walks.Page.{Page};
ghost use Rattle.paging_model.specs.declared.walks.Walk.TheVariants.{Mapped};
ghost use Rattle.paging_laws.specs.LeafRanges.{AreInOneRange, IsMappedAlike, LeafFor};

/// A leaf maps every address of its range, each as far from the page as the addresses are apart.
pub fn leaf_maps_its_range()
    ensures { (memory : Memory) (settings : Settings) (root x y : ℕ) (page : Page) →
        walk memory settings root x ≡ Mapped page → AreInOneRange page.level x y
        → IsMappedAlike memory settings root x y page }
{}

/// Each mapped page of a canonical address has a leaf that serves the address.
pub fn each_mapped_page_has_a_leaf()
    ensures { (memory : Memory) (settings : Settings) (root x : ℕ) (page : Page) →
        x < 2 ^ 64 → IsTrue (is_canonical settings.la57 x)
        → walk memory settings root x ≡ Mapped page
        → LeafFor memory settings root page.level x }
{}

/// One leaf at most serves an address.
pub fn address_has_one_leaf()
    ensures { (memory : Memory) (settings : Settings) (root x : ℕ) (one other : Leaf) →
        IsLeaf memory settings root one → IsLeaf memory settings root other
        → AreInOneRange one.level x one.prefix → AreInOneRange other.level x other.prefix
        → one ≡ other }
{}
