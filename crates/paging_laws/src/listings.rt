//! The lists of what a space maps.

ghost use Rattle.std.specs.Prelude.{◌≡◌, ℕ, List};
ghost use Rattle.paging_model.specs.Listings.{AreAreas, AreRegions};
ghost use Rattle.paging_model.specs.Memory.{Memory};
ghost use Rattle.paging_model.specs.Translations.{Protection};
ghost use Rattle.paging_model.specs.declared.registers.Machine.{Machine};
ghost use Rattle.paging_model.specs.declared.registers.Regs.{Regs};
ghost use Rattle.paging_model.specs.declared.registers.Settings.{Settings};
ghost use Rattle.paging_model.specs.declared.spaces.Area.{Area};
ghost use Rattle.paging_model.specs.declared.spaces.Region.{Region};
ghost use Rattle.paging_laws.specs.Unions.{MapAsOne};

/// One list at most is that of the areas of a space.
pub fn space_has_one_list_of_areas()
    ensures { (memory : Memory) (machine : Machine) (regs : Regs) (one other : List Area) →
        AreAreas memory machine regs one → AreAreas memory machine regs other → one ≡ other }
{}

/// One list at most is that of the regions of a space.
pub fn space_has_one_list_of_regions()
    ensures { (memory : Memory) (settings : Settings) (root : ℕ) (one other : List Region) →
        AreRegions memory settings root one → AreRegions memory settings root other → one ≡ other }
{}

/// Two stretches that make one map each page as that one does.
pub fn stretches_that_make_one_map_as_one()
    ensures areas { MapAsOne ℕ }
    ensures regions { MapAsOne Protection }
{}
