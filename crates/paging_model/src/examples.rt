//! Worked examples of the definitions, each a theorem that computes.

ghost use Rattle.paging_model.specs.WorkedSpaces.{OfTranslations, OfListings, OfUses, OfAreas, OfRegions, OfLimits};
ghost use Rattle.paging_model.specs.WorkedExamples.{OfMemory, OfAddresses, OfRegisters, OfChanges, OfEntries, OfWalks, OfRights, OfPointers};
ghost use Rattle.paging_model.specs.declared.registers.Machine.{Machine};
ghost use Rattle.paging_model.specs.declared.registers.Settings.{Settings};
ghost use Rattle.std.specs.Prelude.{◌≡◌, true, false};

/// Bytes of overlapping extents, and numbers of several bytes.
pub fn memory()
    ensures { OfMemory }
{}

/// Canonical addresses, the entries that an address selects, and pages.
pub fn addresses()
    ensures { OfAddresses }
{}

/// Register states that are accepted or refused.
pub fn registers()
    ensures { (machine : Machine) → machine.m ≡ 40 → OfRegisters machine }
{}

/// Changes of a register that are made or refused.
pub fn changes()
    ensures { (machine : Machine) → machine.m ≡ 40 → OfChanges machine }
{}

/// Entries of each level.
#[tactic(auto, unfolding(crate::specs::Entries::entry_of, crate::specs::Entries::is_reserved))]
pub fn entries()
    ensures { (settings : Settings) → settings.m ≡ 40 → settings.big ≡ true
        → settings.la57 ≡ false → settings.nxe ≡ true → OfEntries settings }
{}

/// Walks of small tables.
#[tactic(auto, unfolding(crate::specs::Entries::entry_of, crate::specs::Entries::is_reserved, crate::specs::Walking::walk, crate::specs::Walking::walk_from, crate::specs::Memory::entry_at))]
pub fn walks()
    ensures { (settings : Settings) → settings.m ≡ 40 → settings.big ≡ true
        → settings.la57 ≡ false → settings.nxe ≡ true → OfWalks settings }
{}

/// Accesses that are permitted or denied.
#[tactic(auto, unfolding(crate::specs::AccessRights::denial_of, crate::specs::AccessRights::is_granted))]
pub fn rights()
    ensures { OfRights }
{}

/// Pointers, masked or not.
#[tactic(auto, unfolding(crate::specs::Pointers::aim_of))]
pub fn pointers()
    ensures { OfPointers }
{}

/// Translations: frames with the numbers of the rights.
#[tactic(auto, unfolding(crate::specs::Entries::entry_of, crate::specs::Entries::is_reserved, crate::specs::Walking::walk, crate::specs::Walking::walk_from, crate::specs::Memory::entry_at, crate::specs::AccessRights::is_granted, crate::specs::Pointers::aim_of))]
pub fn translations()
    ensures { OfTranslations }
{}

/// Lists of areas that are as long as they can be, and such that aren't.
pub fn listings()
    ensures { OfListings }
{}

/// Tables and pages that a space uses.
pub fn uses()
    ensures { OfUses }
{}

/// The areas of a whole space.
pub fn areas()
    ensures { OfAreas }
{}

/// The regions of a whole space.
pub fn regions()
    ensures { OfRegions }
{}

/// All tables and pages of a space.
pub fn limits()
    ensures { OfLimits }
{}
