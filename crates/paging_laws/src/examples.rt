//! Worked examples of what a walk down finds, each a theorem that computes.

ghost use Rattle.std.specs.Prelude.{◌≡◌, true};
ghost use Rattle.paging_model.specs.declared.registers.Settings.{Settings};
ghost use Rattle.paging_laws.specs.WorkedParts.{OfPageEntries, OfDirectories, OfHalves, OfSpaces};

/// Pages of 4 KBytes.
pub fn page_entries()
    ensures { OfPageEntries }
{}

/// Tables that are referenced once or twice, and large pages.
pub fn directories()
    ensures { OfDirectories }
{}

/// The two halves of a space.
pub fn halves()
    ensures { (settings : Settings) → settings.la57 ≡ true → OfHalves settings }
{}

/// All tables and pages of small spaces.
pub fn whole_spaces()
    ensures { OfSpaces }
{}
