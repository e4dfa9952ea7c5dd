//! Worked cases of translations that a processor may hold and use, and of stale ones.

ghost use Rattle.history_model.specs.WorkedTranslations.{OfHeldTables, OfLargePages, OfGlobals, OfNeighbors, OfExcess, OfFindings};

/// A translation through a table that memory references no more.
pub fn held_tables()
    ensures { OfHeldTables }
{}

/// A large page.
pub fn large_pages()
    ensures { OfLargePages }
{}

/// Global translations and others.
pub fn globals()
    ensures { OfGlobals }
{}

/// Pages beside one that is invalidated.
pub fn neighbors()
    ensures { OfNeighbors }
{}

/// What held translations grant beyond the present ones.
pub fn excess()
    ensures { OfExcess }
{}

/// What a point finds.
pub fn findings()
    ensures { OfFindings }
{}
