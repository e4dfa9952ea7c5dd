//! Worked cases of what points find, and of the answers to lists and points.

ghost use Rattle.history_model.specs.WorkedFindings.{OfAnswers, OfInvlpg, OfLastRoots, OfNoRights, OfOrder, OfPoints, OfScopes};

/// The PCIDs under which a point looks.
pub fn scopes()
    ensures { OfScopes }
{}

/// The order of stale translations of one page.
pub fn order()
    ensures { OfOrder }
{}

/// A translation that grants nothing.
pub fn no_rights()
    ensures { OfNoRights }
{}

/// PCIDs that were left, with other roots than the present one.
pub fn last_roots()
    ensures { OfLastRoots }
{}

/// A page that was unmapped and invalidated.
pub fn invlpg()
    ensures { OfInvlpg }
{}

/// The answer to a list, of a small space and of one that is too large.
pub fn answers()
    ensures { OfAnswers }
{}

/// The answers to both kinds of points.
pub fn points()
    ensures { OfPoints }
{}
