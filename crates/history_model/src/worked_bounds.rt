//! Worked cases of processors for which nothing has changed, and of how many steps an event may take.

ghost use Rattle.history_model.specs.WorkedBounds.{OfBuilds, OfUpdates, OfAudits, OfSteps};
ghost use Rattle.history_model.specs.WorkedHorizons.{OfStillProcessors};

/// Processors for which nothing has changed since they lost everything, and others.
pub fn still_processors()
    ensures { OfStillProcessors }
{}

/// A space that is built.
pub fn builds()
    ensures { OfBuilds }
{}

/// A kept space that is updated after a write.
pub fn updates()
    ensures { OfUpdates }
{}

/// A processor that is audited.
pub fn audits()
    ensures { OfAudits }
{}

/// An event of each kind.
pub fn steps()
    ensures { OfSteps }
{}
