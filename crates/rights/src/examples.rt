//! Worked examples of how a log ends, each a theorem.

ghost use Rattle.rights.specs.WorkedOutcomes.{OfStatuses, OfLongLogs};

/// Logs with findings, and without.
pub fn statuses()
    ensures { OfStatuses }
{}

/// Logs over their limit.
pub fn long_logs()
    ensures { OfLongLogs }
{}
