//! Worked examples of the definitions, each a theorem that computes.

ghost use Rattle.history_model.specs.WorkedHistories.{OfInvalidations, OfMoments, OfHorizons, OfRefusalLimits, OfRefusals, OfAcceptedEvents, OfAsking};

/// What each event removes, and what it spares.
#[tactic(auto, unfolding(crate::specs::Invalidations::kills))]
pub fn invalidations()
    ensures { OfInvalidations }
{}

/// Memory, registers and PCIDs after events.
pub fn moments()
    ensures { OfMoments }
{}

/// The last times at which processors lost everything, and the writes since.
pub fn horizons()
    ensures { OfHorizons }
{}

/// The greatest numbers of processors and of written pages.
pub fn limits()
    ensures { OfRefusalLimits }
{}

/// Events that are refused, each with its reason.
pub fn refusals()
    ensures { OfRefusals }
{}

/// A history of accepted events.
pub fn accepted_events()
    ensures { OfAcceptedEvents }
{}

/// Accesses that are granted or denied.
#[tactic(auto, unfolding(paging_model::specs::Entries::entry_of, paging_model::specs::Entries::is_reserved, paging_model::specs::Walking::walk, paging_model::specs::Walking::walk_from, paging_model::specs::Memory::entry_at, paging_model::specs::AccessRights::denial_of, paging_model::specs::Pointers::aim_of))]
pub fn asking()
    ensures { OfAsking }
{}
