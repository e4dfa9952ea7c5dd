//! What holds after a core and a list of accepted events, as types and definitions.
//!
//! The moments that events lead through (`History`); why an event is refused in a moment (`Refusals`), and what the
//! answer to it is (`Answering`); what a processor may hold and use of the paging structures (`CachedTranslations`),
//! what an event removes of that (`Invalidations`), and what of it is stale (`StaleTranslations`); how many steps an
//! event may take (`Bounds`). The definitions stand in `specs/`, one subject a file.
#![tactic(auto)]

pub mod answers;
pub mod caches;
pub mod events;
pub mod examples;
pub mod faults;
pub mod worked_bounds;
pub mod worked_findings;
pub mod worked_kept_spaces;
pub mod worked_translations;
