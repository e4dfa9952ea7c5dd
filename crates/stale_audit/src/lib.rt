//! The first stale translation of a processor that the tables lead to, for what it may hold under one PCID.
//!
//! The audit goes down the tables from a root, by the times at which each was in use. At each
//! slot of a table there are the entries that the processor made then, by the slot's values over
//! time. An entry that maps a page is a translation: it counts where it is held now, and is stale
//! at the pages where it exceeds the present tables. An entry that references a table puts that
//! table in use for as long as it is held, whether or not it still stands in memory.
//!
//! Nothing is looked for under a table to which the present tables lead too, where since the
//! horizon no slot of it or of a table below has changed: whatever was made there is there now.
//! Of such a table that has changed, slots are passed by that haven't, if nothing below them has.
//! Where no change after the horizon is kept at all, that is known at once; else each table is
//! looked through once, and those of level 1 by their frames alone.
#![tactic(auto)]

mod descent;
mod firsts;
mod harmless_values;
mod leaves;
mod made_entries;
mod point;
mod ranges;
mod slot_values;
mod slots;
mod slots_to_audit;
mod steady_tables;
mod tables;
mod timed_tables;
mod tops;

pub use firsts::first_of_two;
pub use point::Point;
pub use tops::audit_roots;

#[cfg(test)]
mod tests;
