//! Entries with their times, each entry once.

ghost use Rattle.std.specs.Prelude.{◌≡◌, ℕ, ◌≤◌, ◌⊎◌, ◌↔◌, true, OnOk, IfSome};
ghost use Rattle.history_model.specs.CachedTranslations.{Held};
ghost use Rattle.past_entries.specs.Fills.{FitsLevel, held_of_fill};
ghost use Rattle.past_entries.specs.PastEntries.{AllFitLevel, IsEntryPlace, WasMade};
ghost use Rattle.time_sets.specs.Sets.{has_time};

use crate::fills::Fill;
use std::alloc::{AllocError, Global};
use time_sets::Times;

/// An entry, and the times at which it was made.
#[derive(Drop)]
pub struct PastEntry {
    /// What is held of it.
    pub fill: Fill,
    /// When it was made.
    pub times: Times,
}

/// Adds to an entry those of some times that lie from `first` to `last`. An entry that isn't there yet comes at the
/// end.
pub(crate) fn add_part(
    alloc: Global,
    entries: &mut Vec<PastEntry>,
    fill: Fill,
    at: &Times,
    first: u32,
    last: u32,
) -> Result<(), AllocError>
    requires { first ≤ last }
    ensures made { OnOk result ((held : Held) (t : ℕ) → WasMade entries.new.items held t
        ↔ (WasMade entries.old.items held t
        ⊎ ((held_of_fill fill ≡ held) × (first ≤ t) × (t ≤ last) × (has_time at.now t ≡ true)))) }
    ensures fit { OnOk result ((level : ℕ) → FitsLevel level fill
        → AllFitLevel level entries.old.items → AllFitLevel level entries.new.items) }
{
    if let Some(place) = place_of(entries.as_slice(), &fill) {
        return entries[place].times.add_part(at, first, last);
    }
    let mut times = Times::new(alloc);
    times.add_part(at, first, last)?;
    entries.push(PastEntry { fill, times })?;
    Ok(())
}

/// The place of an entry.
fn place_of(entries: &[PastEntry], fill: &Fill) -> Option<usize>
    ensures { IfSome result (λ place. IsEntryPlace entries.now place fill.now) }
{
    for place in 0..entries.len() {
        if entries[place].fill == *fill {
            return Some(place);
        }
    }
    None
}
