//! The entries of one slot, by its values over time.

ghost use Rattle.std.specs.Prelude.{◌≡◌, ℕ, ◌≤◌, ◌↔◌, ◌⊎◌, true, IfOk, OnOk, List, Option, None};
ghost use Rattle.history_model.specs.CachedTranslations.{Held, held_of};
ghost use Rattle.paging_model.specs.Entries.{entry_of};
ghost use Rattle.past_entries.specs.Fills.{FitsLevel, held_of_fill};
ghost use Rattle.past_entries.specs.PastEntries.{AllFitLevel, WasMade};
ghost use Rattle.past_entries.specs.ValueSpans.{AreInOrder, SpansMake, ValueMakes};
ghost use Rattle.time_sets.specs.Sets.{has_time};
ghost use Rattle.version_store.specs.Spanning.{AreSpans};

use crate::entries::{PastEntry, add_part};
use crate::fills::{Fill, fill_of};
use paging_model::entries::Bits;
use paging_model::registers::Settings;
use std::alloc::{AllocError, Global};
use time_sets::Times;

/// The different entries that a slot made at some times: each entry once, with those of the times at which it was made.
///
/// `spans` are the slot's values, each with the first and the last time of a span at which the slot had it. `level` is
/// that of the slot's table, 5 to 1, `above` are the bits that were joined above it, and `pages_are_global` is CR4.PGE.
///
/// # Errors
/// If the allocator fails.
pub fn entries_of(
    alloc: Global,
    spans: &[(u32, u32, u64)],
    level: u8,
    settings: &Settings,
    pages_are_global: bool,
    above: Bits,
    at: &Times,
) -> Result<Vec<PastEntry>, AllocError>
    requires least { 1 ≤ level }
    requires most { level ≤ 5 }
    requires order { AreInOrder spans.now }
    ensures made { IfOk result (λ entries. (held : Held) (t : ℕ) → WasMade entries.items held t
        ↔ SpansMake (λ value. held_of pages_are_global above
        (entry_of level settings.now value)) at.now spans.now held t) }
    ensures fit { IfOk result (λ entries. AllFitLevel level entries.items) }
{
    let mut entries = Vec::new(alloc);
    for (first, last, value) in spans {
        if let Some(made) = fill_of(level, settings, pages_are_global, above, *value) {
            add_part(alloc, &mut entries, made, at, *first, *last)?;
        }
    }
    Ok(entries)
}

/// Spans that cover some times make what the values of these times make.
pub fn spans_of_values_make_what_the_values_make()
    ensures { (makes : ℕ → Option Held) (value : ℕ
        → ℕ) (at : List (ℕ × ℕ)) (from end : ℕ) (spans : List (ℕ × ℕ × ℕ)) (held : Held) (t : ℕ)
        → AreSpans value None from end spans → SpansMake makes at spans held t
        ↔ ValueMakes makes value at from end held t }
{}
