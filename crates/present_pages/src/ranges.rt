//! Ranges of addresses, and what the present tables make of them.

ghost use Rattle.std.specs.Prelude.{◌≡◌, ℕ, ◌+◌, ◌%◌, ◌^◌, ◌<◌, ◌≤◌};
ghost use Rattle.paging_model.specs.LinearAddress.{span};
ghost use Rattle.paging_model.specs.Translations.{raw_target_of};
ghost use Rattle.paging_model.specs.Walking.{walk_from};
ghost use Rattle.phys_view.specs.Seen.{memory_of};
ghost use Rattle.present_pages.specs.PresentRanges.{IsThere, maps};

use entry_decode::{decode, join};
use paging_model::entries::{Bits, Entry};
use paging_model::registers::Settings;
use phys_view::{Ledger, Steps, View};
use walk_levels::entry_address;

/// A page that the present tables map.
#[derive(Clone, Copy, Debug, PartialEq, Eq)]
pub struct PresentPage {
    /// The physical address to which it takes the first byte.
    pub frame: u64,
    /// The bits that were joined down to it.
    pub bits: Bits,
    /// Its protection key, below 16.
    pub key: u8,
}

/// What the present tables make of a range.
#[derive(Clone, Copy, Debug, PartialEq, Eq)]
pub enum There {
    /// No page of the range is mapped.
    Nothing,
    /// One page, as large or larger, maps the range; its frame is that of the range's first address.
    Page(PresentPage),
    /// A table of the level below serves the range.
    Table {
        /// The table's physical address.
        frame: u64,
        /// The bits that were joined down to the entry that references it.
        bits: Bits,
    },
}

/// The range of an entry, and what the present tables make of it.
#[derive(Clone, Copy, Debug, PartialEq, Eq)]
pub struct PresentRange {
    /// The entry's level, 5 to 1.
    pub level: u8,
    /// The first address of the range.
    pub first: u64,
    /// What the present tables make of it.
    pub there: There,
}

/// What the present tables make of the range that begins at `first`, by its entry in a table of a level. One step.
pub fn slot_there<L: Ledger>(
    view: &View<'_, L>,
    settings: &Settings,
    level: u8,
    table: u64,
    bits: Bits,
    first: u64,
    steps: &mut Steps<L>,
) -> There
    requires least { 1 ≤ level }
    requires most { level ≤ 5 }
    requires aligned { table % 4096 ≡ 0 }
    requires below { table < 2 ^ 52 }
    requires whole { first % span level ≡ 0 }
    ensures maps { (x : ℕ) → first ≤ x → x < first + span level → x % 4096 ≡ 0
        → maps (memory_of view.now) settings.now level first result x
        ≡ raw_target_of (walk_from (memory_of view.now) settings.now level x table bits) }
    ensures range { IsThere level result }
    ensures cost { steps.new ≡ steps.old + 1 }
{
    let Some(value) = view.entry(entry_address(level, table, first), steps) else {
        return There::Nothing;
    };
    match decode(level, settings, value) {
        Entry::Absent | Entry::Reserved => There::Nothing,
        Entry::Table { frame, bits: below } => There::Table {
            frame,
            bits: join(bits, below),
        },
        Entry::Leaf {
            frame,
            bits: below,
            key,
            ..
        } => There::Page(PresentPage {
            frame,
            bits: join(bits, below),
            key,
        }),
    }
}
