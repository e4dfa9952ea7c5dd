//! The ranges of slots, and what the present tables make of them.

ghost use Rattle.std.specs.Prelude.{◌≡◌, ◌+◌, ◌-◌, ◌*◌, ◌%◌, ◌^◌, ◌<◌, ◌≤◌};
ghost use Rattle.paging_model.specs.Entries.{IsFrame};
ghost use Rattle.paging_model.specs.LinearAddress.{span as span_of};
ghost use Rattle.paging_model.specs.Walking.{top_level as top_level_of};
ghost use Rattle.present_pages.specs.PresentRanges.{IsPresentRange, IsThere};
ghost use Rattle.stale_audit.specs.Facts.{IsOfHome};
ghost use Rattle.stale_audit.specs.Tops.{top_first as top_first_of};

use crate::point::Point;
use paging_model::entries::Bits;
use paging_model::registers::Settings;
use phys_view::{Ledger, Steps};
use present_pages::{PresentPage, PresentRange, There, slot_there};
use walk_levels::span;

/// Above the top table nothing is refused.
pub(crate) const ROOT_BITS: Bits = Bits {
    write: true,
    user: true,
    xd: false,
};

/// The range of slot `i` of a table; `range` is that of the table, whose level is one less.
pub(crate) fn slot_range<L: Ledger>(
    point: &Point<'_, '_, L>,
    range: PresentRange,
    i: u64,
    steps: &mut Steps<L>,
) -> PresentRange
    requires range { IsPresentRange range }
    requires least { 2 ≤ range.level }
    requires most { range.level ≤ 5 }
    requires home { IsOfHome point.now range }
    requires slot { i < 512 }
    ensures level { result.level ≡ range.level - 1 }
    ensures first { result.first ≡ range.first + i * span_of (range.level - 1) }
    ensures range { IsPresentRange result }
    ensures home { IsOfHome point.now result }
{
    let level = range.level - 1;
    let first = range.first + i * span(level);
    let there = there_below(point, range, i, first, steps);
    PresentRange {
        level,
        first,
        there,
    }
}

/// What the present tables make of the range of slot `i`, which begins at `first`; `range` is that of the table.
fn there_below<L: Ledger>(
    point: &Point<'_, '_, L>,
    range: PresentRange,
    i: u64,
    first: u64,
    steps: &mut Steps<L>,
) -> There
    requires range { IsPresentRange range }
    requires least { 2 ≤ range.level }
    requires most { range.level ≤ 5 }
    requires home { IsOfHome point.now range }
    requires slot { i < 512 }
    requires first { first ≡ range.first + i * span_of (range.level - 1) }
    ensures there { IsThere (range.level - 1) result }
    ensures home { IsOfHome point.now
        (record { level = range.level - 1; first = first; there = result }) }
{
    match range.there {
        There::Nothing => There::Nothing,
        There::Page(page) => There::Page(PresentPage {
            frame: page.frame + (first - range.first),
            bits: page.bits,
            key: page.key,
        }),
        There::Table { frame, bits } => slot_there(
            point.view,
            &point.settings,
            range.level - 1,
            frame,
            bits,
            first,
            steps,
        ),
    }
}

/// The range of slot `i` of the top table.
pub(crate) fn top_range<L: Ledger>(
    point: &Point<'_, '_, L>,
    i: u64,
    steps: &mut Steps<L>,
) -> PresentRange
    requires home { IsFrame point.now.home }
    requires slot { i < 512 }
    ensures level { result.level ≡ top_level_of point.now.settings }
    ensures first { result.first ≡ top_first_of (top_level_of point.now.settings) i }
    ensures range { IsPresentRange result }
    ensures home { IsOfHome point.now result }
{
    let level = top_level(&point.settings);
    let first = top_first(level, i);
    let there = slot_there(
        point.view,
        &point.settings,
        level,
        point.home,
        ROOT_BITS,
        first,
        steps,
    );
    PresentRange {
        level,
        first,
        there,
    }
}

/// The level of the top table.
pub(crate) fn top_level(settings: &Settings) -> u8
    ensures value { result ≡ top_level_of settings.now }
    ensures least { 4 ≤ result }
    ensures most { result ≤ 5 }
{
    if settings.la57 { 5 } else { 4 }
}

/// The first address that a slot of the top table serves. Slots from 256 on serve the upper half.
fn top_first(level: u8, i: u64) -> u64
    requires least { 4 ≤ level }
    requires most { level ≤ 5 }
    requires slot { i < 512 }
    ensures value { result ≡ top_first_of level i }
    ensures whole { result % span_of level ≡ 0 }
    ensures below { result + span_of level ≤ 2 ^ 64 }
{
    if level == 4 {
        return if i < 256 {
            i << 39
        } else {
            (i << 39) + 0xFFFF_0000_0000_0000
        };
    }
    if i < 256 {
        i << 48
    } else {
        (i << 48) + 0xFE00_0000_0000_0000
    }
}
