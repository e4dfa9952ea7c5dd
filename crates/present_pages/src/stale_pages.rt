//! Where a held page exceeds the present tables.

ghost use Rattle.std.specs.Prelude.{◌≡◌, ◌+◌, ◌%◌, ◌^◌, ◌<◌, ◌≤◌, IfSome, option_map};
ghost use Rattle.paging_model.specs.LinearAddress.{span as span_of};
ghost use Rattle.audit_laws.specs.Firsts.{IsFirst};
ghost use Rattle.phys_view.specs.Seen.{memory_of};
ghost use Rattle.present_pages.specs.PresentRanges.{IsPresentRange, mapping_of, maps};
ghost use Rattle.present_pages.specs.StalePages.{IsExcessAt, IsHeldPage, IsPageIn, IsStaleIn};

use crate::granting::{difference, rights_at};
use crate::ranges::{PresentPage, PresentRange, There, slot_there};
use audit_laws::stale_pages::StalePage;
use paging_model::access_sets::Rights;
use paging_model::entries::Bits;
use paging_model::registers::{Regs, Settings};
use phys_view::{Ledger, Steps, View};
use walk_levels::span;

/// The number of entries of a table.
const ENTRIES: u64 = 512;

/// A page that is held by an entry of a level.
#[derive(Clone, Copy, Debug, PartialEq, Eq)]
pub struct HeldPage {
    /// The entry's level, 3 to 1.
    pub level: u8,
    /// The physical address to which it takes the first address that the entry serves.
    pub frame: u64,
    /// The bits that were joined down to it.
    pub bits: Bits,
    /// Its protection key, below 16.
    pub key: u8,
}

/// Whether a held page exceeds, at one address, the page that is mapped there now, if one is.
///
/// Where none is or where its frame is another, all that the held page grants is the excess. Else the excess is what
/// the present page doesn't grant, and there is none where it grants all.
pub fn excess_at(
    regs: &Regs,
    held: &HeldPage,
    present: Option<PresentPage>,
    page: u64,
) -> Option<StalePage>
    requires held { IsHeldPage held.now }
    requires key { IfSome present (λ present. present.key < 16) }
    ensures { IsExcessAt regs.now held.now (option_map mapping_of present) page result }
{
    let frame = held.frame + page % span(held.level);
    let own = rights_at(regs, held.bits, held.key, page);
    let excess = match present {
        Some(present) if present.frame == frame => {
            let more = difference(own, rights_at(regs, present.bits, present.key, page));
            if more == Rights::none() {
                return None;
            }
            more
        }
        _ => own,
    };
    Some(StalePage {
        page,
        frame,
        excess,
    })
}

/// The first page of a range, from a page of it on, at which a held page exceeds the present tables.
///
/// The range lies in that of the held page's entry. Tables are read as far as the first such page: a step for each
/// entry, and none below a present page.
pub fn first_stale<L: Ledger>(
    view: &View<'_, L>,
    regs: &Regs,
    settings: &Settings,
    held: &HeldPage,
    range: PresentRange,
    from: u64,
    steps: &mut Steps<L>,
) -> Option<StalePage>
    requires held { IsHeldPage held.now }
    requires range { IsPresentRange range }
    requires within { range.level ≤ held.now.level }
    requires from { IsPageIn range.first (range.first + span_of range.level) from }
    ensures { IsFirst (IsStaleIn regs.now held.now
        (maps (memory_of view.now) settings.now range.level range.first range.there)
        from (range.first + span_of range.level)) result }
{
    match range.there {
        There::Nothing => excess_at(regs, held, None, from),
        There::Page(page) => {
            let frame = page.frame + (from - range.first);
            excess_at(regs, held, Some(PresentPage { frame, ..page }), from)
        }
        There::Table { frame, bits } => {
            let level = range.level - 1;
            let step = span(level);
            for i in (from - range.first) / step..ENTRIES {
                let first = range.first + i * step;
                let there = slot_there(view, settings, level, frame, bits, first, steps);
                let slot = PresentRange {
                    level,
                    first,
                    there,
                };
                let found = first_stale(view, regs, settings, held, slot, from.max(first), steps);
                if found.is_some() {
                    return found;
                }
            }
            None
        }
    }
}
