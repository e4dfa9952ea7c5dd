//! The descent from the roots.

ghost use Rattle.std.specs.Prelude.{◌≡◌, ◌+◌, ◌<◌, true, IfOk};
ghost use Rattle.audit_laws.specs.Firsts.{IsFirst};
ghost use Rattle.audit_laws.specs.Leads.{IsTimeOf};
ghost use Rattle.paging_model.specs.Entries.{IsFrame, root_bits};
ghost use Rattle.paging_model.specs.LinearAddress.{span};
ghost use Rattle.paging_model.specs.Walking.{top_level};
ghost use Rattle.stale_audit.specs.Facts.{AreTimely};
ghost use Rattle.stale_audit.specs.Findings.{IsFoundIn};
ghost use Rattle.stale_audit.specs.SlotEntries.{IsTimed, is_in_use};
ghost use Rattle.stale_audit.specs.SteadyTables.{AreKnownSteady, HadOneNxe};
ghost use Rattle.stale_audit.specs.Tops.{AreFrames, IsFoundFrom, IsFoundFromSome, top_first};
ghost use Rattle.time_sets.specs.Sets.{has_time};

use crate::descent::audit_slot;
use crate::firsts::first_of_two;
use crate::point::Point;
use crate::ranges::{ROOT_BITS, top_level as top_level_of, top_range};
use crate::slots_to_audit::{entries_to_look_at, next_slot_to_audit};
use crate::steady_tables::{ENTRIES, KnownTables};
use crate::timed_tables::timed_table;
use audit_laws::stale_pages::StalePage;
use phys_view::{Ledger, Steps};
use std::alloc::AllocError;
use std::collections::BTreeMap;
use time_sets::Times;

/// The first finding under some roots, each with the times at which it was in use.
///
/// # Errors
/// If the allocator fails.
pub fn audit_roots<L: Ledger>(
    point: &Point<'_, '_, L>,
    roots: &BTreeMap<u64, Times>,
    steps: &mut Steps<L>,
) -> Result<Option<StalePage>, AllocError>
    requires ready { AreTimely point.now }
    requires roots { AreFrames roots.now.entries }
    requires home { IsFrame point.now.home }
    ensures { IfOk result (IsFirst (IsFoundFromSome point.now
        (top_level point.now.settings) roots.now.entries)) }
{
    let mut known = BTreeMap::new(point.alloc);
    let mut first = None;
    for (root, in_use) in roots {
        let found = audit_top(point, *root, in_use, &mut known, steps)?;
        first = first_of_two(first, found);
    }
    Ok(first)
}

/// The first finding under a root that was in use at some times.
fn audit_top<L: Ledger>(
    point: &Point<'_, '_, L>,
    root: u64,
    in_use: &Times,
    known: &mut KnownTables,
    steps: &mut Steps<L>,
) -> Result<Option<StalePage>, AllocError>
    requires ready { AreTimely point.now }
    requires known { AreKnownSteady point.now known.old }
    requires root { IsFrame root }
    requires home { IsFrame point.now.home }
    ensures known { AreKnownSteady point.now known.new }
    ensures first { IfOk result (IsFirst (IsFoundFrom point.now (IsTimeOf (has_time in_use.now))
        (top_level point.now.settings) root)) }
{
    let present = root == point.home && point.had_one_nxe();
    let table = timed_table(point, root, ROOT_BITS, in_use, present)?;
    let level = top_level_of(&point.settings);
    let entries = entries_to_look_at(point, &table, level, steps);
    let mut i = next_slot_to_audit(point, &table, level, &entries, 0, known, steps)?;
    while i < ENTRIES {
        let slot = top_range(point, i as u64, steps);
        let found = audit_slot(point, &table, slot, known, steps)?;
        if found.is_some() {
            return Ok(found);
        }
        i = next_slot_to_audit(point, &table, level, &entries, i + 1, known, steps)?;
    }
    Ok(None)
}
