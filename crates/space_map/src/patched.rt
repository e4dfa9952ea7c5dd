//! The walk of what a write may have changed of a space.

ghost use Rattle.std.specs.Prelude.{◌≡◌, ℕ, ◌+◌, ◌*◌, ◌%◌, ◌<◌, ◌≤◌, [], None, IfOk, IfErr, length};
ghost use Rattle.kept_laws.specs.Patches.{AreSeparate, entries_of, high_of, leaves_in_patch, leaves_in_patches, low_of, uses_in_patch, uses_in_patches};
ghost use Rattle.phys_view.specs.Seen.{memory_of};
ghost use Rattle.region_map.specs.Coalesced.{target_at};
ghost use Rattle.space_map.specs.PartialSpaces.{ExceedsLimits};
ghost use Rattle.space_map.specs.PatchWalks.{AreFresh, ArePatchesWalked, AreShaped, IsPatchWalked, IsShaped, patches_end, patches_start};
ghost use Rattle.space_map.specs.WalkedIndexes.{IsFresh};

use crate::faults::SpaceFault;
use crate::partial::PartialSpace;
use crate::ranges::{first_of, span};
use crate::walking::walk_slots;
use kept_laws::patches::Patch;
use paging_model::registers::Settings;
use phys_view::{Ledger, Steps, View};
use region_map::Regions;
use std::alloc::Global;

/// The first address of a patch.
pub(crate) fn patch_first(patch: &Patch) -> u64
    requires shape { IsShaped patch.now }
    ensures value { result ≡ low_of patch.now }
    ensures whole { result % 4096 ≡ 0 }
{
    first_of(patch.table.level, patch.table.prefix, patch.from)
}

/// The last address of a patch.
pub(crate) fn patch_last(patch: &Patch) -> u64
    requires shape { IsShaped patch.now }
    ensures value { result + 1 ≡ high_of patch.now }
    ensures after { low_of patch.now < result }
    ensures whole { result % 4096 ≡ 4095 }
{
    patch_first(patch) + (patch.count as u64 * span(patch.table.level) - 1)
}

/// Copies what other regions map from an address up to a patch, and maps all that the patch maps. It answers how many
/// entries of the patch map a page themselves.
pub(crate) fn walk_patch<L: Ledger>(
    view: &View<'_, L>,
    settings: &Settings,
    patch: &Patch,
    next: u64,
    regions: &Regions,
    space: &mut PartialSpace,
    steps: &mut Steps<L>,
) -> Result<u16, SpaceFault>
    requires shape { IsShaped patch.now }
    requires whole { next % 4096 ≡ 0 }
    requires before { next ≤ low_of patch.now }
    requires clear { (x : ℕ) → next ≤ x → target_at space.old.regions x ≡ None }
    requires fresh { IsFresh patch.now.table.level (low_of patch.now) (high_of patch.now)
        space.old.index }
    ensures walked { IfOk result (IsPatchWalked (memory_of view.now) settings.now patch.now next
        (target_at regions.now) space.old space.new) }
    ensures exceeds { IfErr result (λ fault. fault ≡ SpaceFault.TooLarge → ExceedsLimits
        (length (uses_in_patch (memory_of view.now) settings.now patch.now))
        (length (leaves_in_patch (memory_of view.now) settings.now patch.now)) space.old) }
    ensures cost { steps.new + 512 * space.old.uses
        ≤ steps.old + patch.now.count + 512 * space.new.uses }
    ensures few { space.new.uses ≤ space.old.uses
        + length (uses_in_patch (memory_of view.now) settings.now patch.now) }
{
    let first = patch_first(patch);
    if next < first && space.regions.copy(regions, next, first - 1).is_err() {
        return Err(SpaceFault::Memory);
    }
    let Patch { table, from, count } = *patch;
    walk_slots(view, settings, table, from, count, space, steps)
}

/// Maps all that patches map, and between them what other regions map, into a space with no regions yet. It answers how
/// many entries of each patch map a page themselves.
pub(crate) fn walk_patches<L: Ledger>(
    alloc: Global,
    view: &View<'_, L>,
    settings: &Settings,
    patches: &[Patch],
    regions: &Regions,
    space: &mut PartialSpace,
    steps: &mut Steps<L>,
) -> Result<Vec<u16>, SpaceFault>
    requires some { 1 ≤ length patches.now }
    requires shapes { AreShaped patches.now }
    requires ascending { AreSeparate patches.now }
    requires clear { space.old.regions ≡ [] }
    requires fresh { AreFresh patches.now space.old.index }
    ensures walked { IfOk result (λ pages. ArePatchesWalked (memory_of view.now) settings.now
        patches.now (patches_start patches.now)
        (patches_end (patches_start patches.now) patches.now) (target_at regions.now)
        space.old space.new pages.items) }
    ensures exceeds { IfErr result (λ fault. fault ≡ SpaceFault.TooLarge → ExceedsLimits
        (length (uses_in_patches (memory_of view.now) settings.now patches.now))
        (length (leaves_in_patches (memory_of view.now) settings.now patches.now)) space.old) }
    ensures cost { steps.new ≤ steps.old + entries_of patches.now
        + 512 * length (uses_in_patches (memory_of view.now) settings.now patches.now) }
{
    let mut pages = Vec::new(alloc);
    let mut next = patch_first(&patches[0]);
    for patch in patches {
        let own = walk_patch(view, settings, patch, next, regions, space, steps)?;
        let Ok(()) = pages.push(own) else {
            return Err(SpaceFault::Memory);
        };
        next = patch_last(patch).wrapping_add(1);
    }
    Ok(pages)
}
