//! How many entries of tables map a page, before a write and after it.

ghost use Rattle.std.specs.Prelude.{◌≡◌, ℕ, ◌+◌, ◌-◌, ◌<◌, ◌≤◌, ◌^◌, ◌*◌, [], ◌∷◌, Bool, IfOk, length, map, slice_index, sum, if◌then◌else◌};
ghost use Rattle.frame_index.specs.CountedUses.{pages_counted};
ghost use Rattle.kept_laws.specs.PageNumbers.{pages_in_patch, pages_of_entry};
ghost use Rattle.kept_laws.specs.Patches.{ArePatches, IsPatch};
ghost use Rattle.kept_laws.specs.declared.patches.Patch.{Patch};
ghost use Rattle.page_laws.specs.PatchEntries.{IsMapOf};
ghost use Rattle.paging_laws.specs.SpaceParts.{slot_read};
ghost use Rattle.paging_model.specs.Counting.{AreAll};
ghost use Rattle.paging_model.specs.Memory.{Memory};
ghost use Rattle.paging_model.specs.TableUses.{IsUse};
ghost use Rattle.paging_model.specs.declared.registers.Settings.{Settings};
ghost use Rattle.paging_model.specs.declared.spaces.TableUse.{TableUse};
ghost use Rattle.region_map.specs.Coalesced.{target_at};
ghost use Rattle.space_map.specs.PatchWalks.{AreNumberChanges, AreFramed, AreNumbered, AreShaped, AreOfOwnUses, HaveSameTables, IsChange, IsChanged, IsShaped, index_tables};

use crate::ranges::first_of;
use frame_index::Index;
use kept_laws::patches::Patch;
use paging_model::spaces::TableUse;
use region_map::Regions;
use std::alloc::{AllocError, Global};

/// Whether an entry of a patch maps a page, by what a space has: its range is mapped, and no table below it is used.
fn maps_page(regions: &Regions, index: &Index, patch: &Patch, i: usize) -> bool
    requires shape { IsShaped patch.now }
    requires from { patch.now.from ≤ i }
    requires before { i < patch.now.from + patch.now.count }
    ensures { (written : ℕ → Bool) (memory : Memory) (settings : Settings) (root : ℕ) →
        IsPatch memory written settings root patch.now
        → IsMapOf memory settings root (target_at regions.now)
        → AreAll (IsUse memory settings root) (index_tables index.now)
        → pages_of_entry (slot_read memory settings patch.now.table.level patch.now.table.frame i)
        ≡ (if result then 1 else 0) }
{
    let level = patch.table.level;
    let first = first_of(level, patch.table.prefix, i);
    // Below a table of level 1 there are none.
    regions.find(first).is_some() && (level == 1 || index.find(level - 1, first).is_none())
}

/// How many entries of a patch map a page, by what a space has before a write.
fn patch_pages(regions: &Regions, index: &Index, patch: &Patch) -> u16
    requires shape { IsShaped patch.now }
    ensures { (written : ℕ → Bool) (memory : Memory) (settings : Settings) (root : ℕ) →
        IsPatch memory written settings root patch.now
        → IsMapOf memory settings root (target_at regions.now)
        → AreAll (IsUse memory settings root) (index_tables index.now)
        → result ≡ pages_in_patch memory settings patch.now }
{
    if patch.table.level >= 4 {
        return 0;
    }
    let mut pages = 0;
    for k in 0..patch.count {
        if maps_page(regions, index, patch, patch.from + k) {
            pages += 1;
        }
    }
    pages
}

/// How many entries of each patch map a page, by what a space has before a write.
pub(crate) fn pages_before(
    alloc: Global,
    regions: &Regions,
    index: &Index,
    patches: &[Patch],
) -> Result<Vec<u16>, AllocError>
    requires shapes { AreShaped patches.now }
    ensures { (written : ℕ → Bool) (memory : Memory) (settings : Settings) (root : ℕ) →
        ArePatches memory written settings root patches.now
        → IsMapOf memory settings root (target_at regions.now)
        → AreAll (IsUse memory settings root) (index_tables index.now)
        → IfOk result (λ pages. pages.items
        ≡ map (λ (patch : Patch). pages_in_patch memory settings patch) patches.now) }
{
    let mut pages = Vec::new(alloc);
    for patch in patches {
        pages.push(patch_pages(regions, index, patch))?;
    }
    Ok(pages)
}

/// What is left of a number of pages without those of patches, or 0.
pub(crate) fn without(all: u64, pages: &[u16]) -> u64
    ensures { result ≡ all - sum pages.now }
{
    let mut left = all;
    for &some in pages {
        left = left.saturating_sub(u64::from(some));
    }
    left
}

/// Changes the number of pages of the use of a patch: by what the patch's entries map now, in place of before.
fn recount_use(index: &mut Index, patch: &Patch, before: u16, after: u16)
    requires room { pages_counted index.old + 65535 < 2 ^ 64 }
    ensures most { pages_counted index.new ≤ pages_counted index.old + after }
    ensures tables { HaveSameTables index.old index.new }
    ensures changed { (was is : TableUse → ℕ) → AreFramed (patch.now ∷ []) index.old
        → IsChange was is patch.now before after
        → IsChanged was is patch.now index.old index.new }
{
    let TableUse { level, prefix, .. } = patch.table;
    if before == after {
        return;
    }
    let Some(found) = index.find(level, prefix) else {
        return;
    };
    // It shows that no other use is at this place, and costs nothing.
    index.form();
    let pages = found.pages.saturating_sub(before).saturating_add(after);
    index.recount(level, prefix, pages);
}

/// Changes the numbers of pages of the uses of patches: by what the patches' entries map now, in place of before.
pub(crate) fn recount(index: &mut Index, patches: &[Patch], before: &[u16], after: &[u16])
    requires few { length patches.now ≤ 2 ^ 52 }
    requires before { length before.now ≡ length patches.now }
    requires after { length after.now ≡ length patches.now }
    requires small { (i : ℕ) → slice_index after.now i ≤ 512 }
    requires room { pages_counted index.old < 2 ^ 40 }
    ensures tables { HaveSameTables index.old index.new }
    ensures numbered { (was is : TableUse → ℕ) → AreOfOwnUses patches.now
        → AreFramed patches.now index.old → AreNumberChanges was is patches.now before.now after.now
        → AreNumbered was is patches.now index.old → AreNumbered was is [] index.new }
{
    for i in 0..patches.len() {
        recount_use(index, &patches[i], before[i], after[i]);
    }
}
