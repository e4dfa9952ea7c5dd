//! What a write to slots of a frame will change of a space: those slots of each use of the frame, except where a walk
//! reads a written entry before it comes to the use.

ghost use Rattle.std.specs.Prelude.{◌≡◌, ◌+◌, ◌++◌, ◌∷◌, ◌%◌, ◌<◌, ◌≤◌, ◌↔◌, [], ℕ, IfOk, IsTrue, OnOk};
ghost use Rattle.std.specs.List.Sorted.{IsNonDecreasingBy, IsPermutation};
ghost use Rattle.frame_index.specs.CountedUses.{AreOrdered};
ghost use Rattle.paging_laws.specs.ServedAddresses.{IsServedBy};
ghost use Rattle.paging_model.specs.Counting.{IsIn};
ghost use Rattle.paging_model.specs.Walking.{top_level as top_level_of};
ghost use Rattle.paging_model.specs.declared.spaces.TableUse.{TableUse};
ghost use Rattle.plan_laws.specs.Plans.{IsCovered, IsPartOf, patch_at};
ghost use Rattle.space_map.specs.FramePatches.{ArePatchesOf, ArePushed, IsCoveredAt, IsPatchOf, start_key};
ghost use Rattle.space_map.specs.PatchWalks.{index_tables};
ghost use Rattle.space_map.specs.Plans.{IsPlanOf};
ghost use Rattle.space_map.specs.ServingTables.{IsServing};

use crate::building::{top_level, upper_prefix};
use crate::plans::Plan;
use crate::ranges::span;
use crate::space::Space;
use kept_laws::patches::Patch;
use paging_model::registers::Settings;
use paging_model::spaces::TableUse;
use std::alloc::AllocError;

impl Space {
    /// What a write to slots of a frame changes of the space. It is to be made before the write, or at any time while
    /// the space is as it was. The frame is a physical address, and a slot an 8-byte entry, 0 to 511.
    ///
    /// It takes a look-up for each use of the frame at each level above the use, up to the frame's highest. Where the
    /// space doesn't use the frame, it takes no memory.
    ///
    /// # Errors
    ///
    /// Out of memory.
    pub fn before_write(
        &self,
        frame: u64,
        first_slot: u16,
        last_slot: u16,
    ) -> Result<Plan, AllocError>
        requires aligned { frame % 4096 ≡ 0 }
        requires order { first_slot ≤ last_slot }
        requires few { last_slot < 512 }
        ensures { IfOk result (IsPlanOf self.now frame first_slot last_slot) }
    {
        let mut patches = self.frame_patches(frame, first_slot, last_slot)?;
        sort_patches(&mut patches);
        Ok(Plan {
            frame,
            first_slot,
            last_slot,
            patches,
        })
    }

    /// The patches of the uses of a frame.
    fn frame_patches(&self, frame: u64, first: u16, last: u16) -> Result<Vec<Patch>, AllocError>
        requires order { first ≤ last }
        requires few { last < 512 }
        ensures { IfOk result (λ patches. ArePatchesOf self.now.key.settings first last frame
            (index_tables self.now.index) (index_tables self.now.index) patches.items) }
    {
        let uses = self.index.of_frame(frame)?;
        let tables = uses.as_slice();
        let highest = highest_level(tables);
        let mut patches = Vec::new(self.alloc);
        for table in tables {
            self.push_patches(table, highest, first, last, &mut patches)?;
        }
        Ok(patches)
    }

    /// Pushes the patches of a use, of which there are none where it is covered by a higher one.
    fn push_patches(
        &self,
        table: &TableUse,
        highest: u8,
        first: u16,
        last: u16,
        patches: &mut Vec<Patch>,
    ) -> Result<(), AllocError>
        requires is_in { IsIn table.now (index_tables self.now.index) }
        requires highest { (one : TableUse) → IsIn one (index_tables self.now.index)
            → one.frame ≡ table.now.frame → one.level ≤ highest }
        requires most { highest ≤ top_level_of self.now.key.settings }
        requires order { first ≤ last }
        requires few { last < 512 }
        ensures { OnOk result (ArePushed (IsPatchOf self.now.key.settings first last table.now.frame
            (index_tables self.now.index) table.now) patches.old.items patches.new.items) }
    {
        if self.is_covered(table, highest, first, last) {
            return Ok(());
        }
        push_parts(&self.key.settings, table, first, last, patches)
    }

    /// Whether a walk reads one of the slots before it comes to a use of their frame, which is used at no level above
    /// the highest.
    fn is_covered(&self, table: &TableUse, highest: u8, first: u16, last: u16) -> bool
        requires is_in { IsIn table.now (index_tables self.now.index) }
        requires highest { (one : TableUse) → IsIn one (index_tables self.now.index)
            → one.frame ≡ table.now.frame → one.level ≤ highest }
        requires most { highest ≤ top_level_of self.now.key.settings }
        ensures { IsTrue result ↔ IsCovered self.now.key.settings first last table.now.frame
            (index_tables self.now.index) table.now }
    {
        for level in table.level + 1..highest + 1 {
            if self.is_covered_at(table, level, first, last) {
                return true;
            }
        }
        false
    }

    /// Whether it reads one of the slots at a level.
    fn is_covered_at(&self, table: &TableUse, level: u8, first: u16, last: u16) -> bool
        requires is_in { IsIn table.now (index_tables self.now.index) }
        requires higher { table.now.level < level }
        requires most { level ≤ top_level_of self.now.key.settings }
        ensures { IsTrue result ↔ IsCoveredAt self.now.key.settings first last table.now.frame
            (index_tables self.now.index) table.now level }
    {
        self.index.form();
        let prefix = serving_prefix(&self.key.settings, level, table.prefix);
        let Some(upper) = self.index.find(level, prefix) else {
            return false;
        };
        if upper.table.frame != table.frame {
            return false;
        }
        let slot = table.prefix / span(level) % 512;
        first as u64 <= slot && slot <= last as u64
    }
}

/// The prefix of the table of a level that serves an address.
fn serving_prefix(settings: &Settings, level: u8, address: u64) -> u64
    requires least { 1 ≤ level }
    requires most { level ≤ top_level_of settings.now }
    ensures { (table : TableUse) → table.level ≡ level → IsServing settings.now level table.prefix
        → (IsServedBy settings.now table address ↔ (table.prefix ≡ result)) }
{
    if level == top_level(settings) {
        return 0;
    }
    let served = span(level + 1);
    address / served * served
}

/// The highest level of uses.
fn highest_level(uses: &[TableUse]) -> u8
    requires { AreOrdered uses.now }
    ensures above { (table : TableUse) → IsIn table uses.now → table.level ≤ result }
    ensures least { (level : ℕ) → ((table : TableUse) → IsIn table uses.now → table.level ≤ level)
        → result ≤ level }
{
    if uses.is_empty() { 0 } else { uses[0].level }
}

/// Pushes the slots of a table: where it is the top one, those of each half of the canonical addresses.
fn push_parts(
    settings: &Settings,
    table: &TableUse,
    first: u16,
    last: u16,
    patches: &mut Vec<Patch>,
) -> Result<(), AllocError>
    requires most { table.now.level ≤ top_level_of settings.now }
    requires order { first ≤ last }
    requires few { last < 512 }
    ensures { OnOk result (ArePushed (IsPartOf settings.now first last table.now)
        patches.old.items patches.new.items) }
{
    let top = top_level(settings);
    if table.level < top {
        return push_slots(table, table.prefix, first, last, patches);
    }
    if last < UPPER_HALF {
        return push_slots(table, 0, first, last, patches);
    }
    if first >= UPPER_HALF {
        return push_slots(table, upper_prefix(top), first, last, patches);
    }
    push_slots(table, 0, first, UPPER_HALF - 1, patches)?;
    push_slots(table, upper_prefix(top), UPPER_HALF, last, patches)
}

/// The first entry of the top table that serves the upper half of the canonical addresses.
const UPPER_HALF: u16 = 256;

/// Pushes slots of a table whose entry 0 serves from a prefix on.
fn push_slots(
    table: &TableUse,
    prefix: u64,
    first: u16,
    last: u16,
    patches: &mut Vec<Patch>,
) -> Result<(), AllocError>
    requires order { first ≤ last }
    requires few { last < 512 }
    ensures { OnOk result (patches.new.items
        ≡ patches.old.items ++ patch_at table.now prefix first last ∷ []) }
{
    patches.push(Patch {
        table: TableUse { prefix, ..*table },
        from: first as usize,
        count: (last + 1 - first) as usize,
    })?;
    Ok(())
}

/// Sorts patches by where they begin, where they aren't sorted yet.
fn sort_patches(patches: &mut Vec<Patch>)
    ensures permutation { IsPermutation patches.old.items patches.new.items }
    ensures sorted { IsNonDecreasingBy start_key patches.new.items }
{
    if are_sorted(patches.as_slice()) {
        return;
    }
    patches.sort_unstable_by_key(|patch| patch_start(patch));
}

/// Whether each patch begins where the one before it does, or after.
fn are_sorted(patches: &[Patch]) -> bool
    ensures { IsTrue result → IsNonDecreasingBy start_key patches.now }
{
    let mut before = 0;
    for patch in patches {
        let start = patch_start(patch);
        if start < before {
            return false;
        }
        before = start;
    }
    true
}

/// Where a patch begins.
fn patch_start(patch: &Patch) -> u64
    ensures { result ≡ start_key patch.now }
{
    let level = patch.table.level;
    if level < 1 || level > 5 {
        return 0;
    }
    let offset = (patch.from as u64).wrapping_mul(span(level));
    patch.table.prefix.wrapping_add(offset)
}
