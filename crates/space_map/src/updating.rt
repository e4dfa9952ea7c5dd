//! A space is made true again after a write.

ghost use Rattle.std.specs.Prelude.{◌≡◌, ◌+◌, ◌*◌, ◌≤◌, length, OnOk, IfErr};
ghost use Rattle.kept_laws.specs.Patches.{entries_of, uses_in_patches};
ghost use Rattle.phys_view.specs.Seen.{memory_of};
ghost use Rattle.space_map.specs.Plans.{IsPlanned, UpdateTakes, WasTrue};
ghost use Rattle.space_map.specs.TrueBefore.{WasTrueBut};
ghost use Rattle.space_map.specs.TrueSpaces.{IsTooLargeAt, IsTrueOf};

use crate::faults::SpaceFault;
use crate::numbers::{pages_before, recount, without};
use crate::partial::PartialSpace;
use crate::patched::{patch_first, patch_last, walk_patches};
use crate::plans::Plan;
use crate::removal::remove_beneath;
use crate::space::Space;
use frame_index::Index;
use kept_laws::patches::Patch;
use phys_view::{Ledger, Steps, View};
use std::mem;

impl Space {
    /// Makes the space what it is after a write, by a plan of that write.
    ///
    /// Each table that is reached by a written entry is read once for each use of it, and each written entry once for
    /// each use of its table. The regions are gone over once at most.
    ///
    /// # Errors
    ///
    /// The space is too large now, or out of memory. It is of no use then.
    pub fn after_write<L: Ledger>(
        &mut self,
        view: &View<'_, L>,
        plan: Plan,
        steps: &mut Steps<L>,
    ) -> Result<(), SpaceFault>
        requires planned { IsPlanned self.old plan }
        requires was_true { WasTrue self.old plan (memory_of view.now) }
        ensures key { self.new.key ≡ self.old.key }
        ensures ok { OnOk result (IsTrueOf (memory_of view.now) self.new) }
        ensures too_large { IfErr result (IsTooLargeAt (memory_of view.now) self.old.key) }
        ensures cost { UpdateTakes (memory_of view.now) self.old.key plan steps.old steps.new }
    {
        if plan.patches.is_empty() {
            // It shows that the uses are distinct, and costs nothing.
            self.index.form();
            return Ok(());
        }
        self.update(view, &plan.patches, steps)
    }

    /// Walks patches again.
    fn update<L: Ledger>(
        &mut self,
        view: &View<'_, L>,
        patches: &[Patch],
        steps: &mut Steps<L>,
    ) -> Result<(), SpaceFault>
        requires some { 1 ≤ length patches.now }
        requires was_true { WasTrueBut self.old patches.now (memory_of view.now) }
        ensures key { self.new.key ≡ self.old.key }
        ensures ok { OnOk result (IsTrueOf (memory_of view.now) self.new) }
        ensures too_large { IfErr result (IsTooLargeAt (memory_of view.now) self.old.key) }
        ensures cost { steps.new ≤ steps.old + entries_of patches.now + 512 * length
            (uses_in_patches (memory_of view.now) self.old.key.settings patches.now) }
    {
        let Ok(before) = pages_before(self.alloc, &self.regions, &self.index, patches) else {
            return Err(SpaceFault::Memory);
        };
        let mut index = mem::replace(&mut self.index, Index::new(self.alloc));
        remove_beneath(&mut index, patches);
        // It shows that the uses are distinct, and costs nothing.
        index.form();
        let leaves = without(index.pages(), &before);
        let mut space = PartialSpace::rest(self.alloc, index, leaves);
        let settings = &self.key.settings;
        let after = walk_patches(
            self.alloc,
            view,
            settings,
            patches,
            &self.regions,
            &mut space,
            steps,
        )?;
        let first = patch_first(&patches[0]);
        let last = patch_last(&patches[patches.len() - 1]);
        let Ok(()) = self.regions.replace(first, last, &space.regions) else {
            return Err(SpaceFault::Memory);
        };
        let mut index = space.index;
        recount(&mut index, patches, &before, &after);
        // These show that the regions are coalesced and the uses distinct, and cost nothing.
        let _coalesced = self.regions.list();
        index.form();
        self.index = index;
        Ok(())
    }
}
