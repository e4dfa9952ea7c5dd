//! The update of kept spaces after a write.

ghost use Rattle.std.specs.Prelude.{◌≡◌, ◌%◌, ◌<◌, ◌≤◌, [], ◌∷◌, IfErr, OnOk};
ghost use Rattle.phys_view.specs.Seen.{memory_of};
ghost use Rattle.space_map.specs.TrueSpaces.{IsTooLargeAt};
ghost use Rattle.kept_spaces.specs.Keys.{keys_of};
ghost use Rattle.kept_spaces.specs.Updating.{AreUpdated, IsUpdated, UpdatesTake, WereTrue};

use phys_view::{Ledger, Steps, View};
use space_map::{Space, SpaceFault};
use std::alloc::AllocError;

/// Updates spaces after a write to some slots of a frame, the last one first. Those that are too large now go.
///
/// # Errors
///
/// Out of memory, some of the spaces are updated.
pub(crate) fn update_all<L: Ledger>(
    spaces: &mut Vec<Space>,
    view: &View<'_, L>,
    frame: u64,
    first_slot: u16,
    last_slot: u16,
    steps: &mut Steps<L>,
) -> Result<(), AllocError>
    requires aligned { frame % 4096 ≡ 0 }
    requires order { first_slot ≤ last_slot }
    requires few { last_slot < 512 }
    requires were_true { WereTrue spaces.old.items frame first_slot last_slot (memory_of view.now) }
    ensures ok { OnOk result (AreUpdated (memory_of view.now) spaces.old.items spaces.new.items) }
    ensures cost { UpdatesTake (memory_of view.now) (keys_of spaces.old.items)
        frame first_slot last_slot steps.old steps.new }
{
    let mut left = spaces.len();
    while left > 0 {
        left -= 1;
        match update_one(&mut spaces[left], view, frame, first_slot, last_slot, steps) {
            Ok(()) => {}
            Err(SpaceFault::TooLarge) => {
                spaces.remove(left);
            }
            Err(SpaceFault::Memory) => return Err(AllocError),
        }
    }
    Ok(())
}

/// Updates a space. What is planned depends on the space alone and not on memory, so the write may come before it.
///
/// # Errors
///
/// It is too large now, or memory ran out; in both cases it can't be used any more.
fn update_one<L: Ledger>(
    space: &mut Space,
    view: &View<'_, L>,
    frame: u64,
    first_slot: u16,
    last_slot: u16,
    steps: &mut Steps<L>,
) -> Result<(), SpaceFault>
    requires aligned { frame % 4096 ≡ 0 }
    requires order { first_slot ≤ last_slot }
    requires few { last_slot < 512 }
    requires was_true { WereTrue (space.old ∷ []) frame first_slot last_slot (memory_of view.now) }
    ensures ok { OnOk result (IsUpdated (memory_of view.now) space.old space.new) }
    ensures too_large { IfErr result (IsTooLargeAt (memory_of view.now) space.old.key) }
    ensures cost { UpdatesTake (memory_of view.now) (space.old.key ∷ []) frame first_slot last_slot
        steps.old steps.new }
{
    let Ok(plan) = space.before_write(frame, first_slot, last_slot) else {
        return Err(SpaceFault::Memory);
    };
    space.after_write(view, plan, steps)
}
