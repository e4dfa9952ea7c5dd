//! Kept spaces, the one that was listed last first.

ghost use Rattle.std.specs.Prelude.{◌≡◌, ◌%◌, ◌^◌, ◌<◌, ◌≤◌, All, [], length, position, slice_get, IfErr, OnOk, OnErr, Some};
ghost use Rattle.history_model.specs.KeptSpaces.{same_key};
ghost use Rattle.phys_view.specs.Seen.{memory_of};
ghost use Rattle.space_map.specs.TrueSpaces.{BuildTakes, IsTooLargeAt, IsTrueOf};
ghost use Rattle.kept_spaces.specs.Keys.{has_key, keys_of};
ghost use Rattle.kept_spaces.specs.Listing.{IsListed, IsMovedFirst, IsPutFirst, ListTakes};
ghost use Rattle.kept_spaces.specs.Updating.{AreUpdated, UpdatesTake, WereTrue};

use crate::updating::update_all;
use paging_model::spaces::SpaceKey;
use phys_view::{Ledger, Steps, View};
use space_map::{Space, SpaceFault};
use std::alloc::{AllocError, Global};
use std::marker::Model;

/// How many spaces are kept at most.
const KEPT_LIMIT: usize = 16;

/// At most 16 spaces, the one that was listed last first.
#[derive(Debug, Drop)]
pub struct KeptSpaces {
    spaces: Vec<Space>,
}

impl Model for KeptSpaces {
    ghost use Rattle.std.specs.Prelude.{List};
    ghost use Rattle.space_map.specs.declared.space.Space.{Space};
    ghost use Rattle.kept_spaces.specs.Keys.{MayBeKept};

    ghost Value = { List Space };

    ghost view = { λ kept. kept.spaces.items };

    ghost invariant = { λ kept. MayBeKept kept.spaces.items };
}

impl KeptSpaces {
    /// No spaces. Takes no memory.
    pub fn new(alloc: Global) -> KeptSpaces
        ensures { result ≡ [] }
    {
        KeptSpaces {
            spaces: Vec::new(alloc),
        }
    }

    /// The space that was listed last.
    pub fn first(&self) -> &Space
        requires { 1 ≤ length self.now }
        ensures { slice_get self.now 0 ≡ Some result.now }
    {
        &self.spaces[0]
    }

    /// Lists the space of a key: it comes first, and of 17 the last one goes. One that isn't kept is built.
    ///
    /// # Errors
    ///
    /// `TooLarge` where the space isn't kept and is too large, `Memory` where memory ran out; then nothing is changed.
    pub fn list<L: Ledger>(
        &mut self,
        alloc: Global,
        view: &View<'_, L>,
        key: SpaceKey,
        steps: &mut Steps<L>,
    ) -> Result<(), SpaceFault>
        requires aligned { key.root % 4096 ≡ 0 }
        requires below { key.root < 2 ^ 52 }
        requires are_true { All (IsTrueOf (memory_of view.now)) self.old }
        ensures ok { OnOk result (IsListed (memory_of view.now) key self.old self.new) }
        ensures err { OnErr result (self.new ≡ self.old) }
        ensures too_large { IfErr result (IsTooLargeAt (memory_of view.now) key) }
        ensures cost { ListTakes (memory_of view.now) (keys_of self.old) key steps.old steps.new }
    {
        if let Some(index) = index_of(&self.spaces, &key) {
            move_first(&mut self.spaces, index);
            return Ok(());
        }
        let space = Space::build(alloc, view, key, steps)?;
        put_first(&mut self.spaces, space)
    }

    /// Updates the spaces after a write to some slots of a frame. Those that are too large now go.
    ///
    /// # Errors
    ///
    /// Out of memory, no space is kept any more.
    pub fn update<L: Ledger>(
        &mut self,
        view: &View<'_, L>,
        frame: u64,
        first_slot: u16,
        last_slot: u16,
        steps: &mut Steps<L>,
    ) -> Result<(), AllocError>
        requires aligned { frame % 4096 ≡ 0 }
        requires order { first_slot ≤ last_slot }
        requires few { last_slot < 512 }
        requires were_true { WereTrue self.old frame first_slot last_slot (memory_of view.now) }
        ensures ok { OnOk result (AreUpdated (memory_of view.now) self.old self.new) }
        ensures err { OnErr result (self.new ≡ []) }
        ensures cost { UpdatesTake (memory_of view.now) (keys_of self.old)
            frame first_slot last_slot steps.old steps.new }
    {
        let updated = update_all(&mut self.spaces, view, frame, first_slot, last_slot, steps);
        if updated.is_err() {
            self.spaces.clear();
        }
        updated
    }
}

/// Whether two keys are equal.
fn same(one: &SpaceKey, other: &SpaceKey) -> bool
    ensures { result ≡ same_key one.now other.now }
{
    one == other
}

/// The index of the first space of a key.
fn index_of(spaces: &[Space], key: &SpaceKey) -> Option<usize>
    ensures { result ≡ position (has_key key.now) spaces.now }
{
    spaces.iter().position(|space| same(space.key(), key))
}

/// Moves the space at an index to the front. Takes no memory, since its own place is free by then.
fn move_first(spaces: &mut Vec<Space>, index: usize)
    requires { index < length spaces.old.items }
    ensures { IsMovedFirst index spaces.old.items spaces.new.items }
{
    let space = spaces.remove(index);
    let _ = spaces.insert(0, space);
}

/// Puts a space at the front; of 17 spaces the last one goes.
///
/// # Errors
///
/// Out of memory (`Memory`), nothing is changed.
fn put_first(spaces: &mut Vec<Space>, space: Space) -> Result<(), SpaceFault>
    ensures ok { OnOk result (IsPutFirst space spaces.old.items spaces.new.items) }
    ensures err { OnErr result (spaces.new.items ≡ spaces.old.items) }
    ensures fault { IfErr result (λ fault. fault ≡ SpaceFault.Memory) }
{
    spaces.push(space).map_err(|_| SpaceFault::Memory)?;
    spaces.rotate_right(1);
    spaces.truncate(KEPT_LIMIT);
    Ok(())
}
