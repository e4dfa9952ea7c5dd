//! The keys under which the slot of a record is filed.

ghost use Rattle.std.specs.Prelude.{◌≡◌, ℕ, None, Some, OnOk, OnErr};
ghost use Rattle.std.specs.BTreeMap.{get};
ghost use Rattle.frame_index.specs.Records.{PutsSlot, frame_cmp, frame_place_of as frame_place_of_use, place_cmp, place_of as place_of_use};

use crate::counted_use::CountedUse;
use std::alloc::AllocError;
use std::collections::BTreeMap;

/// A level, and a prefix.
pub(crate) type Place = (u8, u64);

/// A frame; 255 less the level, so that higher levels come first; and a prefix.
pub(crate) type FramePlace = (u64, (u8, u64));

/// The place of a use.
pub(crate) fn place_of(one: &CountedUse) -> Place
    ensures { result ≡ place_of_use one.now }
{
    (one.table.level, one.table.prefix)
}

/// The place of a use among those of all frames.
pub(crate) fn frame_place_of(one: &CountedUse) -> FramePlace
    ensures { result ≡ frame_place_of_use one.now }
{
    (
        one.table.frame,
        (u8::MAX - one.table.level, one.table.prefix),
    )
}

/// Files a slot under both keys of a use. Out of memory, under none.
pub(crate) fn file(
    places: &mut BTreeMap<Place, usize>,
    frames: &mut BTreeMap<FramePlace, usize>,
    one: &CountedUse,
    slot: usize,
) -> Result<(), AllocError>
    requires free { get place_cmp places.old (place_of_use one.now) ≡ None }
    ensures place { OnOk result
        (PutsSlot place_cmp places.old places.new (place_of_use one.now) (Some slot)) }
    ensures frame { OnOk result
        (PutsSlot frame_cmp frames.old frames.new (frame_place_of_use one.now) (Some slot)) }
    ensures err_place { OnErr result ((key : ℕ × ℕ) → get place_cmp places.new key
        ≡ get place_cmp places.old key) }
    ensures err_frame { OnErr result ((key : ℕ × (ℕ × ℕ)) → get frame_cmp frames.new key
        ≡ get frame_cmp frames.old key) }
{
    places.insert(place_of(one), slot)?;
    if frames.insert(frame_place_of(one), slot).is_err() {
        places.remove(&place_of(one));
        return Err(AllocError);
    }
    Ok(())
}
