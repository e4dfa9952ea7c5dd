//! The slots of a frame that have changed.

ghost use Rattle.std.specs.Prelude.{◌≡◌, ◌%◌, IfOk};
ghost use Rattle.version_store.specs.Changes.{changed_in};

use crate::change::{SLOT_LEN, SLOTS_PER_FRAME};
use crate::frame_changes::FrameChanges;
use std::alloc::{AllocError, Global};
use std::marker::Model;

/// Slots by their physical addresses, ascending.
#[derive(Debug, Drop)]
pub struct Slots {
    items: Vec<u64>,
}

impl Model for Slots {
    ghost use Rattle.std.specs.Prelude.{ℕ, List};

    ghost Value = { List ℕ };

    ghost view = { λ slots. slots.items.items };
}

impl Slots {
    /// Takes ownership of the slots.
    pub fn from_vec(items: Vec<u64>) -> Slots
        ensures { result ≡ items.items }
    {
        Slots { items }
    }

    /// Borrows the slots.
    pub fn as_slice(&self) -> &[u64]
        ensures { result.now ≡ self.now }
    {
        self.items.as_slice()
    }
}

/// The slots that have a change, of the frame at an address.
pub(crate) fn slots_in(
    alloc: Global,
    changes: &FrameChanges,
    frame: u64,
) -> Result<Slots, AllocError>
    requires { frame % 4096 ≡ 0 }
    ensures { IfOk result (λ slots. slots ≡ changed_in changes.now frame) }
{
    let changed = changes.changed_slots();
    let mut items = Vec::new(alloc);
    for i in 0..SLOTS_PER_FRAME {
        if changed[i] {
            items.push(frame + (SLOT_LEN * i) as u64)?;
        }
    }
    Ok(Slots::from_vec(items))
}
