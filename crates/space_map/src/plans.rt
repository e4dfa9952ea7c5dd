//! What a write will change of a space.

ghost use Rattle.std.specs.Prelude.{◌≡◌, ◌≤◌, ◌<◌, ◌%◌};

use kept_laws::patches::Patch;

/// What is to be walked again of a space after a write to some slots of a frame.
#[derive(Debug, Drop)]
pub struct Plan {
    pub(crate) frame: u64,
    pub(crate) first_slot: u16,
    pub(crate) last_slot: u16,
    pub(crate) patches: Vec<Patch>,
    ghost aligned: { frame % 4096 ≡ 0 },
    ghost order: { first_slot ≤ last_slot },
    ghost few: { last_slot < 512 },
}
