//! A space, its regions, and the tables that it uses.

ghost use Rattle.std.specs.Prelude.{◌≡◌, ◌%◌, ◌^◌, ◌<◌};
ghost use Rattle.space_map.specs.ServingTables.{AreServing};

use frame_index::Index;
use paging_model::spaces::SpaceKey;
use region_map::Regions;
use std::alloc::Global;

/// What a space maps, and the tables that it uses.
#[derive(Debug, Drop)]
pub struct Space {
    pub(crate) alloc: Global,
    pub(crate) key: SpaceKey,
    pub(crate) regions: Regions,
    pub(crate) index: Index,
    ghost aligned: { key.root % 4096 ≡ 0 },
    ghost below: { key.root < 2 ^ 52 },
    ghost serving: { AreServing key.settings index },
}
