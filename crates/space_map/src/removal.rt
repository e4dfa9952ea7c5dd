//! The uses beneath patches are taken out of an index.

ghost use Rattle.space_map.specs.PatchWalks.{AreLeft, AreShaped, HaveLevels};

use crate::patched::{patch_first, patch_last};
use frame_index::Index;
use kept_laws::patches::Patch;

/// Removes the uses beneath patches from an index. Beneath entries of level 1 there are none.
pub(crate) fn remove_beneath(index: &mut Index, patches: &[Patch])
    requires shapes { AreShaped patches.now }
    requires levels { HaveLevels index.old }
    ensures { AreLeft patches.now index.old index.new }
{
    for patch in patches {
        if patch.table.level > 1 {
            index.remove_under(patch_first(patch), patch_last(patch), patch.table.level);
        }
    }
}
