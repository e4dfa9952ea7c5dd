//! The walk.

ghost use Rattle.std.specs.Prelude.{◌≡◌, ◌+◌, ◌%◌, ◌^◌, ◌<◌, ◌≤◌};
ghost use Rattle.paging_model.specs.Walking.{top_level as top_level_of, walk as walk_of};
ghost use Rattle.phys_view.specs.Seen.{memory_of};
ghost use Rattle.walk_levels.specs.WalkEnds.{HasPage, last_level};

use crate::linear_addresses::{entry_address, own_frame};
use entry_decode::{decode, join};
use paging_model::entries::{Bits, Entry};
use paging_model::registers::Settings;
use paging_model::walks::{Page, Walk};
use phys_view::{Ledger, Steps, View};

/// Walks from the root down to the page of an address. One entry a level is read, at most five in all.
pub fn walk<L: Ledger>(
    view: &View<'_, L>,
    settings: &Settings,
    root: u64,
    address: u64,
    steps: &mut Steps<L>,
) -> Walk
    requires aligned { root % 4096 ≡ 0 }
    requires below { root < 2 ^ 52 }
    ensures value { result ≡ walk_of (memory_of view.now) settings.now root address }
    ensures page { HasPage result }

    // One step a level, from the top level down to the one at which the walk ends.
    ensures least { 1 ≤ last_level result }
    ensures most { last_level result ≤ top_level_of settings.now }
    ensures steps { steps.new + last_level result ≡ steps.old + top_level_of settings.now + 1 }
    ensures cost { steps.new ≤ steps.old + 5 }
{
    let mut level = top_level(settings);
    let mut table = root;
    let mut bits = ROOT_BITS;
    loop {
        let Some(value) = view.entry(entry_address(level, table, address), steps) else {
            return Walk::Unknown(level);
        };
        match decode(level, settings, value) {
            Entry::Absent => return Walk::Absent(level),
            Entry::Reserved => return Walk::Reserved(level),
            Entry::Table { frame, bits: below } => {
                table = frame;
                bits = join(bits, below);
                level -= 1;
            }
            Entry::Leaf {
                frame,
                bits: below,
                key,
                global,
            } => {
                return Walk::Mapped(Page {
                    frame: own_frame(level, frame, address),
                    level,
                    bits: join(bits, below),
                    key,
                    global,
                });
            }
        }
    }
}

/// Above the top table nothing is refused.
const ROOT_BITS: Bits = Bits {
    write: true,
    user: true,
    xd: false,
};

/// The level of the root's table.
fn top_level(settings: &Settings) -> u8
    ensures value { result ≡ top_level_of settings.now }
    ensures least { 4 ≤ result }
    ensures most { result ≤ 5 }
{
    if settings.la57 { 5 } else { 4 }
}
