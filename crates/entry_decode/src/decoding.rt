//! Entries, and the joining of their bits.

ghost use Rattle.std.specs.Prelude.{◌≡◌, ◌+◌, ◌%◌, ◌^◌, ◌≤◌};
ghost use Rattle.paging_model.specs.Entries.{IsFrame, HasFrame, entry_of, is_reserved as is_reserved_by, joined_bits, page_frame as page_frame_of, page_size_is_reserved as page_size_reserved_by, some_low_frame_bit as low_frame_bit_of};
ghost use Rattle.paging_model.specs.LinearAddress.{span};
ghost use Rattle.entry_decode.specs.Levels.{IsOfLevel};

use crate::entry_bits::{
    EXECUTE_DISABLE, FRAME_HIGH, FRAME_LOW, FRAME_LOW_1_GBYTE, FRAME_LOW_2_MBYTES, GLOBAL,
    KEY_HIGH, KEY_LOW, PAGE_SIZE, PRESENT, USER, WRITE,
};
use paging_model::entries::{Bits, Entry};
use paging_model::registers::Settings;
use proc_regs::bit_ranges::{bit, field, in_place, some_bit};

/// The meaning of an entry of a level, 5 to 1.
///
/// Where P is 0, no other bit counts. Bits 3 to 6, 9 to 11 and 58:52 never do, nor does PAT (bit 7 at level 1, bit 12
/// of a large page). G and the protection key are those of a page alone.
///
/// It is part of each walk's loop, where most entries are absent.
#[inline(always)]
#[tactic(auto, unfolding(paging_model::specs::Entries::entry_of))]
pub fn decode(level: u8, settings: &Settings, value: u64) -> Entry
    requires least { 1 ≤ level }
    requires most { level ≤ 5 }
    ensures value { result ≡ entry_of level settings.now value }
    ensures frame { HasFrame result }
    ensures level { IsOfLevel level result }
{
    if !bit(value, PRESENT) {
        return Entry::Absent;
    }
    if is_reserved(level, settings, value) {
        return Entry::Reserved;
    }
    let bits = Bits {
        write: bit(value, WRITE),
        user: bit(value, USER),
        xd: bit(value, EXECUTE_DISABLE),
    };
    if level == 1 || ((level == 2 || level == 3) && bit(value, PAGE_SIZE)) {
        Entry::Leaf {
            frame: page_frame(level, value),
            bits,
            key: field(value, KEY_HIGH, KEY_LOW) as u8,
            global: bit(value, GLOBAL),
        }
    } else {
        Entry::Table {
            frame: in_place(value, FRAME_HIGH, FRAME_LOW),
            bits,
        }
    }
}

/// The bits of an entry under those that were joined above it: `write` and `user` where both have them, `xd` where one
/// has it.
pub fn join(above: Bits, below: Bits) -> Bits
    ensures { result ≡ joined_bits above below }
{
    // Without branches: this is done for each entry of a walk.
    Bits {
        write: above.write & below.write,
        user: above.user & below.user,
        xd: above.xd | below.xd,
    }
}

/// Whether a reserved bit of a present entry is 1.
#[tactic(auto, unfolding(paging_model::specs::Entries::is_reserved))]
fn is_reserved(level: u8, settings: &Settings, value: u64) -> bool
    ensures { result ≡ is_reserved_by level settings.now value }
{
    some_bit(value, FRAME_HIGH, settings.m)
        || (!settings.nxe && bit(value, EXECUTE_DISABLE))
        || (bit(value, PAGE_SIZE)
            && (page_size_is_reserved(level, settings) || some_low_frame_bit(level, value)))
}

/// Whether no entry of the level maps a large page.
fn page_size_is_reserved(level: u8, settings: &Settings) -> bool
    ensures { result ≡ page_size_reserved_by level settings.now }
{
    level == 5 || level == 4 || (level == 3 && !settings.big)
}

/// Whether a frame bit below the size of a large page is 1. Bit 12 of a large page is PAT.
fn some_low_frame_bit(level: u8, value: u64) -> bool
    ensures { result ≡ low_frame_bit_of level value }
{
    (level == 3 && some_bit(value, FRAME_LOW_1_GBYTE - 1, FRAME_LOW + 1))
        || (level == 2 && some_bit(value, FRAME_LOW_2_MBYTES - 1, FRAME_LOW + 1))
}

/// The physical address of the page that a leaf maps.
fn page_frame(level: u8, value: u64) -> u64
    requires least { 1 ≤ level }
    requires most { level ≤ 3 }
    ensures value { result ≡ page_frame_of level value }
    ensures frame { IsFrame result }
    ensures aligned { result % span level ≡ 0 }
    ensures ends { result + span level ≤ 2 ^ 52 }
{
    match level {
        1 => in_place(value, FRAME_HIGH, FRAME_LOW),
        2 => in_place(value, FRAME_HIGH, FRAME_LOW_2_MBYTES),
        _ => in_place(value, FRAME_HIGH, FRAME_LOW_1_GBYTE),
    }
}
