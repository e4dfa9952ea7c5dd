//! The walk of one linear address, from the top table down.

ghost use Rattle.std.specs.Prelude.{◌≡◌, ◌+◌, ◌%◌, ◌^◌, ◌<◌, ◌≤◌, IfSome};
ghost use Rattle.paging_model.specs.Entries.{HasFrame, IsFrame};
ghost use Rattle.paging_model.specs.LinearAddress.{span as span_of};
ghost use Rattle.paging_model.specs.Walking.{entry_address as entry_address_of, entry_read as entry_of_table, own_frame as own_frame_of, top_level as top_level_of, walk as walk_of, walk_from as walk_on};
ghost use Rattle.entry_decode.specs.Levels.{IsOfLevel};
ghost use Rattle.paging_reference.specs.WalkedPages.{EndsAtLeaf};

use crate::physical_memory::{PhysicalMemory, entry_at};
use entry_decode::{decode, join};
use paging_model::entries::{Bits, Entry};
use paging_model::registers::Settings;
use paging_model::walks::{Page, Walk};

/// Above the top table nothing is refused.
pub const ROOT_BITS: Bits = Bits {
    write: true,
    user: true,
    xd: false,
};

/// The length of the range that one entry of a level serves.
pub fn span(level: u8) -> u64
    requires least { 1 ≤ level }
    requires most { level ≤ 5 }
    ensures value { result ≡ span_of level }
    ensures some { 0 < result }
{
    1 << (12 + 9 * (level - 1))
}

/// The level of the top table.
pub fn top_level(settings: &Settings) -> u8
    ensures value { result ≡ top_level_of settings.now }
    ensures least { 4 ≤ result }
    ensures most { result ≤ 5 }
{
    if settings.la57 { 5 } else { 4 }
}

/// What the entry of a level that serves an address means, in a table.
#[tactic(auto, unfolding(paging_model::specs::Memory::entry_at))]
pub fn entry_read<M: PhysicalMemory>(
    memory: &M,
    settings: &Settings,
    level: u8,
    address: u64,
    table: u64,
) -> Option<Entry>
    requires least { 1 ≤ level }
    requires most { level ≤ 5 }
    requires frame { IsFrame table }
    ensures value { result
        ≡ entry_of_table (M.contents memory.now) settings.now level address table }
    ensures frame { IfSome result HasFrame }
    ensures level { IfSome result (IsOfLevel level) }
{
    let value = entry_at(memory, entry_address(level, address, table))?;
    Some(decode(level, settings, value))
}

/// The walk from a table of a level down, under the bits that were joined above it.
pub fn walk_from<M: PhysicalMemory>(
    memory: &M,
    settings: &Settings,
    level: u8,
    address: u64,
    table: u64,
    above: Bits,
) -> Walk
    requires least { 1 ≤ level }
    requires most { level ≤ 5 }
    requires frame { IsFrame table }
    ensures value { result
        ≡ walk_on (M.contents memory.now) settings.now level address table above }
    ensures page { EndsAtLeaf result }
{
    let Some(entry) = entry_read(memory, settings, level, address, table) else {
        return Walk::Unknown(level);
    };
    match entry {
        Entry::Absent => Walk::Absent(level),
        Entry::Reserved => Walk::Reserved(level),
        Entry::Table { frame, bits } => walk_from(
            memory,
            settings,
            level - 1,
            address,
            frame,
            join(above, bits),
        ),
        Entry::Leaf {
            frame,
            bits,
            key,
            global,
        } => Walk::Mapped(Page {
            frame: own_frame(level, address, frame),
            level,
            bits: join(above, bits),
            key,
            global,
        }),
    }
}

/// The walk from a root.
#[tactic(auto, unfolding(paging_model::specs::Walking::walk))]
pub fn walk<M: PhysicalMemory>(memory: &M, settings: &Settings, root: u64, address: u64) -> Walk
    requires { IsFrame root }
    ensures value { result ≡ walk_of (M.contents memory.now) settings.now root address }
    ensures page { EndsAtLeaf result }
{
    walk_from(
        memory,
        settings,
        top_level(settings),
        address,
        root,
        ROOT_BITS,
    )
}

/// The physical address of the entry that serves an address, in a table of a level.
fn entry_address(level: u8, address: u64, table: u64) -> u64
    requires least { 1 ≤ level }
    requires most { level ≤ 5 }
    requires frame { IsFrame table }
    ensures value { result ≡ entry_address_of level address table }
    ensures below { result < 2 ^ 53 }
{
    table + 8 * (address / span(level) % 512)
}

/// The frame of the address's own 4-KByte page, within a page of a level.
fn own_frame(level: u8, address: u64, frame: u64) -> u64
    requires least { 1 ≤ level }
    requires most { level ≤ 3 }
    requires ends { frame + span_of level ≤ 2 ^ 52 }
    ensures { result ≡ own_frame_of level address frame }
{
    frame + address % span(level) / 4096 * 4096
}
