//! How an address selects an entry of each table, and an offset in a page.

ghost use Rattle.std.specs.Prelude.{◌≡◌, ◌+◌, ◌%◌, ◌^◌, ◌<◌, ◌≤◌};
ghost use Rattle.paging_model.specs.LinearAddress.{span as span_of};
ghost use Rattle.paging_model.specs.Walking.{entry_address as entry_address_of, own_frame as own_frame_of};

/// The size in bytes of an entry.
const ENTRY_SIZE: u64 = 8;
/// How many entries a table has.
const ENTRIES: u64 = 512;
/// The size in bytes of the smallest page.
const PAGE_SIZE: u64 = 4096;

/// The physical address of the entry that serves an address, in a table of a level.
pub fn entry_address(level: u8, table: u64, address: u64) -> u64
    requires least { 1 ≤ level }
    requires most { level ≤ 5 }
    requires aligned { table % 4096 ≡ 0 }
    requires below { table < 2 ^ 52 }
    ensures value { result ≡ entry_address_of level address table }
    ensures aligned { result % 8 ≡ 0 }
{
    table + ENTRY_SIZE * (address / span(level) % ENTRIES)
}

/// The frame of the address's own 4-KByte page, within a page of a level.
pub(crate) fn own_frame(level: u8, frame: u64, address: u64) -> u64
    requires least { 1 ≤ level }
    requires most { level ≤ 3 }
    requires aligned { frame % span_of level ≡ 0 }
    requires ends { frame + span_of level ≤ 2 ^ 52 }
    ensures value { result ≡ own_frame_of level address frame }
    ensures aligned { result % 4096 ≡ 0 }
    ensures ends { result + 4096 ≤ 2 ^ 52 }
{
    frame + address % span(level) / PAGE_SIZE * PAGE_SIZE
}

/// The length in bytes of the range that one entry of a level serves.
pub fn span(level: u8) -> u64
    requires least { 1 ≤ level }
    requires most { level ≤ 5 }
    ensures value { result ≡ span_of level }
    ensures some { 0 < result }
{
    1 << (12 + 9 * (level - 1))
}
