//! The ranges of addresses that the entries of a table serve.

ghost use Rattle.std.specs.Prelude.{◌≡◌, ◌+◌, ◌-◌, ◌*◌, ◌%◌, ◌^◌, ◌<◌, ◌≤◌};
ghost use Rattle.paging_model.specs.LinearAddress.{span as span_of};
ghost use Rattle.paging_model.specs.Listings.{stretch_of_region};
ghost use Rattle.region_map.specs.Coalesced.{IsPageRange};

use paging_model::entries::Bits;
use paging_model::spaces::Region;

/// The length in bytes of the range that an entry of a level serves.
#[inline(always)]
pub(crate) fn span(level: u8) -> u64
    requires least { 1 ≤ level }
    requires most { level ≤ 5 }
    ensures value { result ≡ span_of level }
    ensures least { 4096 ≤ result }
    ensures whole { result % 4096 ≡ 0 }
    ensures most { result ≤ 2 ^ 48 }
{
    1 << (12 + 9 * (level - 1))
}

/// The first address that entry `i` serves, in a table whose entry 0 serves addresses from a prefix on.
#[inline(always)]
pub(crate) fn first_of(level: u8, prefix: u64, i: usize) -> u64
    requires least { 1 ≤ level }
    requires most { level ≤ 5 }
    requires begins { prefix % (512 * span_of level) ≡ 0 }
    requires ends { prefix + 512 * span_of level ≤ 2 ^ 64 }
    requires slot { i < 512 }
    ensures value { result ≡ prefix + i * span_of level }
    ensures whole { result % span_of level ≡ 0 }
    ensures ends { result + span_of level ≤ 2 ^ 64 }
{
    prefix + i as u64 * span(level)
}

/// The range of an entry that maps a page, from its first address on.
#[inline(always)]
pub(crate) fn page_region(level: u8, first: u64, frame: u64, bits: Bits, key: u8) -> Region
    requires least { 1 ≤ level }
    requires most { level ≤ 5 }
    requires begins { first % span_of level ≡ 0 }
    requires ends { first + span_of level ≤ 2 ^ 64 }
    requires aligned { frame % 4096 ≡ 0 }
    requires within { frame + span_of level ≤ 2 ^ 52 }
    ensures value { result ≡ record {
      first = first;
      last = first + (span_of level - 1);
      frame = frame;
      bits = bits;
      key = key;
    } }
    ensures range { IsPageRange (stretch_of_region result) }
{
    Region {
        first,
        last: first + (span(level) - 1),
        frame,
        bits,
        key,
    }
}
