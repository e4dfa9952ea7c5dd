//! Bits of a number, and ranges of bits. Bit 0 is the lowest; bits high:low are those from `high` down to `low`.

ghost use Rattle.std.specs.Prelude.{◌≡◌, ◌+◌, ◌-◌, ◌%◌, ◌^◌, ◌<◌, ◌≤◌};
ghost use Rattle.paging_model.specs.BitRanges.{bit, field, in_place, some_bit};

/// Whether the bit is 1.
pub fn bit(number: u64, index: u8) -> bool
    requires { index < 64 }
    ensures { result ≡ bit number index }
{
    (number >> index) % 2 == 1
}

/// Bits high:low, as a number of their own. Where `low` is `high + 1` there are none, and the number is 0.
pub fn field(number: u64, high: u8, low: u8) -> u64
    requires within { low < 64 }
    requires order { low ≤ high + 1 }
    requires narrow { high + 1 - low < 64 }
    ensures value { result ≡ field number high low }
    ensures below { result < 2 ^ (high + 1 - low) }
{
    (number >> low) % (1 << (high + 1 - low))
}

/// Bits high:low in place, all others 0.
pub fn in_place(number: u64, high: u8, low: u8) -> u64
    requires within { high < 64 }
    requires order { low ≤ high }
    requires narrow { high + 1 - low < 64 }
    ensures value { result ≡ in_place number high low }
    ensures aligned { result % 2 ^ low ≡ 0 }
    ensures below { result < 2 ^ (high + 1) }
{
    field(number, high, low) << low
}

/// Whether one of bits high:low is 1. Where `low` is `high + 1` there are none.
pub fn some_bit(number: u64, high: u8, low: u8) -> bool
    requires within { low < 64 }
    requires order { low ≤ high + 1 }
    requires narrow { high + 1 - low < 64 }
    ensures { result ≡ some_bit number high low }
{
    field(number, high, low) != 0
}
