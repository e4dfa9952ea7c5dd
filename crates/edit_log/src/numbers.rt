//! Numbers as the log spells them.

ghost use Rattle.std.specs.Prelude.{◌≡◌, ◌+◌, ◌*◌, ◌^◌, ◌<◌, ◌≤◌, length, unwrap_or, IfSome};
ghost use Rattle.edit_log.specs.Numbers.{number_of, value_of, value_after, if_64_bits, decimal_digit, hex_digit};
ghost use Rattle.edit_log.specs.Digits.{base_of, byte_of, digit_in, four_of};

/// The number that a word spells: `0x` and 1 to 16 hexadecimal digits, or 1 to 20 decimal digits, below 2 to the 64.
#[tactic(auto, unfolding(crate::specs::Numbers::number_of))]
pub fn number(word: &[u8]) -> Option<u64>
    ensures { result ≡ number_of word.now }
{
    if word.starts_with(b"0x") {
        return hexadecimal(&word[2..]);
    }
    decimal(word)
}

/// The value of 1 to 16 hexadecimal digits. They have room in 64 bits.
fn hexadecimal(digits: &[u8]) -> Option<u64>
    ensures { result ≡ value_of hex_digit 16 16 digits.now }
{
    if digits.is_empty() || digits.len() > 16 {
        return None;
    }
    let mut value = 0;
    let mut rest = digits;
    'fours: while let [a, b, c, d, more @ ..] = rest {
        let four = four_digits(*a, *b, *c, *d)?;
        value = value * 65536 + four;
        rest = more;
    }
    more_digits(Radix::Hexadecimal, value, rest)
}

/// The value of 1 to 20 decimal digits, where it is below 2 to the 64. The first 19 have room there.
fn decimal(digits: &[u8]) -> Option<u64>
    ensures { result ≡ value_of decimal_digit 10 20 digits.now }
{
    if digits.is_empty() || digits.len() > 20 {
        return None;
    }
    let (first, last) = digits.split_at(digits.len().min(19));
    let value = more_digits(Radix::Decimal, 0, first)?;
    match last {
        [] => Some(value),
        [character, ..] => with_digit(value, decimal_digit(*character)?),
    }
}

/// How digits spell a number.
#[derive(Clone, Copy, Debug)]
enum Radix {
    Decimal,
    Hexadecimal,
}

impl Radix {
    ghost use Rattle.edit_log.specs.Digits.{base_of, digit_in};

    /// How many digits there are.
    fn base(self) -> u64
        ensures value { result ≡ base_of self }
        ensures some { 0 < result }
    {
        match self {
            Radix::Decimal => 10,
            Radix::Hexadecimal => 16,
        }
    }

    /// The value of a character as a digit, of either case.
    fn digit(self, character: u8) -> Option<u8>
        ensures value { result ≡ digit_in self character }
        ensures below { IfSome result (λ digit. digit < base_of self) }
    {
        match self {
            Radix::Decimal => decimal_digit(character),
            Radix::Hexadecimal => hex_digit(character),
        }
    }
}

/// The value of digits after a value. All of them have room in 64 bits.
fn more_digits(radix: Radix, before: u64, digits: &[u8]) -> Option<u64>
    requires { (before + 1) * base_of radix ^ length digits.now ≤ 2 ^ 64 }
    ensures value { result ≡ value_after (digit_in radix) (base_of radix) before digits.now }
    ensures fits { IfSome result (λ n. n < 2 ^ 64) }
{
    let mut value = before;
    for character in digits {
        value = value * radix.base() + u64::from(radix.digit(*character)?);
    }
    Some(value)
}

/// The value with one more decimal digit, where it is below 2 to the 64.
fn with_digit(value: u64, digit: u8) -> Option<u64>
    ensures { result ≡ if_64_bits (value * 10 + digit) }
{
    value.checked_mul(10)?.checked_add(u64::from(digit))
}

/// The value of a character as a decimal digit.
fn decimal_digit(character: u8) -> Option<u8>
    ensures value { result ≡ decimal_digit character }
    ensures below { IfSome result (λ digit. digit < 10) }
{
    match character {
        b'0'..=b'9' => Some(character - b'0'),
        _ => None,
    }
}

/// More than four hexadecimal digits can be.
const N: u32 = 65536;

/// The value of each character as a hexadecimal digit of either case; `N` for a character that is none.
static HEX_DIGITS: [u32; 256] = [
    N, N, N, N, N, N, N, N, N, N, N, N, N, N, N, N, N, N, N, N, N, N, N, N, N, N, N, N, N, N, N, N,
    N, N, N, N, N, N, N, N, N, N, N, N, N, N, N, N, 0, 1, 2, 3, 4, 5, 6, 7, 8, 9, N, N, N, N, N, N,
    N, 10, 11, 12, 13, 14, 15, N, N, N, N, N, N, N, N, N, N, N, N, N, N, N, N, N, N, N, N, N, N, N,
    N, N, N, 10, 11, 12, 13, 14, 15, N, N, N, N, N, N, N, N, N, N, N, N, N, N, N, N, N, N, N, N, N,
    N, N, N, N, N, N, N, N, N, N, N, N, N, N, N, N, N, N, N, N, N, N, N, N, N, N, N, N, N, N, N, N,
    N, N, N, N, N, N, N, N, N, N, N, N, N, N, N, N, N, N, N, N, N, N, N, N, N, N, N, N, N, N, N, N,
    N, N, N, N, N, N, N, N, N, N, N, N, N, N, N, N, N, N, N, N, N, N, N, N, N, N, N, N, N, N, N, N,
    N, N, N, N, N, N, N, N, N, N, N, N, N, N, N, N, N, N, N, N, N, N, N, N, N, N, N, N, N, N, N, N,
    N, N, N, N,
];

/// The value of a character in the table.
fn entry(character: u8) -> u32
    ensures value { result ≡ unwrap_or (hex_digit character) 65536 }
    ensures most { result ≤ 65536 }
    ensures below { IfSome (hex_digit character) (λ digit. digit < 16) }
{
    HEX_DIGITS[character as usize]
}

/// The value of a character as a hexadecimal digit of either case, below 16.
pub(crate) fn hex_digit(character: u8) -> Option<u8>
    ensures value { result ≡ hex_digit character }
    ensures below { IfSome result (λ digit. digit < 16) }
{
    let value = entry(character);
    if value < 16 { Some(value as u8) } else { None }
}

/// The byte of two hexadecimal digits. Where one is none, the sum is too great for a byte.
pub(crate) fn two_digits(high: u8, low: u8) -> Option<u8>
    ensures { result ≡ byte_of high low }
{
    let byte = 16 * entry(high) + entry(low);
    if byte < 256 { Some(byte as u8) } else { None }
}

/// The value of four hexadecimal digits.
fn four_digits(a: u8, b: u8, c: u8, d: u8) -> Option<u64>
    ensures value { result ≡ four_of a b c d }
    ensures below { IfSome result (λ four. four < 65536) }
{
    let four = 4096 * entry(a) + 256 * entry(b) + 16 * entry(c) + entry(d);
    if four < N {
        Some(u64::from(four))
    } else {
        None
    }
}
