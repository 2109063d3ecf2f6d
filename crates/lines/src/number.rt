// Numbers as lines write them.
ghost use Rattle.std.specs.Prelude.{◌≡◌, ◌+◌, ◌-◌, ◌*◌, ◌^◌, ◌<◌, ◌≤◌, length};
ghost use Rattle.lines.specs.Number.{number_of};

const MOST_DIGITS: usize = 10;

/// The number that one to ten decimal digits write, if it fits 32 bits. Leading zeros are digits.
pub fn number(digits: &[u8]) -> Option<u32>
    ensures { result ≡ number_of digits.now }
{
    if digits.is_empty() || digits.len() > MOST_DIGITS {
        return None;
    }
    read(digits)
}

// In one pass: the library's `from_utf8` and `parse` take two to three times as long.
fn read(digits: &[u8]) -> Option<u32>
    requires some { 0 < length digits.now }
    requires most { length digits.now ≤ 10 }
    ensures { result ≡ number_of digits.now }
{
    let mut n: u64 = 0;
    for digit in digits {
        if !digit.is_ascii_digit() {
            return None;
        }
        n = with_digit(n, *digit);
    }
    u32::try_from(n).ok()
}

// The number that the digits of `n` and one more write.
fn with_digit(n: u64, digit: u8) -> u64
    requires room { n < 10 ^ 10 }
    requires low { 48 ≤ digit }
    requires high { digit ≤ 57 }
    ensures { result ≡ n * 10 + (digit - 48) }
{
    n * 10 + u64::from(digit - b'0')
}
