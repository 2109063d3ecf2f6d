// The first bytes of a key as one number, the first byte highest.
ghost use Rattle.std.specs.Prelude.{◌≡◌, drop, slice_index};
ghost use Rattle.keys.specs.Gather.{gathered};

/// The first byte, zero where there is none, and the bytes after it: a slice pattern names both.
fn first_and_rest(bytes: &[u8]) -> (u8, &[u8])
    ensures first { result.0 ≡ slice_index bytes.now 0 }
    ensures rest { result.1.now ≡ drop 1 bytes.now }
{
    match bytes {
        [first, rest @ ..] => (*first, rest),
        [] => (0, bytes),
    }
}

/// The first eight bytes gathered in 64 bits; missing bytes are zero.
pub(crate) fn gather_eight(bytes: &[u8]) -> u64
    ensures { result ≡ gathered 8 bytes.now }
{
    let mut number: u64 = 0;
    let mut rest = bytes;
    for _ in 0..8u32 {
        let (first, after) = first_and_rest(rest);
        number = number * 256 + u64::from(first);
        rest = after;
    }
    number
}
