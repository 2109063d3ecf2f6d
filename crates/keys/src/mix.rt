// Hash numbers: one multiplication between two foldings.
ghost use Rattle.std.specs.Prelude.{◌≡◌};
ghost use Rattle.keys.specs.Mix.{mixed};

/// Spreads the bits of a number over all 64, so that near keys land in far cells.
pub(crate) fn mix(n: u64) -> u64
    ensures { result ≡ mixed n }
{
    let spread = (n ^ (n >> 32)).wrapping_mul(0x9E37_79B9_7F4A_7C15);
    spread ^ (spread >> 32)
}
