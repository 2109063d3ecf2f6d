// The fields of a line, which single spaces part.
ghost use Rattle.std.specs.Prelude.{◌≡◌, ◌∷◌, ◌++◌, MatchOption};
ghost use Rattle.lines.specs.Fields.{Spaceless};

/// What stands before the first space and what stands after it, or `None` where there is no space.
pub fn split_at_space(bytes: &[u8]) -> Option<(&[u8], &[u8])>
    ensures { MatchOption result (Spaceless bytes.now) (λ parts. (bytes.now ≡ parts.0.now ++ 32 ∷ parts.1.now) × Spaceless parts.0.now) }
{
    let i = bytes.iter().position(|&b| b == b' ')?;
    Some((&bytes[..i], &bytes[i + 1..]))
}
