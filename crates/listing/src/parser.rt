// The form of a listing's lines.
ghost use Rattle.std.specs.Prelude.{◌≡◌};
ghost use Rattle.listing.specs.Lines.{meaning, parsed, StandsForLine};

use lines::buffer::LONGEST_LINE;
use lines::field::split_at_space;
use lines::number::number;

/// A place under a key, which is a part of the line.
#[derive(Clone, Copy)]
pub struct Entry<'a> {
    pub key: &'a [u8],
    pub place: u32,
}

/// Parses a line without its end. Its first 257 bytes are enough: what they say, the line says.
pub fn parse(line: &[u8]) -> Option<Entry<'_>>
    ensures parsed { meaning result ≡ parsed line.now }
    ensures whole { StandsForLine line.now result }
{
    if line.len() > LONGEST_LINE {
        return None;
    }
    let (key, digits) = split_at_space(line)?;
    let place = number(digits)?;
    Some(Entry { key, place })
}
