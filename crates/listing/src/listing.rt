// A listing of places.
use chains::{ChainStore, OrderedStore, Refusal};
use keys::{Letters, LettersKey, Translator};
use ordered::{Cell, Ordered};
use std::fmt;
use std::fmt::{Display, Formatter, Write};

/// The places read so far, under the LETTERS keys of their answers.
#[derive(Drop)]
pub struct Listing<'a> {
    store: Ordered<'a, LettersKey, u32>,
}

/// What a listing's last line says: how many keys have places, and how many places there are.
#[derive(Clone, Copy)]
struct Totals {
    keys: usize,
    places: usize,
}

impl<'a> Listing<'a> {
    ghost use Rattle.std.specs.Prelude.{◌≡◌, min, false, [], length, is_ok, IfOk};
    ghost use Rattle.std.specs.Fmt.{HasWritten, IsPlainFormatter, WritesOnOk};
    ghost use Rattle.chains.specs.State.{values, put_outcome};
    ghost use Rattle.keys.specs.Letters.{letters, letters_less};
    ghost use Rattle.listing.specs.Listing.{contents, room, state};
    ghost use Rattle.listing.specs.Report.{line_text, lines_text, total};

    /// An empty listing over lent cells. Its room is their number, or 32,768 if there are more.
    pub fn new(cells: &'a mut [Cell<LettersKey, u32>]) -> Self
        ensures empty { contents result ≡ [] }
        ensures room { room result ≡ min (length cells.old) 32768 }
    {
        Listing {
            store: Ordered::new(cells),
        }
    }

    /// Puts a place before the others under its answer's key, unless the listing is full.
    pub fn add(&mut self, answer: &[u8], place: u32) -> Result<(), Refusal>
        ensures effect { (result, state self.new) ≡ put_outcome letters_less (state self.old) (letters answer.now) 0 place }
        ensures refused { is_ok result ≡ false → self.new ≡ self.old }
    {
        self.store.put(Letters.transform(answer), 0, place)
    }

    /// Writes the lines of all keys, rising, and counts keys and places in the same walk.
    fn write_lines<W: Write>(&self, f: &mut Formatter<W>) -> Result<Totals, fmt::Error>
        ensures text { IsPlainFormatter f.old → IfOk result (λ t. HasWritten W.Write.write_str_gives f.old (lines_text (contents self.now)) f.new) }
        ensures keys { IfOk result (λ t. t.keys ≡ length (contents self.now)) }
        ensures places { IfOk result (λ t. t.places ≡ total (contents self.now)) }
    {
        let mut keys = 0;
        let mut places = 0;
        let mut next = self.store.first();
        while let Some(key) = next {
            self.write_line(key, f)?;
            keys += 1;
            places += self.store.count(key);
            next = self.store.above(key);
        }
        Ok(Totals { keys, places })
    }

    /// Writes the line of one key: its number, and its places by rank.
    fn write_line<W: Write>(&self, key: LettersKey, f: &mut Formatter<W>) -> fmt::Result
        ensures { WritesOnOk W.Write.write_str_gives f.old result (line_text key (values letters_less (state self.now) key)) f.new }
    {
        write!(f, "{}", key.number)?;
        for rank in 0..self.store.count(key) {
            let place = self.store.value(key, rank).unwrap();
            write!(f, " {place}")?;
        }
        writeln!(f)
    }
}

/// One line for each key, rising: its number, and its places by rank. The last line says how many keys and how many
/// places there are.
impl Display for Listing<'_> {
    ghost use Rattle.std.specs.Prelude.{Some};
    ghost use Rattle.listing.specs.Listing.{contents};
    ghost use Rattle.listing.specs.Report.{report_text};

    ghost output = { λ listing. Some (report_text (contents listing)) };

    fn fmt<W: Write>(&self, f: &mut Formatter<W>) -> fmt::Result {
        let totals = self.write_lines(f)?;
        writeln!(f, "{} {}", totals.keys, totals.places)
    }
}
