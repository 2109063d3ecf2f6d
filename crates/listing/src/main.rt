//! Reads places under their answers, and lists them by the LETTERS keys of the answers.
#![tactic(auto)]

ghost use Rattle.std.specs.Prelude.{◌≡◌, true, None, is_some};
ghost use Rattle.std.specs.Io.Buffered.{writer_contents};
ghost use Rattle.std.specs.Io.KnownBytes.{Appends};
ghost use Rattle.listing.specs.Listing.{contents};
ghost use Rattle.listing.specs.Report.{report_text};

mod listing;
mod parser;

use keys::LettersKey;
use lines::output::Output;
use lines::reader::Reader;
use listing::Listing;
use ordered::Cell;
use parser::{Entry, parse};
use std::alloc::Global;
use std::io;
use std::io::{Read, Write};

/// The most places that a listing holds.
const CELLS: usize = 1024;

fn main(rt: HostRuntime) -> io::Result<()> {
    run(&rt)
}

fn run(rt: &HostRuntime) -> io::Result<()> {
    let mut cells = [Cell {
        key: LettersKey { number: 0 },
        value: 0,
    }; CELLS];
    let mut listing = Listing::new(&mut cells);
    let mut lines = Reader::new(rt.alloc(), rt.stdin())?;
    let mut out = Output::new(rt.alloc(), rt.stdout())?;
    read(&mut lines, &mut listing, &mut out);
    write_report(rt.alloc(), &listing, &mut out);
    let written = out.finish();
    lines.finish()?;
    written
}

// Adds the place of each line, and answers `?` to a malformed one and `refused` to one that finds no room.
fn read<R: Read, W: Write + Drop>(
    lines: &mut Reader<R>,
    listing: &mut Listing,
    out: &mut Output<W>,
) {
    while lines.advance() {
        match parse(lines.line()) {
            Some(Entry { key, place }) => {
                if let Err(refusal) = listing.add(key, place) {
                    out.line(format_args!("refused {}", u8::from(refusal)));
                }
            }
            None => out.line("?"),
        }
    }
}

// Writes the report: as one text, and so in one write, where there is memory for it, and else piece by piece.
fn write_report<W: Write + Drop>(heap: Global, listing: &Listing, out: &mut Output<W>)
    ensures after_error { is_some out.old.error ≡ true → out.new ≡ out.old }
    ensures written { out.new.error ≡ None → Appends (writer_contents W.contents out.old.writer) (writer_contents W.contents out.new.writer) (report_text (contents listing.now)) }
{
    match listing.to_string(heap) {
        Ok(report) => out.text(&report),
        Err(_) => out.text(listing),
    }
}
