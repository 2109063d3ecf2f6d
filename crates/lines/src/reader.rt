// Lines from a reader.
ghost use Rattle.std.specs.Prelude.{◌≡◌, ◌≢◌, List, ℕ, ◌<◌, true, false, [], ◌++◌, length, All, is_some, None, Ok, Err, nat_lt, MatchOption, IfSome, OnOk, OnErr, IfOk, IfErr, ◌-◌, ◌^◌};
ghost use Rattle.std.specs.ControlFlow.{ForBreak};
ghost use Rattle.std.specs.Io.BufRead.{first_piece, DropsThrough};
ghost use Rattle.std.specs.Io.Buffered.{reader_buffer, reader_inner, reader_remaining};
ghost use Rattle.std.specs.Io.KnownBytes.{Keeps};
ghost use Rattle.std.specs.IoError.{error_kind};
ghost use Rattle.lines.specs.Buffer.{contents, kept};
ghost use Rattle.lines.specs.Reader.{Brings};

use super::buffer::LineBuffer;
use std::alloc::Global;
use std::io;
use std::io::{BufRead, BufReader, ErrorKind, Read};
use std::ops::ControlFlow;

/// The lines of an input. A line ends before byte 0A (hexadecimal) or at the end of the input, where
/// an empty rest is no line. An error ends the lines, and `finish` hands it on.
#[derive(Drop)]
pub struct Reader<R> {
    input: BufReader<R>,
    line: LineBuffer,
    // Nothing says that an input ends, so each block that is asked for is counted.
    budget: u64,
    error: Option<io::Error>,
}

impl<R: Read> Reader<R> {
    /// Before the first line of the input. Where there is no memory for the buffer, the input is
    /// dropped, and nothing of it was read.
    pub fn new(alloc: Global, input: R) -> io::Result<Reader<R>>
    where
        R: Drop,
        ensures line { IfOk result (λ r. contents r.line ≡ []) }
        ensures error { IfOk result (λ r. r.error ≡ None) }
        ensures input { IfOk result (λ r. reader_inner r.input ≡ input) }
        ensures unread { IfOk result (λ r. reader_buffer r.input ≡ []) }
        ensures bytes { IfOk result (λ r. reader_remaining R.remaining r.input ≡ R.remaining input) }
        ensures budget { IfOk result (λ r. r.budget ≡ 2 ^ 64 - 1) }
        ensures err { IfErr result (λ e. error_kind e ≡ ErrorKind.OutOfMemory) }
    {
        Ok(Reader {
            input: BufReader::new(alloc, input)?,
            line: LineBuffer::new(),
            budget: u64::MAX,
            error: None,
        })
    }

    /// The first 257 bytes of the line that `advance` came to.
    pub fn line(&self) -> &[u8]
        ensures { result.now ≡ contents self.now.line }
    {
        self.line.as_bytes()
    }

    /// Goes to the next line and answers whether there is one. After an error there is none.
    pub fn advance(&mut self) -> bool
        ensures falls { result ≡ true → self.new.budget < self.old.budget }
        ensures stopped { is_some self.old.error ≡ true → (result ≡ false) × (self.new ≡ self.old) }
        ensures failed { is_some self.new.error ≡ true → result ≡ false }
        ensures ended { result ≡ false → self.new.error ≡ None → contents self.new.line ≡ [] }
        ensures one_line { self.new.error ≡ None → All (λ b. b ≢ 10) (contents self.new.line) }

        // Where the bytes are known.
        ensures found { self.new.error ≡ None → IfSome (reader_remaining R.remaining self.old.input) (λ xs. result ≡ nat_lt 0 (length xs)) }
        ensures line { self.new.error ≡ None → IfSome (reader_remaining R.remaining self.old.input) (λ xs. contents self.new.line ≡ kept (first_piece 10 xs)) }
        ensures rest { self.new.error ≡ None → DropsThrough (reader_remaining R.remaining self.old.input) (reader_remaining R.remaining self.new.input) 10 }
    {
        if self.error.is_some() {
            return false;
        }
        match self.read_line() {
            Ok(is_line) => is_line,
            Err(e) => {
                self.error = Some(e);
                false
            }
        }
    }

    /// The first error, if there was one.
    pub fn finish(self) -> io::Result<()>
    where
        R: Drop,
        ensures { MatchOption self.error (result ≡ Ok tt) (λ e. result ≡ Err e) }
    {
        self.error.map_or(Ok(()), Err)
    }

    fn read_line(&mut self) -> io::Result<bool>
        ensures falls { OnOk result (self.new.budget < self.old.budget) }
        ensures ended { result ≡ Ok false → contents self.new.line ≡ [] }
        ensures error { self.new.error ≡ self.old.error }
        ensures one_line { OnOk result (All (λ b. b ≢ 10) (contents self.new.line)) }
        ensures found { IfOk result (λ is_line. IfSome (reader_remaining R.remaining self.old.input) (λ xs. is_line ≡ nat_lt 0 (length xs))) }
        ensures line { OnOk result (IfSome (reader_remaining R.remaining self.old.input) (λ xs. contents self.new.line ≡ kept (first_piece 10 xs))) }
        ensures rest { OnOk result (DropsThrough (reader_remaining R.remaining self.old.input) (reader_remaining R.remaining self.new.input) 10) }
    {
        self.line.clear();
        for left in (0..self.budget).rev() {
            self.budget = left;
            match take_block(&mut self.input, &mut self.line) {
                Ok(ControlFlow::Continue(())) => {}
                Ok(ControlFlow::Break(is_line)) => return Ok(is_line),
                Err(e) if e.kind() == ErrorKind::Interrupted => {}
                Err(e) => return Err(e),
            }
        }
        Err(io::Error::from(ErrorKind::TimedOut))
    }
}

// Adds the next block of the input to the line, up to the line's end. At that end, or the input's, it
// answers whether there is a line.
fn take_block<R: Read>(
    input: &mut BufReader<R>,
    line: &mut LineBuffer,
) -> io::Result<ControlFlow<bool>>
    ensures ended { result ≡ Ok (ControlFlow.Break false) → contents line.new ≡ [] }
    ensures found { IfOk result (λ flow. ForBreak flow (λ is_line. IfSome (reader_remaining R.remaining input.old) (λ xs. is_line ≡ nat_lt 0 (length (contents line.old ++ xs))))) }
    ensures brings { IfOk result (λ flow. (part : List ℕ) × All (λ b. b ≢ 10) part × (contents line.new ≡ kept (contents line.old ++ part)) × Brings (reader_remaining R.remaining input.old) (reader_remaining R.remaining input.new) part flow) }
    ensures failed { OnErr result (line.new ≡ line.old) }
    ensures unread { OnErr result (Keeps (reader_remaining R.remaining input.old) (reader_remaining R.remaining input.new)) }
{
    let block = input.fill_buf()?;
    if block.is_empty() {
        return Ok(ControlFlow::Break(!line.as_bytes().is_empty()));
    }
    match line.add_block(block) {
        Some(end) => {
            input.consume(end + 1);
            Ok(ControlFlow::Break(true))
        }
        None => {
            let all = block.len();
            input.consume(all);
            Ok(ControlFlow::Continue(()))
        }
    }
}
