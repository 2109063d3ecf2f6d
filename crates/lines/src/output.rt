// Text to a writer.
ghost use Rattle.std.specs.Prelude.{◌≡◌, true, [], is_some, IfSome, None, Err, IfOk, IfErr};
ghost use Rattle.std.specs.Io.Buffered.{writer_buffer, writer_contents, writer_inner};
ghost use Rattle.std.specs.Io.KnownBytes.{Appends};
ghost use Rattle.std.specs.Fmt.{with_newline};
ghost use Rattle.std.specs.IoError.{error_kind};

use std::alloc::Global;
use std::fmt::Display;
use std::io;
use std::io::{BufWriter, ErrorKind, Write};

/// Buffered text to a writer. After an error nothing more is written, and `finish` hands the first
/// error on, so that a caller need not stop at each line.
pub struct Output<W: Write + Drop> {
    writer: BufWriter<W>,
    error: Option<io::Error>,
}

impl<W: Write + Drop> Output<W> {
    /// Nothing written yet. Where there is no memory for the buffer, the writer is dropped, and
    /// nothing was written to it.
    pub fn new(alloc: Global, writer: W) -> io::Result<Output<W>>
        ensures ok { IfOk result (λ o. o.error ≡ None) }
        ensures writer { IfOk result (λ o. writer_inner o.writer ≡ writer) }
        ensures unwritten { IfOk result (λ o. writer_buffer o.writer ≡ []) }
        ensures err { IfErr result (λ e. error_kind e ≡ ErrorKind.OutOfMemory) }
    {
        Ok(Output {
            writer: BufWriter::new(alloc, writer)?,
            error: None,
        })
    }

    /// Writes the text: without an error, the writer then holds it behind what it held.
    pub fn text<D: Display + Drop>(&mut self, text: D)
        ensures after_error { is_some self.old.error ≡ true → self.new ≡ self.old }
        ensures written { self.new.error ≡ None → IfSome (D.output text) (Appends (writer_contents W.contents self.old.writer) (writer_contents W.contents self.new.writer)) }
    {
        if self.error.is_none() {
            // The field is written only where there is an error: it is large, and this runs for each text.
            if let Err(e) = write!(self.writer, "{text}") {
                self.error = Some(e);
            }
        }
    }

    /// Writes the text and a line's end.
    pub fn line<D: Display + Drop>(&mut self, text: D)
        ensures after_error { is_some self.old.error ≡ true → self.new ≡ self.old }
        ensures written { self.new.error ≡ None → IfSome (with_newline (D.output text)) (Appends (writer_contents W.contents self.old.writer) (writer_contents W.contents self.new.writer)) }
    {
        self.text(format_args!("{text}\n"));
    }

    /// Writes what is still held, unless an error came before, and answers the first error.
    pub fn finish(self) -> io::Result<()>
        ensures { IfSome self.error (λ e. result ≡ Err e) }
    {
        let Output { mut writer, error } = self;
        match error {
            Some(e) => Err(e),
            None => writer.flush(),
        }
    }
}
