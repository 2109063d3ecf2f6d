// What an output does where its writer fails.
use lines::output::Output;
use std::io;
use std::io::{ErrorKind, Write};

/// Takes what it is given, and fails where it is to hand that on.
#[derive(Drop)]
struct Stuck;

impl Write for Stuck {
    fn write(&mut self, buf: &[u8]) -> io::Result<usize> {
        Ok(buf.len())
    }

    fn flush(&mut self) -> io::Result<()> {
        Err(io::Error::from(ErrorKind::StorageFull))
    }
}

#[test]
fn an_error_of_the_last_write_is_handed_on(rt: HostRuntime) {
    let mut out = Output::new(rt.alloc(), Stuck).expect(&rt, "memory for the buffer");
    out.line("ARIA");
    assert!(rt; out.finish().is_err());
}
